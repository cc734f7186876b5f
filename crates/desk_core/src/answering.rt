// Calls that a desk serves, each with its reply.
ghost use Rattle.desk_core.specs.Lists.{authority_list, verifier_list, AuthorityAsked, VerifierAsked};
ghost use Rattle.desk_core.specs.Serving.{kept, moment, RequestServed, ListServed, ReceiptServed};

use crate::Served;
use crate::listing::{hand_out, hand_out_both};
use crate::replies::{reply_to_list, reply_to_receipt, reply_to_request};
use cv_dates::Day;
use eac_base::NoMemory;
use holder_core::{CertList, receive};
use issue_core::issue;
use keeper::Keeper;
use policy_limits::Setup;
use signature_provider::SignatureProvider;
use std::alloc::Global;

/// A desk on a day.
#[derive(Clone, Copy)]
pub struct Desk<'a> {
    pub setup: &'a Setup,
    /// The number of its party.
    pub number: u32,
    pub day: Day,
}

/// Serves a request for a certificate at an issuing desk, as [`issue`] does, and gives the reply with this identifier.
///
/// # Errors
///
/// [`NoMemory`]: a row may stand, and then the same request is answered with it.
pub fn answer_request<B: Keeper, P: SignatureProvider>(
    alloc: Global,
    desk: &Desk,
    id: &[u8],
    request: &[u8],
    keeper: &mut B,
    provider: &mut P,
) -> Result<Served, NoMemory>
    ensures { RequestServed desk.now.setup.now desk.now.number desk.now.day id.now request.now
        (moment B.Keeper P.SignatureProvider keeper.old provider.old)
        (moment B.Keeper P.SignatureProvider keeper.new provider.new) result }
{
    let issued = issue(
        alloc,
        desk.setup,
        desk.number,
        desk.day,
        request,
        keeper,
        provider,
    );
    reply_to_request(alloc, id, request, issued)
}

/// Answers a question for certificates with those of a country authority: see [`hand_out`].
///
/// # Errors
///
/// [`NoMemory`]. No row changes.
pub fn answer_list<B: Keeper>(
    alloc: Global,
    desk: u32,
    id: &[u8],
    keeper: &mut B,
) -> Result<Served, NoMemory>
    ensures { ListServed id.now (authority_list desk) (AuthorityAsked desk)
        (kept B.Keeper keeper.old) (kept B.Keeper keeper.new) result }
{
    let listed = hand_out(alloc, desk, keeper);
    reply_to_list(alloc, id, listed)
}

/// Answers a question for certificates with those of a verifier: see [`hand_out_both`].
///
/// # Errors
///
/// [`NoMemory`]. No row changes.
pub fn answer_both<B: Keeper>(
    alloc: Global,
    desk: u32,
    id: &[u8],
    keeper: &mut B,
) -> Result<Served, NoMemory>
    ensures { ListServed id.now (verifier_list desk) (VerifierAsked desk)
        (kept B.Keeper keeper.old) (kept B.Keeper keeper.new) result }
{
    let listed = hand_out_both(alloc, desk, keeper);
    reply_to_list(alloc, id, listed)
}

/// Takes certificates that come in, as [`receive`] does, and gives the reply with this identifier.
///
/// # Errors
///
/// [`NoMemory`]: the certificates before it are taken, and are so again.
pub fn answer_receipt<B: Keeper, P: SignatureProvider>(
    alloc: Global,
    desk: u32,
    id: &[u8],
    certificates: &CertList,
    keeper: &mut B,
    provider: &mut P,
) -> Result<Served, NoMemory>
    ensures { ReceiptServed desk id.now certificates.now
        (moment B.Keeper P.SignatureProvider keeper.old provider.old)
        (moment B.Keeper P.SignatureProvider keeper.new provider.new) result }
{
    let received = receive(alloc, desk, certificates, keeper, provider);
    reply_to_receipt(alloc, id, received)
}
