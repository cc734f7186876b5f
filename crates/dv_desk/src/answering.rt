// What a document verifier answers to a call.
ghost use Rattle.desk_core.specs.Serving.{moment};
ghost use Rattle.dv_desk.specs.Answering.{IsAnswered};

use cv_dates::Day;
use desk_core::{Desk, Served, answer_both, answer_receipt, answer_request};
use eac_base::NoMemory;
use eac_messages::Message;
use keeper::Keeper;
use policy_limits::Setup;
use signature_provider::SignatureProvider;
use std::alloc::Global;

/// Answers a call for the document verifier with this number: a request for a certificate by issuing, a question for
/// certificates by [`list`](crate::list), certificates by taking them. The reply repeats the call's identifier.
///
/// # Errors
///
/// [`NoMemory`]. A row of a request may stand, and then the same request is answered with it; certificates before the
/// want may be taken, and are so again.
pub fn answer<B: Keeper, P: SignatureProvider>(
    alloc: Global,
    setup: &Setup,
    desk: u32,
    day: Day,
    message: &Message,
    keeper: &mut B,
    provider: &mut P,
) -> Result<Served, NoMemory>
    ensures { IsAnswered setup.now desk day message.now
        (moment B.Keeper P.SignatureProvider keeper.old provider.old)
        (moment B.Keeper P.SignatureProvider keeper.new provider.new) result }
{
    match message {
        Message::RequestCertificate { id, request } => {
            let desk = Desk {
                setup,
                number: desk,
                day,
            };
            answer_request(
                alloc,
                &desk,
                id.as_slice(),
                request.as_slice(),
                keeper,
                provider,
            )
        }
        Message::GetCaCertificates { id } => answer_both(alloc, desk, id.as_slice(), keeper),
        Message::SendCertificates { id, certificates } => {
            answer_receipt(alloc, desk, id.as_slice(), certificates, keeper, provider)
        }
    }
}
