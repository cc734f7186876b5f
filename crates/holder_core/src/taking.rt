// Certificates for keys of the party itself.
ghost use Rattle.std.specs.Prelude.{◌≡◌, IfOk, Ok};
ghost use Rattle.eac_base.specs.Causes.{HasCause};
ghost use Rattle.eac_base.specs.Telling.{Told};
ghost use Rattle.cvc_grammar.specs.Views.{seen_cert};
ghost use Rattle.keeper.specs.Rows.{IsStorableSettled};
ghost use Rattle.holder_core.specs.Readings.{settled_of};
ghost use Rattle.holder_core.specs.Faults.{HolderCause, KeeperCaused, NoneMissing};
ghost use Rattle.holder_core.specs.OwnRows.{own_part};
ghost use Rattle.holder_core.specs.Taking.{IsRead, IsSeen, IsSeenAsked, Settling, IsSettledAs, TookAsked, Takes};
ghost use Rattle.holder_core.specs.Taking as words;

use crate::looking::{look_ca, look_own};
use crate::{HolderFault, TakeRule, Taken};
use cvc_grammar::{CertView, view_cert};
use eac_base::{Failed, NoMemory, Octets, is_same};
use holder_reference::Reference;
use keeper::{CaPart, KeepRefusal, Keeper, OwnPart, Part, Row, Settled};
use signature_provider::{Key, KeyView, SignatureProvider};
use std::alloc::Global;

// What the rows say of a certificate: the own key of its holder reference, and its issuer.
#[derive(Debug, Drop)]
struct Seen {
    own: Option<OwnPart>,
    issuer: Option<CaPart>,
}

// What a certificate is judged to be.
#[derive(Debug, Drop)]
enum JudgedOwn {
    /// This is the answer, and nothing is written.
    Answered(Taken),
    /// The own row waits for it.
    Waits,
}

fn see<B: Keeper>(
    alloc: Global,
    party: u32,
    cert: &CertView,
    keeper: &mut B,
) -> Result<Seen, HolderFault>
    ensures told { Told (B.rows keeper.old) (B.rows keeper.new) (λ before after. (after ≡ before) × IfOk result (IsSeen
        party (seen_cert cert.now) before)) }
    ensures asked { IfOk result (IsSeenAsked party (seen_cert cert.now)) }
    ensures cause { KeeperCaused (B.faults keeper.old) (B.faults keeper.new) result }
{
    let own = look_own(alloc, party, &cert.holder, keeper)?;
    let issuer = look_ca(alloc, party, &cert.authority, keeper)?;
    Ok(Seen { own, issuer })
}

fn is_kept_as(bytes: &[u8], settled: &Option<Settled>) -> bool
    ensures { result ≡ words.is_kept_as bytes.now settled.now }
{
    match settled {
        Some(settled) => is_same(settled.certificate.as_slice(), bytes),
        None => false,
    }
}

fn has_other_key(key: KeyView, own: &Key) -> bool
    ensures { result ≡ words.view_differs key.entry own.now }
{
    let same = key.algorithm == own.algorithm && is_same(key.point, own.point.as_slice());
    !same || !key.domain.is_empty()
}

// The provider's verdict on the certificate's signature by this key.
pub fn ask_signature<P: SignatureProvider>(
    cert: &CertView,
    issuer: &Key,
    provider: &mut P,
) -> Result<bool, Failed>
    requires { IsRead cert.now }
    ensures verdict { IfOk result (λ yes. yes ≡ words.cert_said (P.says provider.old) (seen_cert cert.now) issuer.now) }
    ensures says { P.says provider.new ≡ P.says provider.old }
    ensures holds { P.holds provider.new ≡ P.holds provider.old }
    ensures signed { P.signed provider.new ≡ P.signed provider.old }
    ensures cause { HasCause (P.faults provider.old) (P.faults provider.new) result }
{
    provider.verify(issuer.view(), cert.body, &[], cert.signature)
}

// The signature is good: the own row has another certificate, or waits for this one.
fn judge_waiting(settled: Option<Settled>) -> JudgedOwn
    ensures { result ≡ words.judged_waiting settled }
{
    match settled {
        Some(kept) => JudgedOwn::Answered(Taken::Refused(TakeRule::Differs(kept.certificate))),
        None => JudgedOwn::Waits,
    }
}

// The certificate fits the own key: its issuer decides.
fn judge_issued<P: SignatureProvider>(
    cert: &CertView,
    settled: Option<Settled>,
    issuer: Option<CaPart>,
    provider: &mut P,
) -> Result<JudgedOwn, Failed>
    requires { IsRead cert.now }
    ensures judged { IfOk result (λ j. words.IssuedJudges (P.says provider.old) (seen_cert cert.now) settled issuer j) }
    ensures says { P.says provider.new ≡ P.says provider.old }
    ensures holds { P.holds provider.new ≡ P.holds provider.old }
    ensures signed { P.signed provider.new ≡ P.signed provider.old }
    ensures cause { HasCause (P.faults provider.old) (P.faults provider.new) result }
{
    let Some(issuer) = issuer else {
        return Ok(JudgedOwn::Answered(Taken::Refused(TakeRule::NoIssuer)));
    };
    if ask_signature(cert, &issuer.key, provider)? {
        Ok(judge_waiting(settled))
    } else {
        Ok(JudgedOwn::Answered(Taken::Refused(TakeRule::Signature)))
    }
}

// What it is by what was seen, with the provider's verdict where it comes to that.
fn judge<P: SignatureProvider>(
    cert: &CertView,
    seen: Seen,
    provider: &mut P,
) -> Result<JudgedOwn, Failed>
    requires { IsRead cert.now }
    ensures judged { IfOk result (λ j. words.Judges (P.says provider.old) cert.now.whole.now (seen_cert cert.now)
        seen.own seen.issuer j) }
    ensures says { P.says provider.new ≡ P.says provider.old }
    ensures holds { P.holds provider.new ≡ P.holds provider.old }
    ensures signed { P.signed provider.new ≡ P.signed provider.old }
    ensures cause { HasCause (P.faults provider.old) (P.faults provider.new) result }
{
    let Seen { own, issuer } = seen;
    let Some(own) = own else {
        return Ok(JudgedOwn::Answered(Taken::Refused(TakeRule::NotMine)));
    };
    let OwnPart {
        authority: _,
        request: _,
        key,
        settled,
    } = own;
    if is_kept_as(cert.whole, &settled) {
        return Ok(JudgedOwn::Answered(Taken::Already(cert.holder)));
    }
    if has_other_key(cert.key, &key) {
        return Ok(JudgedOwn::Answered(Taken::Refused(TakeRule::KeyDiffers)));
    }
    judge_issued(cert, settled, issuer, provider)
}

// What a row settles by a certificate.
pub fn settled_by(alloc: Global, cert: &CertView) -> Result<Settled, NoMemory>
    requires { IsRead cert.now }
    ensures settled { IfOk result (λ s. s ≡ settled_of cert.now.whole.now (seen_cert cert.now).body) }
    ensures storable { IfOk result IsStorableSettled }
{
    Ok(Settled {
        certificate: Octets::from_slice(alloc, cert.whole)?,
        issuer: cert.authority,
        template: cert.template,
        from: cert.from,
        until: cert.until,
    })
}

// The own row that the keeper says is settled, by its bytes.
fn answer_again(row: Row, bytes: &[u8], reference: Reference) -> Taken
    ensures { result ≡ words.kept_answer bytes.now reference row }
{
    let Row {
        desk: _,
        reference: _,
        part,
    } = row;
    let Part::Own(own) = part else {
        return Taken::Refused(TakeRule::NotMine);
    };
    let OwnPart {
        authority: _,
        request: _,
        key: _,
        settled,
    } = own;
    match settled {
        Some(kept) => {
            if is_same(kept.certificate.as_slice(), bytes) {
                Taken::Already(reference)
            } else {
                Taken::Refused(TakeRule::Differs(kept.certificate))
            }
        }
        None => Taken::Refused(TakeRule::NotMine),
    }
}

// What is answered to a settling. A keeper that tells its rows settles one that waits, where one has just looked; the
// answer of another one is passed on as what its row says.
fn answer_settled(
    settled: Result<(), KeepRefusal>,
    bytes: &[u8],
    reference: Reference,
) -> Result<Taken, HolderFault>
    ensures { result ≡ words.settled_answer bytes.now reference settled }
{
    match settled {
        Ok(()) => Ok(Taken::Stored(reference)),
        Err(KeepRefusal::Twice(row)) => Ok(answer_again(row, bytes, reference)),
        Err(KeepRefusal::Absent) => Ok(Taken::Refused(TakeRule::NotMine)),
        Err(KeepRefusal::Failed) => Err(HolderFault::KeeperFault),
        Err(KeepRefusal::Full) => Err(HolderFault::NoMemory),
        Err(KeepRefusal::NoMemory) => Err(HolderFault::NoMemory),
    }
}

// Gives the own row its certificate.
fn settle<B: Keeper>(
    alloc: Global,
    party: u32,
    cert: &CertView,
    keeper: &mut B,
) -> Result<Taken, HolderFault>
    requires { IsRead cert.now }
    ensures told { Told (B.rows keeper.old) (B.rows keeper.new) (λ before after. Settling party cert.now.holder
        (settled_of cert.now.whole.now (seen_cert cert.now).body) before after result) }
    ensures answered { IfOk result (IsSettledAs party cert.now.whole.now cert.now.holder) }
    ensures cause { KeeperCaused (B.faults keeper.old) (B.faults keeper.new) result }
{
    let Ok(settled) = settled_by(alloc, cert) else {
        return Err(HolderFault::NoMemory);
    };
    let done = keeper.settle(alloc, party, &cert.holder, &settled);
    answer_settled(done, cert.whole, cert.holder)
}

// A certificate that was read.
fn take_read<B: Keeper, P: SignatureProvider>(
    alloc: Global,
    party: u32,
    cert: &CertView,
    keeper: &mut B,
    provider: &mut P,
) -> Result<Taken, HolderFault>
    requires { IsRead cert.now }
    ensures took { Told (B.rows keeper.old) (B.rows keeper.new) (λ before after. words.TakesRead (P.says provider.old)
        party cert.now.whole.now (Ok (seen_cert cert.now)) before after result) }
    ensures answered { IfOk result (words.TookBy (P.says provider.old) party cert.now.whole.now (seen_cert cert.now)) }
    ensures cause { HolderCause NoneMissing (B.faults keeper.old, B.faults keeper.new) (
      P.faults provider.old,
      P.faults
          provider.new,
    ) result }
    ensures says { P.says provider.new ≡ P.says provider.old }
    ensures holds { P.holds provider.new ≡ P.holds provider.old }
    ensures signed { P.signed provider.new ≡ P.signed provider.old }
{
    let seen = see(alloc, party, cert, keeper)?;
    match judge(cert, seen, provider) {
        Err(_) => Err(HolderFault::ProviderFault),
        Ok(JudgedOwn::Answered(answer)) => Ok(answer),
        Ok(JudgedOwn::Waits) => settle(alloc, party, cert, keeper),
    }
}

/// Takes a certificate for a key of the party itself.
///
/// The first rule that is broken refuses it, in the order of [`TakeRule`]. Between the rules 2 and 3 a certificate
/// that the row has, byte for byte, is `Already`. Where none is broken, the own row gets the certificate: it is
/// settled, with its bytes, its authority reference, template and dates, and no other row changes.
///
/// A keeper that tells nothing may say to the settling that the row has a certificate, which is `Already` or
/// `Differs` by that row's bytes, or that no row waits there, which is `NotMine`.
///
/// # Errors
///
/// `KeeperFault` only where the keeper's count of faults rose, and then the row may have its certificate;
/// `ProviderFault` only where the provider's rose; `NoMemory`. Nothing is signed, so `NoKey` never comes.
pub fn take_certificate<B: Keeper, P: SignatureProvider>(
    alloc: Global,
    party: u32,
    bytes: &[u8],
    keeper: &mut B,
    provider: &mut P,
) -> Result<Taken, HolderFault>
    // Where the rows are told after the call: the answer that is due by them, and the row that was settled.
    ensures took { Told (B.rows keeper.old) (B.rows keeper.new) (λ before after. Takes (P.says provider.old) party
        bytes.now before after result) }
    // Whether they are told or not, the answer is due by rows as they were asked for.
    ensures answered { IfOk result (TookAsked (P.says provider.old) party bytes.now) }
    ensures cause { HolderCause NoneMissing (B.faults keeper.old, B.faults keeper.new) (
      P.faults provider.old,
      P.faults
          provider.new,
    ) result }
    ensures says { P.says provider.new ≡ P.says provider.old }
    ensures holds { P.holds provider.new ≡ P.holds provider.old }
    ensures signed { P.signed provider.new ≡ P.signed provider.old }
{
    match view_cert(bytes) {
        Err(refusal) => Ok(Taken::Refused(TakeRule::Syntax(refusal))),
        Ok(cert) => take_read(alloc, party, &cert, keeper, provider),
    }
}
