// One request at an issuing desk, step by step.
ghost use Rattle.std.specs.Prelude.{◌≡◌, [], IfOk};
ghost use Rattle.eac_base.specs.Telling.{Told};
ghost use Rattle.keeper.specs.Rows.{IsStorable};
ghost use Rattle.keeper.specs.declared.rows.Part.TheVariants as part;
ghost use Rattle.cvc_grammar.specs.RequestViews.{seen_request, IsRequestView};
ghost use Rattle.issue_core.specs.Issuing.Rows.{AreReadable};
ghost use Rattle.issue_core.specs.Issuing.Causes.{KeeperCaused, IssueCause, StaysTrue};
ghost use Rattle.issue_core.specs.Issuing.Calls.{kept_answer, added_answer, Enters, Serves, outcome_of, case_of, bare_case};
ghost use Rattle.issue_core.specs.Issuing.Signed.{SignsServed};
ghost use Rattle.issue_core.specs.Issuing.ProviderCalls.{standing, MissesKey, CallsProvider};
ghost use Rattle.issue_core.specs.Issuing.AnswerCauses.{Answered, AddingSays};
ghost use Rattle.issue_core.specs.Issuing.Serving.{span, ServesReady, ServesGranted, ServesRegistered, ServesNew, ServesRead, ServesCall};

use crate::issuing::asked_key::own_key;
use crate::issuing::deciding::{Grant, decide};
use crate::issuing::looking::{gather, look};
use crate::issuing::making::{Made, make};
use crate::issuing::seen::Seen;
use crate::issuing::verdicts::ask;
use crate::{IssueFault, Rule};
use cv_dates::Day;
use cvc_grammar::{RequestView, view_request};
use eac_base::{Octets, is_same};
use keeper::{IssuedPart, KeepRefusal, Keeper, Part, Row, Settled, Table};
use policy_limits::{Registration, Setup};
use signature_provider::{Key, SignatureProvider};
use std::alloc::Global;

/// What an issuing desk answers to a request.
#[derive(Debug, Drop)]
pub enum Answer {
    /// The certificate is issued now.
    Issued(Octets),
    /// This certificate was issued to the same request.
    Kept(Octets),
    /// The first rule that is broken.
    Refused(Rule),
}

// One request at a desk, on a day.
#[derive(Clone, Copy)]
struct Call<'a> {
    setup: &'a Setup,
    desk: u32,
    day: Day,
    bytes: &'a [u8],
}

// The same bytes are kept with their certificate, others are refused.
fn answer_kept(row: Row, request: &[u8]) -> Answer
    ensures { result ≡ kept_answer row.part request.now }
{
    let Row {
        desk: _,
        reference: _,
        part,
    } = row;
    let Part::Issued(issued) = part else {
        return Answer::Refused(Rule::Used);
    };
    let IssuedPart {
        request: kept,
        key: _,
        settled,
    } = issued;
    if is_same(kept.as_slice(), request) {
        Answer::Kept(settled.certificate)
    } else {
        Answer::Refused(Rule::Used)
    }
}

// What is answered to an adding. A keeper that tells its rows is never full nor has the key where one has just looked;
// the answer of another one is passed on as the rule that it says.
fn answer_added(
    added: Result<(), KeepRefusal>,
    certificate: Octets,
    request: &[u8],
) -> Result<Answer, IssueFault>
    ensures { result ≡ added_answer added certificate request.now }
{
    match added {
        Ok(()) => Ok(Answer::Issued(certificate)),
        Err(KeepRefusal::Twice(kept)) => Ok(answer_kept(kept, request)),
        Err(KeepRefusal::Full) => Ok(Answer::Refused(Rule::Full)),
        Err(KeepRefusal::Failed) => Err(IssueFault::KeeperFault),
        Err(KeepRefusal::Absent) => Err(IssueFault::NoMemory),
        Err(KeepRefusal::NoMemory) => Err(IssueFault::NoMemory),
    }
}

// Adds the row.
fn enter<B: Keeper>(
    alloc: Global,
    row: &Row,
    certificate: Octets,
    request: &[u8],
    keeper: &mut B,
) -> Result<Answer, IssueFault>
    requires { IsStorable row.now }
    ensures told { Told (B.rows keeper.old) (B.rows keeper.new)
        (λ before after. Enters before after row.now certificate result) }
    ensures answered { IfOk result (AddingSays row.now certificate request.now) }
    ensures cause { KeeperCaused (B.faults keeper.old) (B.faults keeper.new) result }
{
    let added = keeper.add(alloc, row);
    answer_added(added, certificate, request)
}

// The row of the certificate that is issued for a request.
fn issued_row(desk: u32, view: &RequestView, request: Octets, key: Key, settled: Settled) -> Row
    ensures { result ≡ record {
      desk = desk;
      reference = view.now.holder;
      part = part.Issued (record { request = request; key = key; settled = settled });
    } }
{
    Row {
        desk,
        reference: view.holder,
        part: Part::Issued(IssuedPart {
            request,
            key,
            settled,
        }),
    }
}

// The certificate is made, then its row is added. What the row keeps of the request is copied first.
fn serve_granted<B: Keeper, P: SignatureProvider>(
    alloc: Global,
    call: &Call,
    view: &RequestView,
    registration: &Registration,
    grant: &Grant,
    keeper: &mut B,
    provider: &mut P,
) -> Result<Answer, IssueFault>
    requires { IsRequestView call.now.bytes.now view.now }
    ensures { ServesReady call.now (seen_request view.now) registration.now grant.now.signer.now grant.now.days
        (span (B.rows keeper.old, B.rows keeper.new) (B.faults keeper.old, B.faults keeper.new)
        (standing (P.says provider.old) (P.holds provider.old) (P.signed provider.old) (P.faults provider.old))
        (standing (P.says provider.new) (P.holds provider.new) (P.signed provider.new) (P.faults provider.new)))
        result }
{
    let kept = Octets::from_slice(alloc, call.bytes)?;
    let key = own_key(alloc, view)?;
    let Made { text, settled } = make(
        alloc,
        view,
        registration,
        grant.signer,
        grant.days,
        provider,
    )?;
    let row = issued_row(call.desk, view, kept, key, settled);
    enter(alloc, &row, text, call.bytes, keeper)
}

// No rule up to 12 is broken: the provider is asked for its verdicts.
fn serve_allowed<B: Keeper, P: SignatureProvider>(
    alloc: Global,
    call: &Call,
    view: &RequestView,
    registration: &Registration,
    seen: &Seen,
    grant: &Grant,
    keeper: &mut B,
    provider: &mut P,
) -> Result<Answer, IssueFault>
    requires { IsRequestView call.now.bytes.now view.now }
    ensures { ServesGranted call.now (seen_request view.now) registration.now seen.now
        grant.now.signer.now grant.now.days
        (span (B.rows keeper.old, B.rows keeper.new) (B.faults keeper.old, B.faults keeper.new)
        (standing (P.says provider.old) (P.holds provider.old) (P.signed provider.old) (P.faults provider.old))
        (standing (P.says provider.new) (P.holds provider.new) (P.signed provider.new) (P.faults provider.new)))
        result }
{
    match ask(view, &seen.voucher, provider)? {
        Some(rule) => Ok(Answer::Refused(rule)),
        None => serve_granted(alloc, call, view, registration, grant, keeper, provider),
    }
}

// The holder is registered, and its number is new.
fn serve_registered<B: Keeper, P: SignatureProvider>(
    alloc: Global,
    call: &Call,
    view: &RequestView,
    registration: &Registration,
    keeper: &mut B,
    provider: &mut P,
) -> Result<Answer, IssueFault>
    requires { IsRequestView call.now.bytes.now view.now }
    ensures { ServesRegistered call.now (seen_request view.now) registration.now
        (span (B.rows keeper.old, B.rows keeper.new) (B.faults keeper.old, B.faults keeper.new)
        (standing (P.says provider.old) (P.holds provider.old) (P.signed provider.old) (P.faults provider.old))
        (standing (P.says provider.new) (P.holds provider.new) (P.signed provider.new) (P.faults provider.new)))
        result }
{
    let seen = gather(alloc, call.desk, call.day, view, registration, keeper)?;
    match decide(call.day, view, registration, &seen) {
        Err(rule) => Ok(Answer::Refused(rule)),
        Ok(grant) => serve_allowed(
            alloc,
            call,
            view,
            registration,
            &seen,
            &grant,
            keeper,
            provider,
        ),
    }
}

// The request's number is new.
fn serve_new<B: Keeper, P: SignatureProvider>(
    alloc: Global,
    call: &Call,
    view: &RequestView,
    keeper: &mut B,
    provider: &mut P,
) -> Result<Answer, IssueFault>
    requires { IsRequestView call.now.bytes.now view.now }
    ensures { ServesNew call.now (seen_request view.now)
        (span (B.rows keeper.old, B.rows keeper.new) (B.faults keeper.old, B.faults keeper.new)
        (standing (P.says provider.old) (P.holds provider.old) (P.signed provider.old) (P.faults provider.old))
        (standing (P.says provider.new) (P.holds provider.new) (P.signed provider.new) (P.faults provider.new)))
        result }
{
    let holder = view.holder.holder();
    let Some(registration) = call.setup.registration(call.desk, &holder) else {
        return Ok(Answer::Refused(Rule::Holder));
    };
    if registration.suspended {
        return Ok(Answer::Refused(Rule::Holder));
    }
    serve_registered(alloc, call, view, registration, keeper, provider)
}

// The request was read.
fn serve_read<B: Keeper, P: SignatureProvider>(
    alloc: Global,
    call: &Call,
    view: &RequestView,
    keeper: &mut B,
    provider: &mut P,
) -> Result<Answer, IssueFault>
    requires { IsRequestView call.now.bytes.now view.now }
    ensures { ServesRead call.now (seen_request view.now)
        (span (B.rows keeper.old, B.rows keeper.new) (B.faults keeper.old, B.faults keeper.new)
        (standing (P.says provider.old) (P.holds provider.old) (P.signed provider.old) (P.faults provider.old))
        (standing (P.says provider.new) (P.holds provider.new) (P.signed provider.new) (P.faults provider.new)))
        result }
{
    match look(alloc, Table::Issued, call.desk, &view.holder, keeper)? {
        Some(row) => Ok(answer_kept(row, call.bytes)),
        None => serve_new(alloc, call, view, keeper, provider),
    }
}

fn serve<B: Keeper, P: SignatureProvider>(
    alloc: Global,
    call: &Call,
    keeper: &mut B,
    provider: &mut P,
) -> Result<Answer, IssueFault>
    ensures { ServesCall call.now
        (span (B.rows keeper.old, B.rows keeper.new) (B.faults keeper.old, B.faults keeper.new)
        (standing (P.says provider.old) (P.holds provider.old) (P.signed provider.old) (P.faults provider.old))
        (standing (P.says provider.new) (P.holds provider.new) (P.signed provider.new) (P.faults provider.new)))
        result }
{
    match view_request(call.bytes) {
        Err(refusal) => Ok(Answer::Refused(Rule::Syntax(refusal))),
        Ok(view) => serve_read(alloc, call, &view, keeper, provider),
    }
}

/// Serves one request at an issuing desk: a country authority or a document verifier.
///
/// The first of the fourteen rules of [`Rule`] that is broken is answered; a request that was served before is `Kept`
/// with its certificate before the rules 3 to 14 are looked at. Where no rule is broken the certificate that is due is
/// signed with the key of the desk's own row, its row is added, and it is answered. The provider is asked for its
/// verdict on the inner signature where no rule up to 12 is broken, and on the outer one where it said yes to the
/// inner, both over the bytes that came.
///
/// # Errors
///
/// `KeeperFault` and `ProviderFault` only where that count rose in this call or stands at its last value; where such a
/// fault isn't answered, its count is as before. `NoKey` only where no rule is broken by what the keeper gave and the
/// provider doesn't hold the key of the row with that reference, which is the one to sign with; where the rows are
/// told, exactly there. And `NoMemory`. After a fault of the keeper or want of memory the row may stand, and then the
/// same request is answered with it.
///
/// A keeper that doesn't tell its rows may answer to the adding that the key is there, which is answered as `Kept` or
/// `Used` by its row's bytes, or that the table is full, which is rule 12. Each answer then has its cause in the setup,
/// the day, the bytes, the verdicts and rows that are as was asked for: that these are the rows which this keeper gave
/// isn't said.
pub fn issue<B: Keeper, P: SignatureProvider>(
    alloc: Global,
    setup: &Setup,
    desk: u32,
    day: Day,
    request: &[u8],
    keeper: &mut B,
    provider: &mut P,
) -> Result<Answer, IssueFault>
    // Where the rows are told after the call and were readable before it, it was one delivery of the desk's story, with
    // the desk's issued rows before it as the earlier entries and with the provider's verdicts at the call.
    ensures delivery { Told (B.rows keeper.old) (B.rows keeper.new) (λ before after. AreReadable before →
        Serves (P.says provider.new) (P.holds provider.old)
        (case_of (P.says provider.old) setup.now desk day request.now before) (outcome_of result)
        (B.faults keeper.old, B.faults keeper.new) (P.faults provider.old, P.faults provider.new) before after) }
    // There the body of the row that was added was signed by the key of the row that signs, and nothing else; without a
    // row nothing, or that one pair alone where the request was to be answered and the keeper failed or memory was
    // wanting.
    ensures signed { Told (B.rows keeper.old) (B.rows keeper.new) (λ before after. AreReadable before →
        SignsServed (case_of (P.says provider.old) setup.now desk day request.now before) (outcome_of result)
        (P.signed provider.old, P.signed provider.new) before after) }
    // Whether the keeper tells its rows or not, an answer has its cause in the setup, the day, the bytes, the verdicts
    // and rows as they were asked for.
    ensures answered { Answered (P.says provider.old) (P.says provider.new) (P.holds provider.old)
        (bare_case setup.now desk day request.now []) result }
    // For every keeper and provider, the counts haven't fallen, each stands but for its own fault, and a fault came
    // only where its count rose or the key to sign with is missing.
    ensures cause { IssueCause
        (MissesKey (P.says provider.old) (P.holds provider.old) (bare_case setup.now desk day request.now []))
        (B.faults keeper.old, B.faults keeper.new) (P.faults provider.old, P.faults provider.new) result }
    // For every keeper the provider is asked only where by what was seen no rule up to 12 is broken, and signs at most
    // one body, the one that is due, where its verdicts are yes too. Otherwise it is left as it was.
    ensures called { CallsProvider (P.says provider.old) (bare_case setup.now desk day request.now [])
        (standing (P.says provider.old) (P.holds provider.old) (P.signed provider.old) (P.faults provider.old))
        (standing (P.says provider.new) (P.holds provider.new) (P.signed provider.new) (P.faults provider.new)) result }
    // It says and holds what it did, and stays honest.
    ensures provider { StaysTrue (P.says provider.old) (P.says provider.new) (P.holds provider.old)
        (P.holds provider.new) (P.signed provider.old) (P.signed provider.new) }
{
    let call = Call {
        setup,
        desk,
        day,
        bytes: request,
    };
    serve(alloc, &call, keeper, provider)
}
