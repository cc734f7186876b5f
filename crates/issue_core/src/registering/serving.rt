// The plain register gives each reference once.
ghost use Rattle.std.specs.Prelude.{◌≡◌, ◌≤◌, ℕ, List, length, IfOk, IfSome};
ghost use Rattle.eac_base.specs.Telling.{Told};
ghost use Rattle.keeper.specs.Keeping.{MayAdd};
ghost use Rattle.keeper.specs.Rows.{row_at, rows_of};
ghost use Rattle.keeper.specs.declared.rows.Table.TheVariants.{Register as RegisterTable};
ghost use Rattle.issue_core.specs.Registering.Desk.{register_outcome, row_of, RegisterServes, again_of, RegisterFaults, RegisterCause};
ghost use Rattle.issue_core.specs.Registering.Steps.{full_answer, row_answer, looked, RegisterEnters, answer_of};

use crate::{IssueFault, Rule};
use eac_base::{Octets, is_same};
use holder_reference::Reference;
use keeper::{KeepRefusal, Keeper, MOST_ROWS, Part, Row, Table};
use std::alloc::Global;

/// What the register answers, with the day on which the reference was given in six ASCII digits.
#[derive(Clone, Copy, Debug, PartialEq, Eq)]
pub enum RegisterAnswer {
    /// The reference is given now.
    Issued([u8; 6]),
    /// The reference was given to the same request on that day.
    Kept([u8; 6]),
    /// The first rule that is broken.
    Refused(Rule),
}

// What is answered where the reference has a row.
fn answer_again(part: &Part, request: &[u8]) -> RegisterAnswer
    ensures { result ≡ again_of part.now request.now }
{
    match part {
        Part::Register { request: kept, day } => {
            if is_same(kept.as_slice(), request) {
                RegisterAnswer::Kept(*day)
            } else {
                RegisterAnswer::Refused(Rule::Used)
            }
        }
        Part::Issued(_) | Part::Own(_) | Part::Ca(_) => RegisterAnswer::Refused(Rule::Used),
    }
}

// What is answered where no row has the reference and the table is full.
fn full_answer(count: u64) -> Option<RegisterAnswer>
    ensures { result ≡ full_answer count }
{
    if MOST_ROWS <= count {
        Some(RegisterAnswer::Refused(Rule::Full))
    } else {
        None
    }
}

// What is answered by the row of the reference, where there is one.
fn row_answer(found: Option<Row>, request: &[u8]) -> Option<RegisterAnswer>
    ensures { result ≡ row_answer found request.now }
{
    match found {
        Some(row) => Some(answer_again(&row.part, request)),
        None => None,
    }
}

fn look_at_row<B: Keeper>(
    alloc: Global,
    reference: &Reference,
    request: &[u8],
    keeper: &mut B,
) -> Result<Option<RegisterAnswer>, IssueFault>
    ensures told { Told (B.rows keeper.old) (B.rows keeper.new) (λ before after. (after ≡ before) × IfOk result
        (λ o. o ≡ row_answer (row_at RegisterTable 0 reference.now before) request.now)) }
    ensures answered { (day : List ℕ) → IfOk result (λ o. IfSome o (RegisterCause reference.now request.now day)) }
    ensures cause { RegisterFaults (B.faults keeper.old) (B.faults keeper.new) result }
{
    let found = keeper.find(alloc, Table::Register, 0, reference)?;
    Ok(row_answer(found, request))
}

fn look_at_count<B: Keeper>(
    alloc: Global,
    keeper: &mut B,
) -> Result<Option<RegisterAnswer>, IssueFault>
    ensures told { Told (B.rows keeper.old) (B.rows keeper.new) (λ before after. (after ≡ before) × IfOk result
        (λ o. o ≡ full_answer (length (rows_of RegisterTable 0 before)))) }
    ensures answered { (reference bytes day : List ℕ) →
        IfOk result (λ o. IfSome o (RegisterCause reference bytes day)) }
    ensures cause { RegisterFaults (B.faults keeper.old) (B.faults keeper.new) result }
{
    let count = keeper.count(alloc, Table::Register, 0)?;
    Ok(full_answer(count))
}

// The answer where no row is to be added. The row of the reference comes before the count.
fn look<B: Keeper>(
    alloc: Global,
    reference: &Reference,
    request: &[u8],
    keeper: &mut B,
) -> Result<Option<RegisterAnswer>, IssueFault>
    ensures told { Told (B.rows keeper.old) (B.rows keeper.new) (λ before after. (after ≡ before) × IfOk result
        (λ o. o ≡ looked before reference.now request.now)) }
    ensures answered { (day : List ℕ) → IfOk result (λ o. IfSome o (RegisterCause reference.now request.now day)) }
    ensures cause { RegisterFaults (B.faults keeper.old) (B.faults keeper.new) result }
{
    match look_at_row(alloc, reference, request, keeper)? {
        Some(answer) => Ok(Some(answer)),
        None => look_at_count(alloc, keeper),
    }
}

// What is answered to an adding. A keeper that tells its rows is never full nor has the key where one has just looked;
// the answer of another one is passed on as the rule that it says.
fn answer_of(
    added: Result<(), KeepRefusal>,
    day: [u8; 6],
    request: &[u8],
) -> Result<RegisterAnswer, IssueFault>
    ensures { result ≡ answer_of added day request.now }
{
    match added {
        Ok(()) => Ok(RegisterAnswer::Issued(day)),
        Err(KeepRefusal::Twice(kept)) => Ok(answer_again(&kept.part, request)),
        Err(KeepRefusal::Full) => Ok(RegisterAnswer::Refused(Rule::Full)),
        Err(KeepRefusal::Failed) => Err(IssueFault::KeeperFault),
        Err(KeepRefusal::Absent) => Err(IssueFault::NoMemory),
        Err(KeepRefusal::NoMemory) => Err(IssueFault::NoMemory),
    }
}

// Adds the row.
fn enter<B: Keeper>(
    alloc: Global,
    day: [u8; 6],
    reference: &Reference,
    request: &[u8],
    keeper: &mut B,
) -> Result<RegisterAnswer, IssueFault>
    requires { length request.now ≤ 65535 }
    ensures told { Told (B.rows keeper.old) (B.rows keeper.new) (λ before after. MayAdd before (row_of reference.now
        request.now day) → RegisterEnters before after (row_of reference.now request.now day) result) }
    ensures answered { IfOk result (RegisterCause reference.now request.now day) }
    ensures cause { RegisterFaults (B.faults keeper.old) (B.faults keeper.new) result }
{
    let kept = Octets::from_slice(alloc, request)?;
    let row = Row {
        desk: 0,
        reference: *reference,
        part: Part::Register { request: kept, day },
    };
    let added = keeper.add(alloc, &row);
    answer_of(added, day, request)
}

/// RegisterServes one line of the register: gives the reference to the request, which has at most 65,535 bytes, on this
/// day.
///
/// The same request again is `Kept` with its first day. Other bytes under the reference break rule 2, `Used`; then
/// 100,000 entries break rule 12, `Full`. A fault of the keeper comes only where its count rose, and without one the
/// count is as before. After a fault or want of memory the row may stand, where the keeper kept it; after a refusal
/// none was added.
pub fn register<B: Keeper>(
    alloc: Global,
    day: [u8; 6],
    reference: &Reference,
    request: &[u8],
    keeper: &mut B,
) -> Result<RegisterAnswer, IssueFault>
    requires { length request.now ≤ 65535 }
    // Where the rows are told after the call, it was one delivery, with the rows before it as the ledger.
    ensures delivery { Told (B.rows keeper.old) (B.rows keeper.new) (λ before after. RegisterServes before after
        (record { reference = reference.now; bytes = request.now; day = day }) (
          B.faults keeper.old,
          B.faults
              keeper.new,
        ) (register_outcome result)) }
    // Whether the keeper tells its rows or not, the day that is given is today's, and any other answer is what some row
    // of the reference says, or `Full`.
    ensures answered { IfOk result (RegisterCause reference.now request.now day) }
    ensures cause { RegisterFaults (B.faults keeper.old) (B.faults keeper.new) result }
{
    match look(alloc, reference, request, keeper)? {
        Some(answer) => Ok(answer),
        None => enter(alloc, day, reference, request, keeper),
    }
}
