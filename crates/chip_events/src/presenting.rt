// A chip is shown a chain.
ghost use Rattle.std.specs.Prelude.{◌≡◌, ◌≢◌, ◌≤◌, ◌<◌, ◌⊎◌, ◌++◌, ◌∷◌, [], ℕ, Ok, Err, true};
ghost use Rattle.std.specs.Prelude.{OnErr, OnOk, IfOk, IfErr, IsOk};
ghost use Rattle.std.specs.Vec.{vec_len, vec_capacity};
ghost use Rattle.eac_base.specs.Causes.{Rose};
ghost use Rattle.chip_slots.specs.Calls.{DeviceCalls};
ghost use Rattle.chip_slots.specs.Image.{is_memory};
ghost use Rattle.chip_slots.specs.Providers.{IsOnlyAsked};
ghost use Rattle.chip_slots.specs.declared.answers.ChipRefusal.TheVariants as refusal;
ghost use Rattle.chip_events.specs.DiskTurns.{HandTurn, OpensTo, IsUntouched};
ghost use Rattle.chip_events.specs.Givings.{GivesNext, GivesAll, ShowsAll, WereTaken, EndsBy, IsAll};
ghost use Rattle.chip_events.specs.Givings.{stop_of, grant_in, ended_as, references_of};

use crate::giving::give;
use crate::opening::open_anew;
use crate::{Grant, ImportCount, Shown, ShownEnd, Taken, TakenList};
use chip_slots::{Chip, ChipDisk, ChipRefusal};
use eac_base::{Acks, ByteLists, NoMemory};
use holder_reference::Reference;
use signature_provider::SignatureProvider;
use std::alloc::Global;

/// Opens the chip of this disk, to be shown a chain.
///
/// # Errors
///
/// [`NoMemory`] where memory is wanting; then nothing was done. `NoChip` where the length is no memory's or the memory reads
/// as no state, and `DiskFault` where a device call failed, which the disk has counted.
pub fn open_for<D: ChipDisk>(disk: &mut D) -> Result<Result<Chip, ChipRefusal>, NoMemory>
    ensures opened { (number : ℕ) → IfOk result (λ o. OpensTo D.ChipDisk disk.old disk.new number o) }
    ensures refusals { IfOk result (λ o. IfErr o (λ e. (e ≡ refusal.NoChip) ⊎ (e ≡ refusal.DiskFault))) }
    ensures cause { result ≡ Ok (Err refusal.DiskFault) → Rose (D.faults disk.old) (D.faults disk.new) }
    ensures quiet { result ≢ Ok (Err refusal.DiskFault) → D.faults disk.new ≡ D.faults disk.old }
    ensures wanting { OnErr result (IsUntouched D.ChipDisk disk.old disk.new) }
    ensures calls { DeviceCalls D.ChipDisk 17 disk.old disk.new }
{
    open_anew(disk)
}

/// The references of the chip's trust points, the newest first: what a chain is asked for.
///
/// # Errors
///
/// [`NoMemory`] where memory is wanting.
pub fn references(alloc: Global, chip: &Chip) -> Result<Vec<Reference>, NoMemory>
    ensures { IfOk result (λ r. r.items ≡ references_of chip.now.state) }
{
    let mut references = Vec::new(alloc);
    let state = chip.state();
    references.push(state.newest.reference)?;
    if let Some(older) = &state.older {
        references.push(older.reference)?;
    }
    Ok(references)
}

// Takes the room to note one more.
fn room_for_one(list: &mut Vec<Taken>) -> Result<(), NoMemory>
    ensures room { OnOk result (vec_len list.new < vec_capacity list.new) }
    ensures kept { list.new.items ≡ list.old.items }
{
    list.reserve(1)?;
    Ok(())
}

// Appends one into room that was taken before.
fn note(list: &mut Vec<Taken>, taken: Taken)
    requires { vec_len list.old < vec_capacity list.old }
    ensures { list.new.items ≡ list.old.items ++ taken ∷ [] }
{
    let _ = list.push(taken);
}

// Gives the next certificate, with the room to note it taken first. Where memory is wanting nothing was done.
fn show_next<D: ChipDisk, P: SignatureProvider>(
    disk: &mut D,
    provider: &mut P,
    imports: &mut ImportCount,
    acks: &mut Acks,
    chip: &mut Chip,
    bytes: &[u8],
    list: &mut Vec<Taken>,
) -> Result<Result<(), ChipRefusal>, NoMemory>
    ensures turn { IfOk result (λ r. HandTurn D.ChipDisk P.SignatureProvider disk.old disk.new provider.old provider.new
        imports.old imports.new acks.old.acks acks.new.acks chip.old chip.new (IsOk r)
        (λ w left. GivesNext imports.old.chip w bytes.now r list.old.items list.new.items left)) }
    ensures cause { result ≡ Ok (Err refusal.DiskFault) → is_memory (D.size disk.old) ≡ true →
        Rose (D.faults disk.old) (D.faults disk.new) }
    ensures quiet { result ≢ Ok (Err refusal.DiskFault) → D.faults disk.new ≡ D.faults disk.old }
    ensures unheard { result ≡ Ok (Err refusal.ProviderFault) → Rose (P.faults provider.old) (P.faults provider.new) }
    ensures heard { result ≢ Ok (Err refusal.ProviderFault) → P.faults provider.new ≡ P.faults provider.old }
    ensures provider { IsOnlyAsked P.SignatureProvider provider.old provider.new }
    ensures disk { OnErr result (IsUntouched D.ChipDisk disk.old disk.new) }
    ensures unasked { OnErr result (provider.new ≡ provider.old) }
    ensures chip { OnErr result (chip.new ≡ chip.old) }
    ensures imports { OnErr result (imports.new ≡ imports.old) }
    ensures acks { OnErr result (acks.new.acks ≡ acks.old.acks) }
    ensures list { OnErr result (list.new.items ≡ list.old.items) }
    ensures size { D.size disk.new ≡ D.size disk.old }
{
    room_for_one(list)?;
    match give(disk, provider, imports, acks, chip, bytes) {
        Err(NoMemory) => Err(NoMemory),
        Ok(Err(refusal)) => Ok(Err(refusal)),
        Ok(Ok(taken)) => {
            note(list, taken);
            Ok(Ok(()))
        }
    }
}

// Gives the certificates in order, up to the first that isn't taken.
fn show_all<D: ChipDisk, P: SignatureProvider>(
    disk: &mut D,
    provider: &mut P,
    imports: &mut ImportCount,
    acks: &mut Acks,
    chip: &mut Chip,
    certs: &ByteLists,
    list: &mut Vec<Taken>,
) -> Result<Result<(), ChipRefusal>, NoMemory>
    requires { list.old.items ≡ [] }
    ensures turn { HandTurn D.ChipDisk P.SignatureProvider disk.old disk.new provider.old provider.new
        imports.old imports.new acks.old.acks acks.new.acks chip.old chip.new (IsAll result)
        (λ w left. GivesAll imports.old.chip w certs.now list.new.items (stop_of result) left) }
    ensures cause { result ≡ Ok (Err refusal.DiskFault) → is_memory (D.size disk.old) ≡ true →
        Rose (D.faults disk.old) (D.faults disk.new) }
    ensures quiet { result ≢ Ok (Err refusal.DiskFault) → D.faults disk.new ≡ D.faults disk.old }
    ensures unheard { result ≡ Ok (Err refusal.ProviderFault) → Rose (P.faults provider.old) (P.faults provider.new) }
    ensures heard { result ≢ Ok (Err refusal.ProviderFault) → P.faults provider.new ≡ P.faults provider.old }
    ensures provider { IsOnlyAsked P.SignatureProvider provider.old provider.new }
{
    for at in 0..certs.len() {
        let Some(bytes) = certs.get(at) else {
            unreachable!();
        };
        match show_next(disk, provider, imports, acks, chip, bytes, list) {
            Err(NoMemory) => return Err(NoMemory),
            Ok(Err(refusal)) => return Ok(Err(refusal)),
            Ok(Ok(())) => {}
        }
    }
    Ok(Ok(()))
}

// The rights that the session grants, on the chip's day.
fn grant_of(chip: &Chip) -> Option<Grant>
    ensures { result ≡ grant_in chip.now }
{
    match chip.session().granted() {
        None => None,
        Some(rights) => Some(Grant {
            rights,
            day: chip.state().day,
        }),
    }
}

// What came of all of them, by what the chip answered last.
fn shown_of(list: Vec<Taken>, answer: Result<(), ChipRefusal>, chip: &Chip) -> Shown
    ensures { result ≡ record { taken = list.items; end = ended_as chip.now answer } }
{
    let taken = TakenList::from_vec(list);
    match answer {
        Err(refusal) => Shown {
            taken,
            end: ShownEnd::NotTaken(refusal),
        },
        Ok(()) => Shown {
            taken,
            end: ShownEnd::AllTaken(grant_of(chip)),
        },
    }
}

/// Shows an opened chip the certificates, in order: imports each, up to the first that the chip doesn't take. Where it took
/// each of them, what its session then grants is told, on the chip's day.
///
/// Each import is counted whatever the chip answers, and each that it answers Ok is acknowledged, as `import` does. The room
/// for an acknowledgement is taken before the import. The chip is to be the one that [`open_for`] opened on this disk, with
/// nothing done on the disk since.
///
/// # Errors
///
/// [`NoMemory`] where memory is wanting: then a front of the certificates was taken, counted and acknowledged, and nothing
/// was done about the next one.
pub fn show<D: ChipDisk, P: SignatureProvider>(
    alloc: Global,
    disk: &mut D,
    provider: &mut P,
    imports: &mut ImportCount,
    acks: &mut Acks,
    chip: &mut Chip,
    certs: &ByteLists,
) -> Result<Shown, NoMemory>
    ensures turn { HandTurn D.ChipDisk P.SignatureProvider disk.old disk.new provider.old provider.new
        imports.old imports.new acks.old.acks acks.new.acks chip.old chip.new (WereTaken result)
        (λ w left. ShowsAll imports.old.chip w certs.now result left) }
    ensures cause { EndsBy refusal.DiskFault result → is_memory (D.size disk.old) ≡ true →
        Rose (D.faults disk.old) (D.faults disk.new) }
    ensures quiet { (EndsBy refusal.DiskFault result → ⊥) → D.faults disk.new ≡ D.faults disk.old }
    ensures unheard { EndsBy refusal.ProviderFault result → Rose (P.faults provider.old) (P.faults provider.new) }
    ensures heard { (EndsBy refusal.ProviderFault result → ⊥) → P.faults provider.new ≡ P.faults provider.old }
    ensures provider { IsOnlyAsked P.SignatureProvider provider.old provider.new }
{
    let mut list = Vec::new(alloc);
    match show_all(disk, provider, imports, acks, chip, certs, &mut list) {
        Err(NoMemory) => Err(NoMemory),
        Ok(answer) => Ok(shown_of(list, answer, chip)),
    }
}
