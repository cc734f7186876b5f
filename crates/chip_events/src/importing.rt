// A chip is given one certificate.
ghost use Rattle.std.specs.Prelude.{◌≡◌, ◌≢◌, ◌≤◌, ◌<◌, ◌⊎◌, Ok, Err, OnErr, OnOk, IfOk, true};
ghost use Rattle.eac_base.specs.Causes.{Rose};
ghost use Rattle.chip_slots.specs.Calls.{DeviceCalls};
ghost use Rattle.chip_slots.specs.Image.{is_memory};
ghost use Rattle.chip_slots.specs.Providers.{IsOnlyAsked};
ghost use Rattle.chip_slots.specs.declared.answers.ChipRefusal.{ChipRefusal};
ghost use Rattle.chip_slots.specs.declared.answers.ChipRefusal.TheVariants as refusal;
ghost use Rattle.chip_events.specs.declared.answers.ImportAnswer.TheVariants as answers;
ghost use Rattle.chip_events.specs.DiskTurns.{ProvidedTurn, OpensTo, IsUntouched};
ghost use Rattle.chip_events.specs.Events.{ImportsOne};

use crate::giving::give;
use crate::opening::open_anew;
use crate::{ImportAnswer, ImportCount};
use chip_slots::{Chip, ChipDisk};
use cv_dates::Day;
use eac_base::{Acks, NoMemory};
use signature_provider::SignatureProvider;

fn day_of(chip: &Chip) -> Day
    ensures { result ≡ chip.now.state.day }
{
    chip.state().day
}

// Gives the certificate to a chip that was opened.
fn import_opened<D: ChipDisk, P: SignatureProvider>(
    disk: &mut D,
    provider: &mut P,
    imports: &mut ImportCount,
    acks: &mut Acks,
    chip: &mut Chip,
    bytes: &[u8],
) -> Result<ImportAnswer, NoMemory>
    ensures turn { (first : D) →
        OpensTo D.ChipDisk first disk.old imports.old.count (Ok chip.old) →
        ProvidedTurn D.ChipDisk P.SignatureProvider first disk.new provider.old provider.new
        imports.old imports.new acks.old.acks acks.new.acks
        (λ s s'. ImportsOne imports.old.chip bytes.now s result s') }
    ensures opened { (e : ChipRefusal) → result ≢ Ok (answers.NotOpened e) }
    ensures cause { result ≡ Ok (answers.NotTaken refusal.DiskFault) → is_memory (D.size disk.old) ≡ true →
        Rose (D.faults disk.old) (D.faults disk.new) }
    ensures quiet { result ≢ Ok (answers.NotTaken refusal.DiskFault) → D.faults disk.new ≡ D.faults disk.old }
    ensures unheard { result ≡ Ok (answers.NotTaken refusal.ProviderFault) →
        Rose (P.faults provider.old) (P.faults provider.new) }
    ensures heard { result ≢ Ok (answers.NotTaken refusal.ProviderFault) →
        P.faults provider.new ≡ P.faults provider.old }
    ensures provider { IsOnlyAsked P.SignatureProvider provider.old provider.new }
    ensures unasked { OnErr result (provider.new ≡ provider.old) }
    ensures calls { DeviceCalls D.ChipDisk 7 disk.old disk.new }
{
    match give(disk, provider, imports, acks, chip, bytes) {
        Err(NoMemory) => Err(NoMemory),
        Ok(Err(refusal)) => Ok(ImportAnswer::NotTaken(refusal)),
        Ok(Ok(taken)) => Ok(ImportAnswer::Took {
            taken,
            day: day_of(chip),
        }),
    }
}

/// Opens the chip of this disk, and gives it the certificate.
///
/// The import is counted whatever the chip answers. Where it answers Ok that is acknowledged, by the chip's number, the
/// import's number and the disk's number of calls then; the room for it was taken before.
///
/// # Errors
///
/// [`NoMemory`] where memory is wanting. Then nothing was done but perhaps the opening: nothing was imported, counted or
/// acknowledged, and the provider wasn't asked. `NotOpened` is `NoChip` or `DiskFault`, and no import is counted. `NotTaken`
/// is the chip's answer to the import, in the order of the chip's rules, or `Worn`, `ProviderFault` or `DiskFault`. A
/// fault comes only where that count of faults has risen in the call.
pub fn import<D: ChipDisk, P: SignatureProvider>(
    disk: &mut D,
    provider: &mut P,
    imports: &mut ImportCount,
    acks: &mut Acks,
    bytes: &[u8],
) -> Result<ImportAnswer, NoMemory>
    ensures turn { ProvidedTurn D.ChipDisk P.SignatureProvider disk.old disk.new provider.old provider.new
        imports.old imports.new acks.old.acks acks.new.acks
        (λ s s'. ImportsOne imports.old.chip bytes.now s result s') }
    ensures cause { (result ≡ Ok (answers.NotOpened refusal.DiskFault)) ⊎ (result ≡ Ok (answers.NotTaken refusal.DiskFault)) →
        Rose (D.faults disk.old) (D.faults disk.new) }
    ensures unheard { result ≡ Ok (answers.NotTaken refusal.ProviderFault) →
        Rose (P.faults provider.old) (P.faults provider.new) }
    ensures heard { result ≢ Ok (answers.NotTaken refusal.ProviderFault) →
        P.faults provider.new ≡ P.faults provider.old }
    ensures provider { IsOnlyAsked P.SignatureProvider provider.old provider.new }
    ensures unasked { OnErr result (provider.new ≡ provider.old) }
    ensures wanting { OnErr result (IsUntouched D.ChipDisk disk.old disk.new ⊎ (D.moment disk.old < D.moment disk.new)) }
    ensures calls { DeviceCalls D.ChipDisk 24 disk.old disk.new }
{
    match open_anew(disk) {
        Err(NoMemory) => Err(NoMemory),
        Ok(Err(refusal)) => Ok(ImportAnswer::NotOpened(refusal)),
        Ok(Ok(mut chip)) => import_opened(disk, provider, imports, acks, &mut chip, bytes),
    }
}
