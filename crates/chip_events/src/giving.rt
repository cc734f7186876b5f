// An opened chip is given a certificate.
ghost use Rattle.std.specs.Prelude.{◌≡◌, ◌≢◌, ◌≤◌, ◌++◌, Ok, Err, IfOk, OnOk, OnErr, true, IsOk};
ghost use Rattle.eac_base.specs.Causes.{Rose};
ghost use Rattle.cvc_grammar.specs.ReadingOrder.{read_cert};
ghost use Rattle.chip_slots.specs.Calls.{DeviceCalls};
ghost use Rattle.chip_slots.specs.Image.{is_memory};
ghost use Rattle.chip_slots.specs.Providers.{IsOnlyAsked};
ghost use Rattle.chip_slots.specs.declared.answers.ChipRefusal.TheVariants as refusal;
ghost use Rattle.chip_events.specs.DiskTurns.{HandTurn, IsUntouched};
ghost use Rattle.chip_events.specs.Givings.{Gives, taken_by};
ghost use Rattle.chip_events.specs.Imports.{ack_of};
ghost use Rattle.chip_events.specs.Makings as words;

use crate::opening::make_room;
use crate::{ImportCount, Taken};
use chip_slots::{Chip, ChipDisk, ChipRefusal};
use chip_verify::Imported;
use cvc_grammar::view_cert;
use eac_base::{Ack, Acks, NoMemory};
use holder_reference::Reference;
use signature_provider::SignatureProvider;

// The reference of the holder of a certificate that can be read.
fn holder_of(bytes: &[u8]) -> Reference
    requires { IsOk (read_cert bytes.now) }
    ensures { result ≡ words.holder_of (read_cert bytes.now) }
{
    match view_cert(bytes) {
        Ok(cert) => cert.holder,
        Err(_) => unreachable!(),
    }
}

// The certificate that was taken, or why it wasn't.
fn taken_of(answer: Result<Imported, ChipRefusal>, bytes: &[u8]) -> Result<Taken, ChipRefusal>
    requires { OnOk answer (IsOk (read_cert bytes.now)) }
    ensures { result ≡ taken_by answer bytes.now }
{
    match answer {
        Err(refusal) => Err(refusal),
        Ok(what) => Ok(Taken {
            what,
            holder: holder_of(bytes),
        }),
    }
}

// Acknowledges the import of this number, where the chip answered Ok. There is room for it.
fn acknowledge<D: ChipDisk>(
    disk: &D,
    imports: &ImportCount,
    acks: &mut Acks,
    answer: &Result<Imported, ChipRefusal>,
)
    requires { 1 ≤ acks.old.room }
    ensures { acks.new.acks ≡ acks.old.acks ++ ack_of imports.now.chip imports.now.count (D.moment disk.now) answer.now }
{
    if answer.is_ok() {
        acks.push_reserved(Ack {
            chip: imports.chip,
            import: imports.count,
            calls: disk.calls(),
        });
    }
}

// Imports the certificate and counts the import. An Ok is acknowledged.
fn give_in_room<D: ChipDisk, P: SignatureProvider>(
    disk: &mut D,
    provider: &mut P,
    imports: &mut ImportCount,
    acks: &mut Acks,
    chip: &mut Chip,
    bytes: &[u8],
) -> Result<Taken, ChipRefusal>
    requires spare { 32 ≤ D.spare disk.old }
    requires room { 1 ≤ acks.old.room }
    ensures turn { HandTurn D.ChipDisk P.SignatureProvider disk.old disk.new provider.old provider.new
        imports.old imports.new acks.old.acks acks.new.acks chip.old chip.new (IsOk result)
        (λ w left. Gives imports.old.chip w bytes.now result left) }
    ensures cause { result ≡ Err refusal.DiskFault → is_memory (D.size disk.old) ≡ true →
        Rose (D.faults disk.old) (D.faults disk.new) }
    ensures quiet { result ≢ Err refusal.DiskFault → D.faults disk.new ≡ D.faults disk.old }
    ensures unheard { result ≡ Err refusal.ProviderFault → Rose (P.faults provider.old) (P.faults provider.new) }
    ensures heard { result ≢ Err refusal.ProviderFault → P.faults provider.new ≡ P.faults provider.old }
    ensures provider { IsOnlyAsked P.SignatureProvider provider.old provider.new }
    ensures calls { DeviceCalls D.ChipDisk 7 disk.old disk.new }
{
    let result = chip.import(disk, provider, bytes);
    *imports = imports.next();
    acknowledge(disk, imports, acks, &result);
    taken_of(result, bytes)
}

// Takes the room for the acknowledgement and for the device calls, and then gives the certificate. Where memory is
// wanting nothing was done.
pub(crate) fn give<D: ChipDisk, P: SignatureProvider>(
    disk: &mut D,
    provider: &mut P,
    imports: &mut ImportCount,
    acks: &mut Acks,
    chip: &mut Chip,
    bytes: &[u8],
) -> Result<Result<Taken, ChipRefusal>, NoMemory>
    ensures turn { IfOk result (λ r. HandTurn D.ChipDisk P.SignatureProvider disk.old disk.new provider.old provider.new
        imports.old imports.new acks.old.acks acks.new.acks chip.old chip.new (IsOk r)
        (λ w left. Gives imports.old.chip w bytes.now r left)) }
    ensures cause { result ≡ Ok (Err refusal.DiskFault) → is_memory (D.size disk.old) ≡ true →
        Rose (D.faults disk.old) (D.faults disk.new) }
    ensures quiet { result ≢ Ok (Err refusal.DiskFault) → D.faults disk.new ≡ D.faults disk.old }
    ensures unheard { result ≡ Ok (Err refusal.ProviderFault) → Rose (P.faults provider.old) (P.faults provider.new) }
    ensures heard { result ≢ Ok (Err refusal.ProviderFault) → P.faults provider.new ≡ P.faults provider.old }
    ensures provider { IsOnlyAsked P.SignatureProvider provider.old provider.new }
    ensures disk { OnErr result (IsUntouched D.ChipDisk disk.old disk.new) }
    ensures unasked { OnErr result (provider.new ≡ provider.old) }
    ensures chip { OnErr result (chip.new ≡ chip.old) }
    ensures imports { OnErr result (imports.new ≡ imports.old) }
    ensures acks { OnErr result (acks.new.acks ≡ acks.old.acks) }
    ensures calls { DeviceCalls D.ChipDisk 7 disk.old disk.new }
{
    acks.reserve()?;
    make_room(disk)?;
    Ok(give_in_room(disk, provider, imports, acks, chip, bytes))
}
