// Laws of chips over runs of events. Each is the contract of a function that does nothing.
ghost use Rattle.std.specs.Prelude.{◌≡◌, ℕ, List, Ok};
ghost use Rattle.std.specs.declared.result.Result.{Result};
ghost use Rattle.eac_base.specs.declared.acks.Ack.{Ack};
ghost use Rattle.eac_base.specs.declared.failures.NoMemory.{NoMemory};
ghost use Rattle.cvc_grammar.specs.declared.certificate.Cert.{Cert};
ghost use Rattle.cvc_grammar.specs.declared.refusal.CvcRefusal.{CvcRefusal};
ghost use Rattle.chip_verify.specs.Trust.{Trust};
ghost use Rattle.chip_slots.specs.declared.answers.ChipRefusal.{ChipRefusal};
ghost use Rattle.chip_slots.specs.Crash.{Standing};
ghost use Rattle.chip_slots.specs.Chips.{ChipValue};
ghost use Rattle.chip_slots.specs.Runs.{IsBlank};
ghost use Rattle.chip_events.specs.declared.answers.ImportAnswer.{ImportAnswer};
ghost use Rattle.chip_events.specs.declared.answers.MakeAnswer.{MakeAnswer};
ghost use Rattle.chip_events.specs.declared.answers.Shown.{Shown};
ghost use Rattle.chip_events.specs.declared.count.ImportCount.{ImportCount};
ghost use Rattle.chip_events.specs.Asked.{TakesAsked};
ghost use Rattle.chip_events.specs.Verdicts.{Verdict};
ghost use Rattle.chip_events.specs.Told.{ChipTold, ChipPart};
ghost use Rattle.chip_events.specs.Held.{IsChipAt, IsChipOf, first_of};
ghost use Rattle.chip_events.specs.DiskTurns.{OpensTo, HandTurn, ProvidedTurn};
ghost use Rattle.chip_events.specs.Givings.{ShowsAll, WereTaken};
ghost use Rattle.chip_events.specs.Events.{ImportsOne, Presents};
ghost use Rattle.chip_events.specs.Crashes.{CrashLeavesAPrefix, OpeningsRead, NeverFalls, NeverReturns};
ghost use Rattle.chip_events.specs.Crashes.{Acknowledged, SurvivesCrashes, KeepsAcks};
ghost use Rattle.chip_events.specs.Openings.{Opens};
ghost use Rattle.chip_events.specs.Makings.{MakesSo};

use chip_slots::ChipDisk;
use chip_slots::laws::trust_never_goes_back;
use chip_verify::laws::later_never_goes_back;
use signature_provider::SignatureProvider;

/// Before a run a chip has no act, and reads as no state: that is true of a disk of which no image reads as one.
pub fn a_blank_disk_is_told<D: ChipDisk>(disk: &D)
    ensures { IsBlank (D.told disk.now (D.moment disk.now)) →
        IsChipOf D.ChipDisk disk.now (D.moment disk.now) (first_of D.ChipDisk disk.now) }
{
    let _ = disk;
}

/// An opening and the showing of certificates after it are one event, with nothing done on the disk between them.
pub fn an_opening_and_a_showing_are_one<D: ChipDisk, P: SignatureProvider>(disk: &D, provider: &P)
    ensures { (first mid last : D) (p p' : P) (imports imports' : ImportCount) (acks acks' : List Ack) (o o' : ChipValue)
        (certs : List (List ℕ)) (result : Result Shown NoMemory) →
        OpensTo D.ChipDisk first mid imports.count (Ok o) →
        HandTurn D.ChipDisk P.SignatureProvider mid last p p' imports imports' acks acks' o o' (WereTaken result)
        (λ w left. ShowsAll imports.chip w certs result left) →
        ProvidedTurn D.ChipDisk P.SignatureProvider first last p p' imports imports' acks acks'
        (λ s s'. Presents imports.chip certs s result s') }
{
    let _ = disk;
    let _ = provider;
}

/// Whatever a crash leaves at a moment reads as after a prefix of the acts, which holds what was made, acknowledged or read
/// by then. No date falls behind what an opening has read, and no point that was replaced since returns.
pub fn chips_survive_crashes()
    ensures crash { (chip : ℕ) (told : ℕ → Standing) (size calls faults first : ℕ) (c : ChipTold) (acks : List Ack) →
        IsChipAt told size calls faults first c → CrashLeavesAPrefix chip told first calls c.acts acks }
    ensures openings { (chip : ℕ) (told : ℕ → Standing) (size calls faults first : ℕ) (c : ChipTold) →
        IsChipAt told size calls faults first c → OpeningsRead chip told first calls c.acts }
    ensures falls { (chip : ℕ) (told : ℕ → Standing) (size calls faults first : ℕ) (c : ChipTold) →
        IsChipAt told size calls faults first c → NeverFalls chip told first calls c.acts }
    ensures returns { (chip : ℕ) (told : ℕ → Standing) (size calls faults first : ℕ) (c : ChipTold) →
        IsChipAt told size calls faults first c → NeverReturns chip told first calls c.acts }
    ensures survive { (chip : ℕ) (told : ℕ → Standing) (size calls faults first : ℕ) (c : ChipTold) (acks : List Ack) →
        IsChipAt told size calls faults first c → Acknowledged chip c.acts acks →
        SurvivesCrashes chip told first calls c.acts acks }
{
    trust_never_goes_back();
    later_never_goes_back();
}

/// With the acknowledgements that an event adds, each one of a chip stays of one of its acts, and each import that was
/// answered Ok has one. An opening and a making add none.
pub fn events_keep_acknowledgements()
    ensures opens { (chip : ℕ) (c c' : ChipTold) (read : Result (Trust × ℕ) ChipRefusal) (acks : List Ack) →
        Opens c read c' → KeepsAcks chip c.acts c'.acts acks acks }
    ensures makes { (chip : ℕ) (root : Result Cert CvcRefusal) (day : ℕ) (c c' : ChipTold) (answer : MakeAnswer)
        (acks : List Ack) → MakesSo root day c answer c' → KeepsAcks chip c.acts c'.acts acks acks }
    ensures imports { (chip : ℕ) (bytes : List ℕ) (s s' : ChipPart) (result : Result ImportAnswer NoMemory) →
        ImportsOne chip bytes s result s' → KeepsAcks chip s.chip.acts s'.chip.acts s.acks s'.acks }
    ensures presents { (chip : ℕ) (certs : List (List ℕ)) (s s' : ChipPart) (result : Result Shown NoMemory) →
        Presents chip certs s result s' → KeepsAcks chip s.chip.acts s'.chip.acts s.acks s'.acks }
{}

/// An import that was answered, and newly took its bytes, was asked for in its event: the provider said yes to the signature
/// of the certificate that they are. An act that a reading of the slots found or lost is none of these.
pub fn what_was_taken_was_asked()
    ensures opens { (c c' : ChipTold) (read : Result (Trust × ℕ) ChipRefusal) (verdicts : List Verdict) →
        Opens c read c' → TakesAsked c.acts c'.acts verdicts verdicts }
    ensures makes { (root : Result Cert CvcRefusal) (day : ℕ) (c c' : ChipTold) (answer : MakeAnswer)
        (verdicts : List Verdict) → MakesSo root day c answer c' → TakesAsked c.acts c'.acts verdicts verdicts }
    ensures imports { (chip : ℕ) (bytes : List ℕ) (s s' : ChipPart) (result : Result ImportAnswer NoMemory) →
        ImportsOne chip bytes s result s' → TakesAsked s.chip.acts s'.chip.acts s.verdicts s'.verdicts }
    ensures presents { (chip : ℕ) (certs : List (List ℕ)) (s s' : ChipPart) (result : Result Shown NoMemory) →
        Presents chip certs s result s' → TakesAsked s.chip.acts s'.chip.acts s.verdicts s'.verdicts }
{}
