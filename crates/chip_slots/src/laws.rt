// What holds of memories and their images. Each law is the contract of a function that does nothing.
ghost use Rattle.std.specs.Prelude.{◌≡◌, ◌⊎◌, ◌*◌, ◌^◌, ◌<◌, ◌≤◌, ◌%◌, ◌==◌, ◌∷◌, ◌++◌, [], ℕ, List, Bool, false, Some};
ghost use Rattle.std.specs.Prelude.{None, Ok, Err, IsTrue, option_map};
ghost use Rattle.std.specs.declared.result.Result.{Result};
ghost use Rattle.cvc_grammar.specs.ReadingOrder.{read_cert};
ghost use Rattle.signature_provider.specs.Provider.{Says};
ghost use Rattle.chip_verify.specs.declared.answers.Imported.{Imported};
ghost use Rattle.chip_verify.specs.declared.trust_point.TrustPoint.{TrustPoint};
ghost use Rattle.chip_verify.specs.Trust.{Trust, IsTrust, points};
ghost use Rattle.chip_verify.specs.Session.{SessionValue};
ghost use Rattle.chip_verify.specs.Later.{Later, IsAmong};
ghost use Rattle.chip_slots.specs.declared.answers.ChipRefusal.{ChipRefusal};
ghost use Rattle.chip_slots.specs.declared.answers.ChipRefusal.TheVariants as refusal;
ghost use Rattle.chip_slots.specs.Slot.{is_kept_trust, record_text, record_of};
ghost use Rattle.chip_slots.specs.Crash.{Standing, Crash, Writes, IsClean};
ghost use Rattle.chip_slots.specs.Image.{Reading, reads, trust_read};
ghost use Rattle.chip_slots.specs.Ready.{IsReady, IsMore, EachImage, ReadsEither, IsStable};
ghost use Rattle.chip_slots.specs.Found.{IsLookedAt};
ghost use Rattle.chip_slots.specs.Chips.{ChipValue, IsOpened, Opens, Imports, IsFirstWritten};
ghost use Rattle.chip_slots.specs.Outcomes.{Outcome};
ghost use Rattle.chip_slots.specs.Runs.{IsBlank, StandsFor, IsAnswer, AreSettledBy};
ghost use Rattle.chip_slots.specs.Acts.{Act, Deed, Made, Opened, Given, Answered, Found, Lost, Fits, does, after};
ghost use Rattle.chip_slots.specs.Acts.{trust_of, NoMaking, IsSure, IsTaken};
ghost use Rattle.chip_slots.specs.ActsOf.{verdict_of, IsActOf};
ghost use Rattle.chip_slots.specs.Moments.{MayRead, Kept, Open, act};

use crate::ChipDisk;
use chip_verify::laws::{each_step_is_later, later_never_goes_back};

/// What is written of a state and its generation is read in the slot of that generation, whatever stands behind it.
pub fn records_are_read()
    ensures { (slots slot : ℕ) (t : Trust) (generation : ℕ) (rest : List ℕ) → IsTrue (is_kept_trust t) →
        generation < 2 ^ 64 → IsTrue (generation % slots == slot) →
        record_of slots slot (record_text t generation ++ rest) ≡ Some (t, generation) }
{}

/// A gate that is opened by a write of its own leaves the old state or the new one, whatever a crash does.
pub fn a_gate_opens_by_itself()
    ensures { (slot : ℕ) (old : Reading) (y : Trust × ℕ) (before s : Standing) (image : List ℕ) (ok : Bool) →
        IsReady slot old y before → IsMore old y → Writes (8192 * slot) (165 ∷ []) ok before s → Crash s image →
        (reads image ≡ old) ⊎ (reads image ≡ Some y) }
{}

/// What an image may be read as fits the acts that were taken by then: it is the trust after all of them but some of
/// the newest, of which none was sure by then.
pub fn images_fit()
    ensures { (acts : List Act) (m : ℕ) (image : List ℕ) → MayRead acts m (trust_read image) → Fits acts m image }
{}

/// An import is an act: what the act does to the chip stands in it, or is left open by a device failure.
pub fn imports_are_acts<D: ChipDisk>(disk: &D)
    ensures { (past told : ℕ → Standing) (from to : ℕ) (says : Says) (c c' : ChipValue)
        (bytes : List ℕ) (result : Result Imported ChipRefusal) →
        Imports (D.tells disk.now) past told from to says c bytes result c' →
        IsActOf (D.tells disk.now) past told from to c result
        (does (Given bytes (verdict_of says c bytes)) (Some (c.state, c.session))) c' }
{
    let _ = disk;
}

/// Every case of an import on a chip that is ready: the answer that is due by the rules and the verdict, what moved,
/// and what the images read as.
pub fn imports_come_out<D: ChipDisk>(disk: &D)
    ensures { (past told : ℕ → Standing) (from to : ℕ) (says : Says) (c c' : ChipValue)
        (bytes : List ℕ) (result : Result Imported ChipRefusal) →
        c.needs_opening ≡ false → Imports (D.tells disk.now) past told from to says c bytes result c' →
        Outcome (D.tells disk.now) past told from to says c c' (read_cert bytes) result }
{
    let _ = disk;
}

// ---- from call to call

/// A chip has no act at first, where no image reads as a state.
pub fn a_run_begins()
    ensures { (told : ℕ → Standing) (calls : ℕ) → IsBlank (told calls) → Kept told calls calls [] [] }
{}

/// A run of acts goes on with one whose images read as before it or after it, and at last as after it. The act may have
/// begun earlier, with a reading.
pub fn an_answered_act_is_kept()
    ensures { (told told' : ℕ → Standing) (first begun n0 n1 : ℕ) (acts taken : List Act)
        (deed : Deed) (old new : Reading) →
        Kept told first n0 acts taken → begun ≤ n0 →
        option_map (λ x. x.0) old ≡ trust_of (after taken) →
        option_map (λ x. x.0) new ≡ trust_of (does deed (after taken)) →
        EachImage (ReadsEither old new) told told' n0 n1 → IsStable new (told' n1) →
        Kept told' first n1 (act deed begun n1 Answered ∷ acts) (act deed begun n1 Answered ∷ taken) }
{}

/// An act that a device failure ended is left open.
pub fn a_failed_act_is_left_open()
    ensures { (told told' : ℕ → Standing) (first begun n0 n1 : ℕ) (acts taken : List Act)
        (deed : Deed) (old new : Reading) →
        Kept told first n0 acts taken → begun ≤ n0 →
        option_map (λ x. x.0) old ≡ trust_of (after taken) →
        option_map (λ x. x.0) new ≡ trust_of (does deed (after taken)) →
        EachImage (ReadsEither old new) told told' n0 n1 → Open told' first n1 acts taken deed begun n1 }
{}

/// A memory that is only read keeps a run of acts as it is. Where it was read whole, an act that was left open is
/// settled.
pub fn readings_settle_acts()
    ensures kept { (told told' : ℕ → Standing) (first n1 n2 : ℕ) (acts taken : List Act) → IsLookedAt told told' n1 n2 →
        Kept told first n1 acts taken → Kept told' first n2 acts taken }
    ensures left { (told told' : ℕ → Standing) (first n1 n2 : ℕ) (acts taken : List Act) → IsLookedAt told told' n1 n2 →
        (deed : Deed) (n0 to : ℕ) →
        Open told first n1 acts taken deed n0 to → Open told' first n2 acts taken deed n0 to }
    ensures settled { (told told' : ℕ → Standing) (first n1 n2 : ℕ) (acts taken : List Act) →
        IsLookedAt told told' n1 n2 → (deed : Deed) (n0 to : ℕ) →
        Open told first n1 acts taken deed n0 to → n1 < n2 → IsClean (told' n2) →
        Kept told' first n2 (act deed n0 to (Found n2) ∷ acts) (act deed n0 to (Found n2) ∷ taken)
        ⊎ Kept told' first n2 (act deed n0 to (Lost n2) ∷ acts) taken }
{}

/// An opening is an act, from its own start on: it empties the session and keeps what the memory reads as.
pub fn an_opening_is_an_act()
    ensures { (told : ℕ → Standing) (first n0 n1 : ℕ) (acts taken : List Act) → Kept told first n1 acts taken →
        n0 ≤ n1 →
        Kept told first n1 (act Opened n0 n1 Answered ∷ acts) (act Opened n0 n1 Answered ∷ taken) }
{}

/// A chip that was opened stands for its disk. The opening settles an act that was left open before it.
pub fn an_opened_chip_stands()
    ensures kept { (told told' : ℕ → Standing) (first n0 n1 : ℕ) (acts taken : List Act) (c : ChipValue) →
        IsOpened c → Opens (Ok c) (reads (told n0).bytes) (told' n1) → IsLookedAt told told' n0 n1 →
        Kept told first n0 acts taken →
        StandsFor told' first n1 (act Opened n0 n1 Answered ∷ acts) (act Opened n0 n1 Answered ∷ taken) c }
    ensures settled { (told told' : ℕ → Standing) (first n0 n1 : ℕ) (acts taken : List Act) (c : ChipValue) →
        IsOpened c → Opens (Ok c) (reads (told n0).bytes) (told' n1) → IsLookedAt told told' n0 n1 →
        (deed : Deed) (from to : ℕ) → n0 < n1 → Open told first n0 acts taken deed from to →
        StandsFor told' first n1 (act Opened n0 n1 Answered ∷ act deed from to (Found n1) ∷ acts)
        (act Opened n0 n1 Answered ∷ act deed from to (Found n1) ∷ taken) c
        ⊎ StandsFor told' first n1 (act Opened n0 n1 Answered ∷ act deed from to (Lost n1) ∷ acts)
        (act Opened n0 n1 Answered ∷ taken) c }
{}

/// A chip that stands for its disk does so after an import that was answered by Ok or by a refusal of the certificate,
/// with that import as an act. A device failure leaves the act open. Every other answer leaves the chip as it was, and
/// is no act.
pub fn imported_chips_stand<D: ChipDisk>(disk: &D)
    ensures answered { (told told' : ℕ → Standing) (first n0 n1 : ℕ) (acts taken : List Act) (says : Says)
        (c c' : ChipValue) (bytes : List ℕ)
        (result : Result Imported ChipRefusal) → D.tells disk.now → StandsFor told first n0 acts taken c →
        Imports (D.tells disk.now) told told' n0 n1 says c bytes result c' → IsAnswer result →
        (c' ≡ c → (told' ≡ told) × (n1 ≡ n0)) →
        StandsFor told' first n1 (act (Given bytes (verdict_of says c bytes)) n0 n1 Answered ∷ acts)
        (act (Given bytes (verdict_of says c bytes)) n0 n1 Answered ∷ taken) c' }
    ensures left { (told told' : ℕ → Standing) (first n0 n1 : ℕ) (acts taken : List Act) (says : Says)
        (c c' : ChipValue) (bytes : List ℕ) →
        D.tells disk.now → StandsFor told first n0 acts taken c →
        Imports (D.tells disk.now) told told' n0 n1 says c bytes (Err refusal.DiskFault) c' →
        Open told' first n1 acts taken (Given bytes (verdict_of says c bytes)) n0 n1 }
{
    let _ = disk;
}

/// A making on a memory that was found to read as none is an act from the call's start on, which is kept once it is
/// answered, and left open by a device failure. What was left open before it was settled by its reading.
pub fn a_making_is_an_act()
    ensures kept { (told told' : ℕ → Standing) (first n0 n1 : ℕ) (acts taken : List Act) (t : Trust)
        (f : IsFirstWritten t told told' n0 n1) →
        Kept f.mid first f.found acts taken → trust_of (after taken) ≡ None → IsStable (Some (t, 0)) (told' n1) →
        Kept told' first n1 (act (Made t) n0 n1 Answered ∷ acts) (act (Made t) n0 n1 Answered ∷ taken) }
    ensures left { (told told' : ℕ → Standing) (first n0 n1 : ℕ) (acts taken : List Act) (t : Trust)
        (f : IsFirstWritten t told told' n0 n1) →
        Kept f.mid first f.found acts taken → trust_of (after taken) ≡ None →
        Open told' first n1 acts taken (Made t) n0 n1 }
{}

// ---- over whole runs

/// Once each act is settled, one list alone is taken.
pub fn one_list_is_taken()
    ensures { (acts : List Act) (n m : ℕ) (taken other : List Act) → n ≤ m → AreSettledBy n acts →
        IsTaken acts m taken → IsTaken acts m other → taken ≡ other }
{}

/// After more imports and openings a chip's trust is a later one, and so is what each image then reads as.
pub fn trust_never_goes_back()
    ensures acts { (more acts : List Act) → NoMaking more → (t : Trust) (s : SessionValue) → after acts ≡ Some (t, s) →
        IsTrust t →
        (ts : Trust × SessionValue) × (after (more ++ acts) ≡ Some ts) × Later t ts.0 × IsTrust ts.0 }
    ensures images { (a : Act) (older below : List Act) (m : ℕ) → IsSure a m →
        ((t : List Act) → IsTaken older m t → t ≡ below) →
        (newer : List Act) (image : List ℕ) (t : Trust) (s : SessionValue) →
        NoMaking newer → after (a ∷ below) ≡ Some (t, s) → IsTrust t →
        MayRead (newer ++ a ∷ older) m (trust_read image) →
        (t' : Trust) × (trust_read image ≡ Some t') × Later t t' }
{
    each_step_is_later();
    later_never_goes_back();
}

/// Each image at the moment at which an opening returned, or at a later one, reads as a trust that is later than what
/// the opening left.
pub fn openings_never_go_back()
    ensures { (newer older below : List Act) (n0 n m : ℕ) (image : List ℕ) (t : Trust) (s : SessionValue) →
        NoMaking newer →
        AreSettledBy n older → n0 ≤ n → n ≤ m → IsTaken older m below →
        after (act Opened n0 n Answered ∷ below) ≡ Some (t, s) →
        IsTrust t → MayRead (newer ++ act Opened n0 n Answered ∷ older) m (trust_read image) →
        (t' : Trust) × (trust_read image ≡ Some t') × Later t t' }
{
    each_step_is_later();
    later_never_goes_back();
}

/// A trust point that was replaced never comes back.
pub fn a_replaced_point_never_returns()
    ensures { (most more acts : List Act) → NoMaking most → NoMaking more →
        (t u v : Trust) (s s' s'' : SessionValue) (p : TrustPoint) →
        after acts ≡ Some (t, s) → after (more ++ acts) ≡ Some (u, s') →
        after (most ++ (more ++ acts)) ≡ Some (v, s'') → IsTrust t →
        IsAmong p (points t) → (IsAmong p (points u) → ⊥) → IsAmong p (points v) → ⊥ }
{
    trust_never_goes_back();
    later_never_goes_back();
}
