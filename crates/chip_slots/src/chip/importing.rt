// A certificate is imported.
ghost use Rattle.std.specs.Prelude.{◌≡◌, ◌≢◌, ◌≤◌, ◌+◌, Some, Err, OnOk, OnErr, true, false};
ghost use Rattle.eac_base.specs.Causes.{HasCause, Rose};
ghost use Rattle.cvc_grammar.specs.Views.{seen_cert};
ghost use Rattle.chip_verify.specs.Views.{IsView};
ghost use Rattle.chip_slots.specs.Calls.{DeviceCalls};
ghost use Rattle.chip_slots.specs.Image.{is_memory};
ghost use Rattle.chip_slots.specs.Providers.{IsOnlyAsked};
ghost use Rattle.chip_slots.specs.Ready.{EachImage, ReadsEither, IsStable};
ghost use Rattle.chip_slots.specs.Chips.{read_as, in_state, broken, IsAsked, Asks, Moves, Follows, ImportsCert};
ghost use Rattle.chip_slots.specs.Chips.{Imports};
ghost use Rattle.chip_slots.specs.declared.answers.ChipRefusal.TheVariants as refusal;

use crate::chip::storing::store_state;
use crate::{Chip, ChipDisk, ChipRefusal};
use chip_verify::{ChipState, Imported, Judged, Session, judge};
use cvc_grammar::{CertView, view_cert};
use eac_base::Failed;
use signature_provider::SignatureProvider;

impl Chip {
    // Writes the state, and moves to it once it is stable.
    fn change<D: ChipDisk>(
        &mut self,
        disk: &mut D,
        state: ChipState,
        session: Session,
        generation: u64,
    ) -> Result<(), Failed>
        requires spare { 7 ≤ D.spare disk.old }
        requires next { generation ≡ self.old.generation + 1 }
        ensures ok { OnOk result (self.new ≡ in_state self.old state session) }
        ensures err { OnErr result (self.new ≡ broken self.old) }
        ensures images { D.tells disk.old → IsStable (read_as self.old) (D.told disk.old (D.moment disk.old)) →
            EachImage (ReadsEither (read_as self.old) (Some (state, self.old.generation + 1)))
            (D.told disk.old) (D.told disk.new) (D.moment disk.old) (D.moment disk.new) }
        ensures done { OnOk result (D.tells disk.old → IsStable (read_as self.old)
            (D.told disk.old (D.moment disk.old)) →
            IsStable (Some (state, self.old.generation + 1)) (D.told disk.new (D.moment disk.new))) }
        ensures calls { DeviceCalls D.ChipDisk 7 disk.old disk.new }
        ensures cause { is_memory (D.size disk.old) ≡ true → HasCause (D.faults disk.old) (D.faults disk.new) result }
        ensures quiet { OnOk result (D.faults disk.new ≡ D.faults disk.old) }
    {
        match store_state(disk, &state, generation) {
            Err(failed) => {
                self.session = Session::new();
                self.needs_opening = true;
                Err(failed)
            }
            Ok(()) => {
                self.state = state;
                self.session = session;
                self.generation = generation;
                self.needs_opening = false;
                Ok(())
            }
        }
    }

    // What follows from a certificate that is taken. It is written where it is another state.
    fn move_to<D: ChipDisk>(
        &mut self,
        disk: &mut D,
        state: ChipState,
        session: Session,
        what: Imported,
    ) -> Result<Imported, ChipRefusal>
        requires spare { 7 ≤ D.spare disk.old }
        requires ready { self.old.needs_opening ≡ false }
        ensures moves { Moves (D.tells disk.old) (D.told disk.old) (D.told disk.new) (D.moment disk.old)
            (D.moment disk.new)
            self.old state session what result self.new }
        ensures untouched { result ≢ Err refusal.DiskFault → self.new.generation ≡ self.old.generation →
            disk.new ≡ disk.old }
        ensures cause { result ≡ Err refusal.DiskFault → is_memory (D.size disk.old) ≡ true →
            Rose (D.faults disk.old) (D.faults disk.new) }
        ensures quiet { result ≢ Err refusal.DiskFault → D.faults disk.new ≡ D.faults disk.old }
        ensures calls { DeviceCalls D.ChipDisk 7 disk.old disk.new }
    {
        if self.state.is(&state) {
            self.session = session;
            return Ok(what);
        }
        match self.generation.checked_add(1) {
            None => Err(ChipRefusal::Worn),
            Some(generation) => match self.change(disk, state, session, generation) {
                Err(_) => Err(ChipRefusal::DiskFault),
                Ok(()) => Ok(what),
            },
        }
    }

    fn follow<D: ChipDisk>(&mut self, disk: &mut D, judged: Judged) -> Result<Imported, ChipRefusal>
        requires spare { 7 ≤ D.spare disk.old }
        requires ready { self.old.needs_opening ≡ false }
        ensures follows { Follows (D.tells disk.old) (D.told disk.old) (D.told disk.new) (D.moment disk.old)
            (D.moment disk.new)
            self.old judged result self.new }
        ensures untouched { result ≢ Err refusal.DiskFault → self.new.generation ≡ self.old.generation →
            disk.new ≡ disk.old }
        ensures cause { result ≡ Err refusal.DiskFault → is_memory (D.size disk.old) ≡ true →
            Rose (D.faults disk.old) (D.faults disk.new) }
        ensures quiet { result ≢ Err refusal.DiskFault → D.faults disk.new ≡ D.faults disk.old }
        ensures calls { DeviceCalls D.ChipDisk 7 disk.old disk.new }
    {
        match judged {
            Judged::Held => Ok(Imported::Held),
            Judged::Refused(k) => Err(ChipRefusal::Refused(k)),
            Judged::Next {
                state,
                session,
                what,
            } => self.move_to(disk, state, session, what),
        }
    }

    fn take<D: ChipDisk, P: SignatureProvider>(
        &mut self,
        disk: &mut D,
        provider: &mut P,
        cert: &CertView,
    ) -> Result<Imported, ChipRefusal>
        requires view { IsView cert.now }
        requires spare { 7 ≤ D.spare disk.old }
        requires ready { self.old.needs_opening ≡ false }
        ensures imports { ImportsCert (D.tells disk.old) (D.told disk.old) (D.told disk.new) (D.moment disk.old)
            (D.moment disk.new)
            (P.says provider.old) self.old (seen_cert cert.now) result self.new }
        ensures unasked { (IsAsked self.old (seen_cert cert.now) → ⊥) → provider.new ≡ provider.old }
        ensures untouched { result ≢ Err refusal.DiskFault → self.new.generation ≡ self.old.generation →
            disk.new ≡ disk.old }
        ensures cause { result ≡ Err refusal.DiskFault → is_memory (D.size disk.old) ≡ true →
            Rose (D.faults disk.old) (D.faults disk.new) }
        ensures quiet { result ≢ Err refusal.DiskFault → D.faults disk.new ≡ D.faults disk.old }
        ensures unheard { result ≡ Err refusal.ProviderFault → Rose (P.faults provider.old) (P.faults provider.new) }
        ensures heard { result ≢ Err refusal.ProviderFault → P.faults provider.new ≡ P.faults provider.old }
        ensures provider { IsOnlyAsked P.SignatureProvider provider.old provider.new }
        ensures calls { DeviceCalls D.ChipDisk 7 disk.old disk.new }
    {
        match judge(&self.state, &self.session, cert, provider) {
            Err(_) => Err(ChipRefusal::ProviderFault),
            Ok(judged) => self.follow(disk, judged),
        }
    }

    /// Imports a certificate: judges it by the chip's rules, and stores what follows where the state changes.
    ///
    /// It answers Ok once the new state is stable: each image before that reads as the old or the new state, and each
    /// one from then on as the new one. The generation is greater by one exactly where the state changed. Where it
    /// didn't, the disk isn't touched.
    ///
    /// # Errors
    ///
    /// In this order: `NeedsOpen` exactly where an earlier import of this chip answered `DiskFault`; `Syntax`;
    /// `Refused` by a row of the table; `ProviderFault` only where the provider has counted a failure; `Refused` for
    /// the signature; `Worn` exactly where the state would change and the generation is the last one; `DiskFault` only
    /// where the disk has counted a failure, or its length is no memory's, so that the chip wasn't opened on it. After
    /// `DiskFault` the session is empty, each image reads as the old or the new state, and the chip has to be opened
    /// anew. After each other refusal nothing has changed.
    ///
    /// The provider isn't asked unless the chip is ready, the bytes are a certificate, and no row of the table comes
    /// before the signature; then it is as it was.
    pub fn import<D: ChipDisk, P: SignatureProvider>(
        &mut self,
        disk: &mut D,
        provider: &mut P,
        bytes: &[u8],
    ) -> Result<Imported, ChipRefusal>
        requires spare { 32 ≤ D.spare disk.old }
        ensures answer { Imports (D.tells disk.old) (D.told disk.old) (D.told disk.new) (D.moment disk.old)
            (D.moment disk.new)
            (P.says provider.old) self.old bytes.now result self.new }
        ensures unasked { (Asks self.old bytes.now → ⊥) → provider.new ≡ provider.old }
        ensures untouched { result ≢ Err refusal.DiskFault → self.new.generation ≡ self.old.generation →
            disk.new ≡ disk.old }
        ensures cause { result ≡ Err refusal.DiskFault → is_memory (D.size disk.old) ≡ true →
            Rose (D.faults disk.old) (D.faults disk.new) }
        ensures quiet { result ≢ Err refusal.DiskFault → D.faults disk.new ≡ D.faults disk.old }
        ensures unheard { result ≡ Err refusal.ProviderFault → Rose (P.faults provider.old) (P.faults provider.new) }
        ensures heard { result ≢ Err refusal.ProviderFault → P.faults provider.new ≡ P.faults provider.old }
        ensures provider { IsOnlyAsked P.SignatureProvider provider.old provider.new }
        ensures calls { DeviceCalls D.ChipDisk 7 disk.old disk.new }
    {
        if self.needs_opening {
            return Err(ChipRefusal::NeedsOpen);
        }
        match view_cert(bytes) {
            Err(refusal) => Err(ChipRefusal::Syntax(refusal)),
            Ok(cert) => self.take(disk, provider, &cert),
        }
    }
}
