// What was verified since a chip was opened.
ghost use Rattle.std.specs.Prelude.{◌≡◌, ◌↔◌, Some, None, bit_and, IfSome, IsSome};
ghost use Rattle.chip_verify.specs.Session as words;
ghost use Rattle.chip_verify.specs.Session.{IsBeside, no_session};
ghost use Rattle.chip_verify.specs.Grant.{GrantsOf, StandInAll};

use crate::ChipKey;
use chat_rights::{Rights, Template, meet};
use cv_dates::Day;
use holder_reference::Reference;
use std::marker::Model;

/// A verifier whose certificate was accepted.
#[derive(Debug, Drop)]
pub struct Verified {
    pub reference: Reference,
    pub template: Template,
    /// The expiration date.
    pub until: Day,
    pub key: ChipKey,
    /// The rights of the trust point that vouched for it.
    pub root: Rights,
}

/// The verifier that was accepted last, and the rights in the last terminal's certificate under it, seen as a
/// `SessionValue`. It has a terminal only beside a verifier.
#[derive(Debug, Drop)]
pub struct Session {
    pub verifier: Option<Verified>,
    pub terminal: Option<Rights>,
}

impl Model for Session {
    ghost use Rattle.chip_verify.specs.Session.{SessionValue, IsBeside};

    ghost Value = { SessionValue };

    ghost view = { λ s. record { verifier = s.verifier; terminal = s.terminal } };

    ghost invariant = { λ s. IsBeside s.verifier s.terminal };
}

impl Verified {
    /// The same verifier once more.
    pub fn copied(&self) -> Verified
        ensures { result ≡ self.now }
    {
        Verified {
            reference: self.reference,
            template: self.template,
            until: self.until,
            key: self.key.copied(),
            root: self.root,
        }
    }
}

fn copied_verifier(verifier: &Option<Verified>) -> Option<Verified>
    ensures { result ≡ verifier.now }
{
    match verifier {
        None => None,
        Some(verified) => Some(verified.copied()),
    }
}

// What all three grant.
fn rights_under(verifier: &Verified, terminal: Rights) -> Rights
    ensures number { result ≡ bit_and terminal (bit_and verifier.now.template.rights verifier.now.root) }
    ensures bits { StandInAll result verifier.now.root verifier.now.template.rights terminal }
{
    meet(terminal, meet(verifier.template.rights, verifier.root))
}

impl Session {
    /// Nothing was verified.
    pub fn new() -> Session
        ensures { result ≡ no_session }
    {
        Session {
            verifier: None,
            terminal: None,
        }
    }

    /// This verifier, and no terminal.
    pub(crate) fn under(verifier: Verified) -> Session
        ensures { result ≡ record { verifier = Some verifier; terminal = None } }
    {
        Session {
            verifier: Some(verifier),
            terminal: None,
        }
    }

    /// The same verifier, and a terminal with these rights.
    pub(crate) fn with(&self, terminal: Rights) -> Session
        requires { IsSome self.now.verifier }
        ensures { result ≡ record { verifier = self.now.verifier; terminal = Some terminal } }
    {
        Session {
            verifier: copied_verifier(&self.verifier),
            terminal: Some(terminal),
        }
    }

    /// The same session once more.
    pub fn copied(&self) -> Session
        ensures same { result ≡ self.now }
        ensures legal { IsBeside self.now.verifier self.now.terminal }
    {
        Session {
            verifier: copied_verifier(&self.verifier),
            terminal: self.terminal,
        }
    }

    /// The rights that a verified terminal has: those that stand in its certificate, in its verifier's and in the trust
    /// point that vouched for the verifier. `None` exactly where no terminal is verified.
    pub fn granted(&self) -> Option<Rights>
        ensures granted { result ≡ words.granted self.now }
        ensures verified { IsSome result ↔ IsSome self.now.terminal }
        ensures bits { IfSome result (λ rights. GrantsOf self.now.verifier self.now.terminal rights) }
    {
        match (&self.verifier, self.terminal) {
            (Some(verifier), Some(terminal)) => Some(rights_under(verifier, terminal)),
            _ => None,
        }
    }
}
