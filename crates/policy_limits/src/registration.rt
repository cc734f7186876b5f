// Who may be given certificates, by which desk, and within which limits.
ghost use Rattle.std.specs.Prelude.{◌≡◌, List, [], ◌∷◌, ◌++◌, ◌==◌, ◌&&◌, length, slice_get, find, OnOk, OnErr};
ghost use Rattle.std.specs.Option.{option_copied};
ghost use Rattle.std.specs.Str.{bytes_eq};

use chat_rights::{Rights, Role};
use eac_base::NoMemory;
use holder_reference::{Holder, Reference};
use std::alloc::Global;
use std::marker::Model;

/// Whose signature a holder's first request needs.
#[derive(Clone, Copy, Debug, PartialEq, Eq)]
pub enum First {
    /// No one's beside its own.
    Bare,
    /// That of the holder's home authority, by this reference of the authority's founding certificate.
    Home(Reference),
}

/// A registration of a holder at an issuing desk.
#[derive(Clone, Copy, Debug, PartialEq, Eq)]
pub struct Registration {
    /// The number of the party that issues.
    pub desk: u32,
    pub holder: Holder,
    /// What the holder's certificates say that it is.
    pub role: Role,
    /// The most rights that they grant.
    pub rights: Rights,
    /// The most days that they are valid for.
    pub days: u32,
    /// The most of them that are valid at one time.
    pub live_limit: u32,
    pub first: First,
    /// Whether the desk refuses the holder for now.
    pub suspended: bool,
}

/// A list of registrations.
#[derive(Debug, Drop)]
pub struct RegistrationList {
    registrations: Vec<Registration>,
}

impl Model for RegistrationList {
    ghost use Rattle.std.specs.Prelude.{List};
    ghost use Rattle.policy_limits.specs.declared.registration.Registration.{Registration};

    ghost Value = { List Registration };

    ghost view = { λ l. l.registrations.items };
}

impl RegistrationList {
    /// No registrations.
    pub fn new(alloc: Global) -> RegistrationList
        ensures { result ≡ [] }
    {
        RegistrationList {
            registrations: Vec::new(alloc),
        }
    }

    /// Appends the registration, or nothing where memory is wanting.
    pub fn push(&mut self, registration: Registration) -> Result<(), NoMemory>
        ensures pushed { OnOk result (self.new ≡ self.old ++ registration ∷ []) }
        ensures kept { OnErr result (self.new ≡ self.old) }
    {
        // taken apart and put together again: as a whole the check doesn't see what its `first` is made of
        let first = registration.first;
        self.registrations.push(Registration {
            first,
            ..registration
        })?;
        Ok(())
    }

    /// The number of registrations.
    pub fn len(&self) -> usize
        ensures { result ≡ length self.now }
    {
        self.registrations.len()
    }

    /// The registration at a place from 0, and none from the length on.
    pub fn get(&self, at: usize) -> Option<&Registration>
        ensures { option_copied result ≡ slice_get self.now at }
    {
        self.registrations.get(at)
    }

    /// The first registration of this holder at this desk.
    pub(crate) fn at_desk(&self, desk: u32, holder: &Holder) -> Option<&Registration>
        ensures { option_copied result ≡ find (λ g. (g.desk == desk) && bytes_eq g.holder holder.now) self.now }
    {
        self.registrations.iter().find(|registration| registration.desk == desk
            && registration.holder.is(holder))
    }
}
