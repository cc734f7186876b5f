// The parties and the registrations of a run.
ghost use Rattle.std.specs.Prelude.{◌≡◌, [], OnOk, OnErr, IsTrue};
ghost use Rattle.std.specs.Option.{option_copied};
ghost use Rattle.policy_limits.specs.Setup as setups;
ghost use Rattle.policy_limits.specs.Setup.{IsSetup, setup_value};

use crate::desks::Desks;
use crate::party::{Party, PartyList};
use crate::registration::{Registration, RegistrationList};
use holder_reference::Holder;
use std::alloc::Global;
use std::marker::Model;

/// The parties and the registrations of a run, seen as a `SetupValue`.
///
/// Each has at most 1,000 parties, no two of one holder, and no two registrations of one holder at one desk. The days
/// of an authority and of a registration are within the limits of the role, and live limits are from 1 to 100.
#[derive(Debug, Drop)]
pub struct Setup {
    pub parties: PartyList,
    pub registrations: RegistrationList,
    // the same registrations by their desk, so that look-ups are fast; none where memory was wanting for them
    pub(crate) desks: Option<Desks>,
}

impl Model for Setup {
    ghost use Rattle.std.specs.Prelude.{IfSome};
    ghost use Rattle.policy_limits.specs.Desks.{AreAt};
    ghost use Rattle.policy_limits.specs.Setup.{SetupValue, IsSetup, setup_value};

    ghost Value = { SetupValue };

    ghost view = { λ s. setup_value s.parties s.registrations };

    ghost invariant = { λ s. IsSetup (setup_value s.parties s.registrations)
        × IfSome s.desks (λ desks. AreAt desks.lists s.registrations) };
}

impl Setup {
    /// No parties and no registrations.
    pub fn new(alloc: Global) -> Setup
        ensures { result ≡ setup_value [] [] }
    {
        Setup {
            parties: PartyList::new(alloc),
            registrations: RegistrationList::new(alloc),
            desks: Some(Desks::new(alloc)),
        }
    }

    /// The party of this number; `None` exactly from the number of parties on.
    pub fn party(&self, number: u32) -> Option<&Party>
        ensures found { option_copied result ≡ setups.party self.now number }
        ensures legal { IsSetup self.now }
    {
        self.parties.get(number as usize)
    }

    /// The number of the party of this holder; `None` exactly where there is none.
    pub fn number_of(&self, holder: &Holder) -> Option<u32>
        ensures found { result ≡ setups.number_of self.now holder.now }
        ensures legal { IsSetup self.now }
    {
        match self.parties.place_of(holder) {
            Some(place) => Some(place as u32),
            None => None,
        }
    }

    /// The registration of this holder at this desk; `None` exactly where there is none.
    pub fn registration(&self, desk: u32, holder: &Holder) -> Option<&Registration>
        ensures found { option_copied result ≡ setups.registration self.now desk holder.now }
        ensures legal { IsSetup self.now }
    {
        match &self.desks {
            Some(desks) => desks.at(desk, holder),
            None => self.registrations.at_desk(desk, holder),
        }
    }
}
