// The registrations of each desk by themselves, so that a look-up goes over one desk's alone.
ghost use Rattle.std.specs.Prelude.{◌≡◌, List, [], ◌∷◌, ◌++◌, ◌==◌, ◌&&◌, find, IfSome};
ghost use Rattle.std.specs.Option.{option_copied};
ghost use Rattle.std.specs.Str.{bytes_eq};
ghost use Rattle.policy_limits.specs.Desks.{AreAt};
ghost use Rattle.policy_limits.specs.declared.registration.Registration as said;

use crate::registration::{Registration, RegistrationList};
use holder_reference::Holder;
use std::alloc::Global;
use std::collections::BTreeMap;

/// The registrations of each desk, in their order.
#[derive(Debug, Drop)]
pub struct Desks {
    alloc: Global,
    lists: BTreeMap<u32, RegistrationList>,
}

impl Desks {
    /// No registrations.
    pub fn new(alloc: Global) -> Desks
        ensures { AreAt result.lists [] }
    {
        Desks {
            alloc,
            lists: BTreeMap::new(alloc),
        }
    }

    /// With one registration more; none where memory is wanting.
    fn with(mut self, registration: &Registration) -> Option<Desks>
        ensures { IfSome result (λ desks. (gs : List said.Registration)
            → AreAt self.lists gs → AreAt desks.lists (gs ++ registration.now ∷ [])) }
    {
        let mut list = match self.lists.remove(&registration.desk) {
            Some(list) => list,
            None => RegistrationList::new(self.alloc),
        };
        if list.push(*registration).is_err() {
            return None;
        }
        match self.lists.insert(registration.desk, list) {
            Ok(_) => Some(self),
            Err(_) => None,
        }
    }

    /// The first registration of this holder at this desk.
    pub fn at(&self, desk: u32, holder: &Holder) -> Option<&Registration>
        ensures { (gs : List said.Registration) → AreAt self.now.lists gs
            → option_copied result ≡ find (λ g. (g.desk == desk) && bytes_eq g.holder holder.now) gs }
    {
        match self.lists.get(&desk) {
            Some(list) => list.at_desk(desk, holder),
            None => None,
        }
    }
}

/// The same registrations with one more; none where memory is wanting now, or was before.
pub fn with_more(desks: Option<Desks>, registration: &Registration) -> Option<Desks>
    ensures { (gs : List said.Registration) → IfSome desks (λ d. AreAt d.lists gs)
        → IfSome result (λ d. AreAt d.lists (gs ++ registration.now ∷ [])) }
{
    match desks {
        Some(desks) => desks.with(registration),
        None => None,
    }
}
