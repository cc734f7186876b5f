// The parties of a run.
ghost use Rattle.std.specs.Prelude.{◌≡◌, List, [], ◌∷◌, ◌++◌, length, slice_get, position, OnOk, OnErr};
ghost use Rattle.std.specs.Option.{option_copied};
ghost use Rattle.std.specs.Str.{bytes_eq};

use chat_rights::Rights;
use eac_base::NoMemory;
use holder_reference::Holder;
use signature_provider::FormName;
use std::alloc::Global;
use std::marker::Model;

/// What a party is.
#[derive(Clone, Copy, Debug, PartialEq, Eq)]
pub enum PartyKind {
    /// A country verifying certification authority. Its keys are of this form; its own certificates grant these rights
    /// and are valid for so many days.
    Cvca {
        form: FormName,
        rights: Rights,
        days: u32,
    },
    /// A document verifier.
    Dv,
    /// An inspection system.
    Terminal,
}

/// A party: who it is and what it is.
#[derive(Clone, Copy, Debug, PartialEq, Eq)]
pub struct Party {
    pub holder: Holder,
    pub kind: PartyKind,
}

/// A list of parties. A party's number is its place, from 0.
#[derive(Debug, Drop)]
pub struct PartyList {
    parties: Vec<Party>,
}

impl Model for PartyList {
    ghost use Rattle.std.specs.Prelude.{List};
    ghost use Rattle.policy_limits.specs.declared.party.Party.{Party};

    ghost Value = { List Party };

    ghost view = { λ l. l.parties.items };
}

impl PartyList {
    /// No parties.
    pub fn new(alloc: Global) -> PartyList
        ensures { result ≡ [] }
    {
        PartyList {
            parties: Vec::new(alloc),
        }
    }

    /// Appends the party, or nothing where memory is wanting.
    pub fn push(&mut self, party: Party) -> Result<(), NoMemory>
        ensures pushed { OnOk result (self.new ≡ self.old ++ party ∷ []) }
        ensures kept { OnErr result (self.new ≡ self.old) }
    {
        // taken apart and put together again: as a whole the check doesn't see what its kind is made of
        let Party { holder, kind } = party;
        self.parties.push(Party { holder, kind })?;
        Ok(())
    }

    /// The number of parties.
    pub fn len(&self) -> usize
        ensures { result ≡ length self.now }
    {
        self.parties.len()
    }

    /// The party at a place from 0, and none from the length on.
    pub fn get(&self, at: usize) -> Option<&Party>
        ensures { option_copied result ≡ slice_get self.now at }
    {
        self.parties.get(at)
    }

    /// The place of the first party of this holder.
    pub(crate) fn place_of(&self, holder: &Holder) -> Option<usize>
        ensures { result ≡ position (λ p. bytes_eq p.holder holder.now) self.now }
    {
        self.parties
            .iter()
            .position(|party| party.holder.is(holder))
    }
}
