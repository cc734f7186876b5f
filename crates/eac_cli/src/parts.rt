// Parties of events, by their holders and what they are.
ghost use Rattle.std.specs.Prelude.{◌≡◌};
ghost use Rattle.eac_cli.specs.Naming.{has_part, numbered};

use holder_reference::Holder;
use policy_limits::{PartyKind, Setup};

/// What a party has to be for its place in an event.
#[derive(Clone, Copy, Debug, PartialEq, Eq)]
pub enum Part {
    /// Any party.
    Any,
    /// A country authority.
    Authority,
    /// A document verifier.
    Verifier,
    /// An inspection system.
    InspectionSystem,
    /// An authority or a verifier.
    Issuer,
    /// A verifier or an inspection system.
    Holder,
}

fn has_part(part: Part, kind: &PartyKind) -> bool
    ensures { result ≡ has_part part kind.now }
{
    match kind {
        PartyKind::Cvca { .. } => match part {
            Part::Any | Part::Authority | Part::Issuer => true,
            Part::Verifier | Part::InspectionSystem | Part::Holder => false,
        },
        PartyKind::Dv => match part {
            Part::Any | Part::Verifier | Part::Issuer | Part::Holder => true,
            Part::Authority | Part::InspectionSystem => false,
        },
        PartyKind::Terminal => match part {
            Part::Any | Part::InspectionSystem | Part::Holder => true,
            Part::Authority | Part::Verifier | Part::Issuer => false,
        },
    }
}

/// The number of the party of this holder, where it can have this part.
pub fn numbered(part: Part, setup: &Setup, holder: &Holder) -> Option<u32>
    ensures { result ≡ numbered (has_part part) setup.now holder.now }
{
    let number = setup.number_of(holder)?;
    let party = setup.party(number)?;
    if has_part(part, &party.kind) {
        Some(number)
    } else {
        None
    }
}
