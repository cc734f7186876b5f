// The events that lines name, with the parties' numbers in a setup. Where a party isn't there, or can't have its part, or
// the chip isn't there, there is none.
ghost use Rattle.std.specs.Prelude.{◌≡◌};
ghost use Rattle.eac_cli.specs.Naming as naming;

use crate::named_event::NamedEvent;
use crate::parts::{Part, numbered};
use eac_base::Octets;
use eac_net::Event;
use holder_reference::Holder;
use policy_limits::Setup;

fn found_in(setup: &Setup, authority: &Holder) -> Option<Event>
    ensures { result ≡ naming.found_in setup.now authority.now }
{
    let authority = numbered(Part::Authority, setup, authority)?;
    Some(Event::Found { authority })
}

fn link_in(setup: &Setup, authority: &Holder) -> Option<Event>
    ensures { result ≡ naming.link_in setup.now authority.now }
{
    let authority = numbered(Part::Authority, setup, authority)?;
    Some(Event::Link { authority })
}

// No authority carries its certificate to itself.
fn trust_in(setup: &Setup, party: &Holder, authority: &Holder) -> Option<Event>
    ensures { result ≡ naming.trust_in setup.now party.now authority.now }
{
    let party = numbered(Part::Any, setup, party)?;
    let authority = numbered(Part::Authority, setup, authority)?;
    if party == authority {
        None
    } else {
        Some(Event::Trust { party, authority })
    }
}

// A verifier asks its root.
fn asked_by_verifier(setup: &Setup, holder: &Holder, authority: &Holder, root: u32) -> Option<Event>
    ensures { result ≡ naming.asked_by_verifier setup.now holder.now authority.now root }
{
    let holder = numbered(Part::Verifier, setup, holder)?;
    let authority = setup.number_of(authority)?;
    if authority == root {
        Some(Event::Apply {
            holder,
            authority,
            root,
        })
    } else {
        None
    }
}

// An inspection system asks a verifier.
fn asked_by_system(setup: &Setup, holder: &Holder, authority: &Holder, root: u32) -> Option<Event>
    ensures { result ≡ naming.asked_by_system setup.now holder.now authority.now root }
{
    let holder = numbered(Part::InspectionSystem, setup, holder)?;
    let authority = numbered(Part::Verifier, setup, authority)?;
    Some(Event::Apply {
        holder,
        authority,
        root,
    })
}

fn apply_in(setup: &Setup, holder: &Holder, authority: &Holder, root: &Holder) -> Option<Event>
    ensures { result ≡ naming.apply_in setup.now holder.now authority.now root.now }
{
    let root = numbered(Part::Authority, setup, root)?;
    match asked_by_verifier(setup, holder, authority, root) {
        Some(event) => Some(event),
        None => asked_by_system(setup, holder, authority, root),
    }
}

fn fetch_in(setup: &Setup, party: &Holder, desk: &Holder) -> Option<Event>
    ensures { result ≡ naming.fetch_in setup.now party.now desk.now }
{
    let party = numbered(Part::Holder, setup, party)?;
    let desk = numbered(Part::Issuer, setup, desk)?;
    Some(Event::Fetch { party, desk })
}

fn push_in(setup: &Setup, desk: &Holder, party: &Holder) -> Option<Event>
    ensures { result ≡ naming.push_in setup.now desk.now party.now }
{
    let desk = numbered(Part::Issuer, setup, desk)?;
    let party = numbered(Part::Holder, setup, party)?;
    Some(Event::Push { desk, party })
}

fn send_in(setup: &Setup, from: &Holder, to: &Holder, bytes: Octets) -> Option<Event>
    ensures { result ≡ naming.send_in setup.now from.now to.now bytes }
{
    let from = numbered(Part::Any, setup, from)?;
    let to = numbered(Part::Any, setup, to)?;
    Some(Event::Send { from, to, bytes })
}

fn make_in(setup: &Setup, chip: Option<u32>, authority: &Holder) -> Option<Event>
    ensures { result ≡ naming.make_in setup.now chip authority.now }
{
    let chip = chip?;
    let authority = numbered(Part::Authority, setup, authority)?;
    Some(Event::Make { chip, authority })
}

fn present_in(setup: &Setup, chip: Option<u32>, terminal: &Holder) -> Option<Event>
    ensures { result ≡ naming.present_in setup.now chip terminal.now }
{
    let chip = chip?;
    let terminal = numbered(Part::InspectionSystem, setup, terminal)?;
    Some(Event::Present { chip, terminal })
}

fn import_in(chip: Option<u32>, bytes: Octets) -> Option<Event>
    ensures { result ≡ naming.import_in chip bytes }
{
    let chip = chip?;
    Some(Event::Import { chip, bytes })
}

fn look_in(chip: Option<u32>) -> Option<Event>
    ensures { result ≡ naming.look_in chip }
{
    let chip = chip?;
    Some(Event::Look { chip })
}

/// The event of these parties and chips.
pub fn event_in(setup: &Setup, named: NamedEvent) -> Option<Event>
    ensures { result ≡ naming.event_in setup.now named }
{
    match named {
        NamedEvent::Day { day } => Some(Event::Day { day }),
        NamedEvent::Ask { reference, bytes } => Some(Event::Ask { reference, bytes }),
        NamedEvent::Found { authority } => found_in(setup, &authority),
        NamedEvent::Link { authority } => link_in(setup, &authority),
        NamedEvent::Trust { party, authority } => trust_in(setup, &party, &authority),
        NamedEvent::Apply {
            holder,
            authority,
            root,
        } => apply_in(setup, &holder, &authority, &root),
        NamedEvent::Fetch { party, desk } => fetch_in(setup, &party, &desk),
        NamedEvent::Push { desk, party } => push_in(setup, &desk, &party),
        NamedEvent::Send { from, to, bytes } => send_in(setup, &from, &to, bytes),
        NamedEvent::Deliver { packet } => Some(Event::Deliver { packet }),
        NamedEvent::Make { chip, authority } => make_in(setup, chip, &authority),
        NamedEvent::Present { chip, terminal } => present_in(setup, chip, &terminal),
        NamedEvent::Import { chip, bytes } => import_in(chip, bytes),
        NamedEvent::Look { chip } => look_in(chip),
    }
}
