// The chain that is due.
ghost use Rattle.std.specs.Prelude.{◌≡◌, ◌∷◌, ◌++◌, IfOk, OnOk, None, map, reverse, nat_lt, if◌then◌else◌, slice_get, option_to_list};
ghost use Rattle.std.specs.Option.{option_copied};
ghost use Rattle.terminal_desk.specs.Chain.{named, chain_of, HasDue, ChainFor};
ghost use Rattle.terminal_desk.specs.Walks.{FindsFirst, risen};

use crate::climbing::find_authority;
use crate::newest::find_newest;
use crate::places::Places;
use eac_base::{ByteLists, NoMemory};
use holder_reference::Reference;
use keeper::{Row, Rows, Settled};
use std::alloc::Global;
use std::error::Error;
use std::fmt;

/// Certificates, the highest first, each a list of bytes.
pub type Chain = ByteLists;

/// Why there is no chain.
#[derive(Clone, Copy, Debug, PartialEq, Eq)]
pub enum ChainRefusal {
    /// No settled own row leads up to one of the references.
    NoChain,
    /// Memory is wanting.
    NoMemory,
}

impl fmt::Display for ChainRefusal {
    fn fmt<W: fmt::Write>(&self, f: &mut fmt::Formatter<W>) -> fmt::Result {
        f.write_str(match self {
            ChainRefusal::NoChain => "no certificate leads up to a trusted reference",
            ChainRefusal::NoMemory => "memory is wanting",
        })
    }
}

impl Error for ChainRefusal {}

impl From<NoMemory> for ChainRefusal {
    ghost use Rattle.terminal_desk.specs.declared.chain.ChainRefusal.{ChainRefusal};

    ghost from_gives = { λ _ refusal. refusal ≡ ChainRefusal.NoMemory };

    fn from(_: NoMemory) -> Self {
        ChainRefusal::NoMemory
    }
}

// The certificate of the authority above, where there are steps left to go.
fn next_up<'a>(cas: &'a [Row], places: &Places, below: &Settled, left: usize) -> Option<&'a Settled>
    requires { FindsFirst cas.now places.now.places cas.now }
    ensures { option_copied result ≡ (if nat_lt 0 left then named cas.now below.now.issuer else None) }
{
    if 0 < left {
        Some(find_authority(cas, places, &below.issuer)?.settled)
    } else {
        None
    }
}

// The certificates from an own one up, of so many authorities.
fn copy_up(
    alloc: Global,
    cas: &[Row],
    places: &Places,
    own: &Settled,
    steps: usize,
) -> Result<Chain, NoMemory>
    requires { FindsFirst cas.now places.now.places cas.now }
    ensures { IfOk result (λ upward. upward ≡ map (λ s. s.certificate) (own.now ∷ risen cas.now steps own.now)) }
{
    let mut upward = ByteLists::new(alloc);
    upward.push(own.certificate.as_slice())?;
    let mut below = own;
    let mut left = steps;
    'up: while let Some(issuer) = next_up(cas, places, below, left) {
        upward.push(issuer.certificate.as_slice())?;
        below = issuer;
        left -= 1;
    }
    Ok(upward)
}

// Appends the certificate at a place.
fn push_at(chain: &mut Chain, upward: &Chain, at: usize) -> Result<(), NoMemory>
    ensures { OnOk result (chain.new ≡ chain.old ++ option_to_list (slice_get upward.now at)) }
{
    match upward.get(at) {
        Some(certificate) => chain.push(certificate),
        None => Ok(()),
    }
}

// The same, the highest first.
fn turn(alloc: Global, upward: &Chain) -> Result<Chain, NoMemory>
    ensures { IfOk result (λ chain. chain ≡ reverse upward.now) }
{
    let mut chain = ByteLists::new(alloc);
    let mut at = upward.len();
    'down: while 0 < at {
        at -= 1;
        push_at(&mut chain, upward, at)?;
    }
    Ok(chain)
}

// The chain of an own certificate that so many authorities stand above.
fn write(
    alloc: Global,
    cas: &[Row],
    places: &Places,
    own: &Settled,
    steps: usize,
) -> Result<Chain, NoMemory>
    requires { FindsFirst cas.now places.now.places cas.now }
    ensures { IfOk result (λ chain. chain ≡ chain_of (risen cas.now steps own.now) own.now) }
{
    let upward = copy_up(alloc, cas, places, own, steps)?;
    turn(alloc, &upward)
}

// The chain of the newest own certificate that has one.
fn build(
    alloc: Global,
    cars: &[Reference],
    own: &[Row],
    cas: &[Row],
) -> Result<Option<Chain>, NoMemory>
    ensures { IfOk result (HasDue cars.now own.now cas.now) }
{
    let places = Places::of(alloc, cas)?;
    match find_newest(alloc, cars, own, cas, &places)? {
        Some(newest) => Ok(Some(write(alloc, cas, &places, newest.own, newest.steps)?)),
        None => Ok(None),
    }
}

/// The chain that is due to a chip whose trust points have these references, by a party's own rows and its rows of
/// authorities.
///
/// A walk goes from a settled own row to the authority's row of its issuer's reference, which has a verifier's role,
/// and on through issuers of role `Cvca`, up to the first one whose issuer is one of the references. That issuer's own
/// certificate isn't in the chain. Of several authorities' rows with one reference the first is meant. Of the own rows
/// that have a chain the one with the greatest effective date is taken, among equals the one that was added last.
/// `NoChain` comes exactly where none has one.
///
/// A map finds each authority by one look, and no authority is walked through twice unless a chain was found between.
/// So there are at most as many looks as the product of the lists' lengths.
pub fn chain_for(
    alloc: Global,
    cars: &[Reference],
    own: &Rows,
    cas: &Rows,
) -> Result<Chain, ChainRefusal>
    ensures { ChainFor cars.now own.now cas.now result }
{
    let (own, cas) = (own.as_slice(), cas.as_slice());
    match build(alloc, cars, own, cas)? {
        Some(chain) => Ok(chain),
        None => Err(ChainRefusal::NoChain),
    }
}
