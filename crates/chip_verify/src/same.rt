// Whether two values are the same.
ghost use Rattle.std.specs.Prelude.{◌≡◌, ◌↔◌, IsTrue};
ghost use Rattle.signature_provider.specs.Provider.{same_key};
ghost use Rattle.chip_verify.specs.Refusals as words;
ghost use Rattle.chip_verify.specs.Same.{same_point, same_older, same_trust};

use crate::{ChipKey, ChipState, TrustPoint};
use chat_rights::{Kind, Template};
use eac_base::is_same;

pub fn is_same_kind(left: Kind, right: Kind) -> bool
    ensures { result ≡ words.same_kind left right }
{
    match (left, right) {
        (Kind::Inspection, Kind::Inspection) => true,
    }
}

pub fn is_same_template(left: Template, right: Template) -> bool
    ensures { result ≡ words.same_template left right }
{
    is_same_kind(left.kind, right.kind)
        && left.role.number() == right.role.number()
        && left.rights.bits() == right.rights.bits()
}

fn is_same_key(left: &ChipKey, right: &ChipKey) -> bool
    ensures { result ≡ same_key left.now right.now }
{
    left.algorithm == right.algorithm
        && is_same(left.domain.as_slice(), right.domain.as_slice())
        && is_same(left.point.as_slice(), right.point.as_slice())
}

fn is_same_point(left: &TrustPoint, right: &TrustPoint) -> bool
    ensures { result ≡ same_point left.now right.now }
{
    left.reference.is(&right.reference)
        && is_same_template(left.template, right.template)
        && left.from.number() == right.from.number()
        && left.until.number() == right.until.number()
        && is_same_key(&left.key, &right.key)
}

fn is_same_older(left: &Option<TrustPoint>, right: &Option<TrustPoint>) -> bool
    ensures { result ≡ same_older left.now right.now }
{
    match (left, right) {
        (Some(left), Some(right)) => is_same_point(left, right),
        (None, None) => true,
        _ => false,
    }
}

impl ChipState {
    /// Whether both are the same state.
    pub fn is(&self, other: &ChipState) -> bool
        ensures same { IsTrue result ↔ (self.now ≡ other.now) }
        ensures tells { result ≡ same_trust self.now other.now }
    {
        self.day.number() == other.day.number()
            && is_same_older(&self.older, &other.older)
            && is_same_point(&self.newest, &other.newest)
    }
}
