// What a chip trusts.
ghost use Rattle.std.specs.Prelude.{◌≡◌};
ghost use Rattle.chip_verify.specs.Trust.{IsLegalTrust};

use crate::TrustPoint;
use cv_dates::Day;
use std::marker::Model;

/// The chip's day and its trust points, seen as a `Trust`.
///
/// Each point is an authority's, with a key of a known algorithm and a point. An older point has another reference than
/// the newest and took effect earlier.
#[derive(Debug, Drop)]
pub struct ChipState {
    /// The latest effective date that the chip could rely on. It has no clock.
    pub day: Day,
    pub older: Option<TrustPoint>,
    pub newest: TrustPoint,
}

impl Model for ChipState {
    ghost use Rattle.chip_verify.specs.Trust.{Trust, IsLegalTrust};

    ghost Value = { Trust };

    ghost view = { λ s. record { day = s.day; older = s.older; newest = s.newest } };

    ghost invariant = { λ s. IsLegalTrust (record { day = s.day; older = s.older; newest = s.newest }) };
}

fn copied_older(older: &Option<TrustPoint>) -> Option<TrustPoint>
    ensures { result ≡ older.now }
{
    match older {
        None => None,
        Some(point) => Some(point.copied()),
    }
}

impl ChipState {
    /// The same points on this day.
    pub(crate) fn at(&self, day: Day) -> ChipState
        ensures { result ≡ record { day = day; older = self.now.older; newest = self.now.newest } }
    {
        ChipState {
            day,
            older: copied_older(&self.older),
            newest: self.newest.copied(),
        }
    }

    /// The same state once more.
    pub fn copied(&self) -> ChipState
        ensures same { result ≡ self.now }
        ensures legal { IsLegalTrust self.now }
    {
        self.at(self.day)
    }
}
