// The state that a chip is made with.
ghost use Rattle.std.specs.Prelude.{◌≡◌};
ghost use Rattle.chip_verify.specs.Root as words;
ghost use Rattle.chip_verify.specs.Following.{KeyFits};
ghost use Rattle.chip_verify.specs.Views.{IsView, seen_body};

use crate::table::is_link;
use crate::{ChipKey, ChipState, TrustPoint};
use cv_dates::Day;
use cvc_grammar::CertView;

fn is_root(cert: &CertView) -> bool
    ensures { result ≡ words.is_root (seen_body cert.now) }
{
    is_link(cert.template.role) && !(cert.key.algorithm.is_elliptic() && cert.key.domain.is_empty())
}

fn root_point(cert: &CertView) -> TrustPoint
    requires { KeyFits cert.now }
    ensures { result ≡ words.root_point (seen_body cert.now) }
{
    TrustPoint::certified(cert, ChipKey::of(cert.key))
}

impl ChipState {
    /// The state of a chip that is made with this certificate as its only trust point; `None` exactly where the
    /// certificate isn't an authority's, or its key is elliptic without a domain. Its signature isn't looked at.
    pub fn of_root(root: &CertView, day: Day) -> Option<ChipState>
        requires { IsView root.now }
        ensures { result ≡ words.first_trust (seen_body root.now) day }
    {
        if is_root(root) {
            Some(ChipState {
                day,
                older: None,
                newest: root_point(root),
            })
        } else {
            None
        }
    }
}
