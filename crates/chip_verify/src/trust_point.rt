// The authorities that a chip trusts.
ghost use Rattle.std.specs.Prelude.{◌≡◌};
ghost use Rattle.chip_verify.specs.Trust as words;
ghost use Rattle.chip_verify.specs.Views.{seen_body};

use crate::ChipKey;
use chat_rights::Template;
use cv_dates::Day;
use cvc_grammar::CertView;
use holder_reference::Reference;

/// A country authority's key that a chip trusts, with what its certificate said of it (BSI TR-03110-3, trust points).
#[derive(Debug, Drop)]
pub struct TrustPoint {
    pub reference: Reference,
    pub template: Template,
    /// The effective date.
    pub from: Day,
    /// The expiration date.
    pub until: Day,
    pub key: ChipKey,
}

impl TrustPoint {
    /// The point that a certificate makes, with this key.
    pub(crate) fn certified(cert: &CertView, key: ChipKey) -> TrustPoint
        ensures { result ≡ words.certified (seen_body cert.now) key }
    {
        TrustPoint {
            reference: cert.holder,
            template: cert.template,
            from: cert.from,
            until: cert.until,
            key,
        }
    }

    /// The same point once more.
    pub fn copied(&self) -> TrustPoint
        ensures { result ≡ self.now }
    {
        TrustPoint {
            reference: self.reference,
            template: self.template,
            from: self.from,
            until: self.until,
            key: self.key.copied(),
        }
    }
}
