// A key seen by what tells it from others.
ghost use Rattle.std.specs.Prelude.{◌≡◌};
ghost use Rattle.signature_provider.specs.Provider.{public_key, viewed_key};

use crate::{Key, KeyView};

impl Key {
    /// The key without its cofactor, in borrowed bytes.
    pub fn view(&self) -> KeyView<'_>
        ensures { viewed_key result ≡ public_key self.now }
    {
        KeyView {
            algorithm: self.algorithm,
            domain: self.domain.as_slice(),
            point: self.point.as_slice(),
        }
    }
}
