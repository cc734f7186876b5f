// The forms of the keys that an authority is set up with.
ghost use Rattle.std.specs.Prelude.{◌≡◌, IfOk, IsTrue};
ghost use Rattle.signature_provider.specs.Key.{is_form};
ghost use Rattle.signature_provider.specs.Instruments.{form_named};

use crate::{Algorithm, FormName, KeyForm};
use eac_base::{NoMemory, Octets};
use std::alloc::Global;

// One byte for each of the domain's parameters.
const DOMAIN: [u8; 15] = [0x81, 1, 1, 0x82, 1, 2, 0x83, 1, 3, 0x84, 1, 4, 0x85, 1, 5];

const COFACTOR: [u8; 3] = [0x87, 1, 1];

/// The form of the instruments' keys: ECDSA with SHA-256 over a domain with a cofactor, or RSA with SHA-256. The
/// domain has no real parameters.
pub fn plain_form(alloc: Global, name: FormName) -> Result<KeyForm, NoMemory>
    ensures form { IfOk result (λ form. form ≡ form_named name) }
    ensures legal { IfOk result (λ form. IsTrue (is_form form)) }
{
    match name {
        FormName::Ec => Ok(KeyForm {
            algorithm: Algorithm { arc: 2, last: 3 },
            domain: Octets::from_slice(alloc, &DOMAIN)?,
            cofactor: Octets::from_slice(alloc, &COFACTOR)?,
        }),
        FormName::Rsa => Ok(KeyForm {
            algorithm: Algorithm { arc: 1, last: 2 },
            domain: Octets::new(alloc),
            cofactor: Octets::new(alloc),
        }),
    }
}
