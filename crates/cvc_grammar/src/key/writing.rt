// The objects of keys.
ghost use Rattle.std.specs.Prelude.{◌≡◌, ◌++◌, ◌<◌, ◌≤◌, length, IsTrue, OnOk};
ghost use Rattle.tlv_core.specs.Object.{object};
ghost use Rattle.signature_provider.specs.Key as keys;

use super::identifier_of;
use crate::object_writing::{object_size, push_head, push_object};
use eac_base::{NoMemory, Octets};
use signature_provider::{Algorithm, Key};

fn push_identifier(out: &mut Octets, algorithm: Algorithm) -> Result<(), NoMemory>
    ensures { OnOk result (out.new ≡ out.old ++ object 0x06 (keys.algorithm_identifier algorithm)) }
{
    push_object(out, 0x06, &identifier_of(algorithm))
}

/// The bytes of what stands behind the identifier.
fn values_size(key: &Key) -> usize
    requires { length (keys.key_values key.now) < 65536 }
    ensures { result ≡ length (keys.key_values key.now) }
{
    if key.algorithm.is_elliptic() {
        key.domain.len() + object_size(0x86, key.point.len()) + key.cofactor.len()
    } else {
        key.point.len()
    }
}

fn push_values(out: &mut Octets, key: &Key) -> Result<(), NoMemory>
    requires { length (keys.key_values key.now) < 65536 }
    ensures { OnOk result (out.new ≡ out.old ++ keys.key_values key.now) }
{
    if key.algorithm.is_elliptic() {
        out.push_all(key.domain.as_slice())?;
        push_object(out, 0x86, key.point.as_slice())?;
        out.push_all(key.cofactor.as_slice())
    } else {
        out.push_all(key.point.as_slice())
    }
}

/// The bytes of the content of a key's object.
fn content_size(key: &Key) -> usize
    requires { length (keys.key_content key.now) < 65536 }
    ensures { result ≡ length (keys.key_content key.now) }
{
    object_size(0x06, 10) + values_size(key)
}

/// A key's object behind the bytes that are there.
pub fn push_key(out: &mut Octets, key: &Key) -> Result<(), NoMemory>
    requires { IsTrue (keys.key_fits key.now) }
    ensures { OnOk result (out.new ≡ out.old ++ keys.key_object key.now) }
{
    push_head(out, 0x7f49, content_size(key))?;
    push_identifier(out, key.algorithm)?;
    push_values(out, key)
}
