// Keys of their own.
ghost use Rattle.std.specs.Prelude.{◌≡◌, IfOk};
ghost use Rattle.cvc_grammar.specs.Views.{seen_key};

use eac_base::{NoMemory, Octets};
use signature_provider::{Key, KeyView};
use std::alloc::Global;

pub fn own_key(alloc: Global, key: KeyView, cofactor: &[u8]) -> Result<Key, NoMemory>
    ensures { IfOk result (λ k. k ≡ seen_key (record { key = key.entry; cofactor = cofactor.entry })) }
{
    Ok(Key {
        algorithm: key.algorithm,
        domain: Octets::from_slice(alloc, key.domain)?,
        point: Octets::from_slice(alloc, key.point)?,
        cofactor: Octets::from_slice(alloc, cofactor)?,
    })
}
