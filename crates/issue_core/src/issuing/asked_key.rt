// The key that a request asks to have certified.
ghost use Rattle.std.specs.Prelude.{◌≡◌, IfOk};
ghost use Rattle.cvc_grammar.specs.RequestViews.{seen_request};
ghost use Rattle.issue_core.specs.Issuing.Due.{bare_key};

use cvc_grammar::RequestView;
use eac_base::{NoMemory, Octets};
use signature_provider::Key;
use std::alloc::Global;

/// As a row keeps it: with its domain and cofactor.
pub fn own_key(alloc: Global, view: &RequestView) -> Result<Key, NoMemory>
    ensures { IfOk result (λ k. k ≡ (seen_request view.now).body.key) }
{
    Ok(Key {
        algorithm: view.key.algorithm,
        domain: Octets::from_slice(alloc, view.key.domain)?,
        point: Octets::from_slice(alloc, view.key.point)?,
        cofactor: Octets::from_slice(alloc, view.cofactor)?,
    })
}

/// As a certificate has it: without domain and cofactor.
pub fn bare_key(alloc: Global, view: &RequestView) -> Result<Key, NoMemory>
    ensures { IfOk result (λ k. k ≡ bare_key (seen_request view.now).body.key) }
{
    Ok(Key {
        algorithm: view.key.algorithm,
        domain: Octets::new(alloc),
        point: Octets::from_slice(alloc, view.key.point)?,
        cofactor: Octets::new(alloc),
    })
}
