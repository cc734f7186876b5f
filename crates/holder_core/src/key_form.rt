// Keys that a new key can be made like.
ghost use Rattle.std.specs.Prelude.{◌≡◌, ◌∷◌, [], ℕ, ◌+◌, List, length, nat_le, Option, IfOk, option_map};
ghost use Rattle.eac_base.specs.Answers.{◌gives◌};
ghost use Rattle.tlv_core.specs.Object.{first_object, onward, after_objects, are_objects};
ghost use Rattle.signature_provider.specs.Key as legal;
ghost use Rattle.holder_core.specs.Signers as words;

use eac_base::{NoMemory, Octets};
use signature_provider::{Algorithm, Key, KeyForm};
use std::alloc::Global;
use tlv_core::{Tag, next_object};

// What follows the object at the front, which has to have this tag and a content.
fn after_object(tag: Tag, bytes: &[u8]) -> Option<&[u8]>
    ensures { (others : List ℕ → Option (List ℕ)) →
        onward tag others (first_object bytes.now) ≡ (option_map (λ r. r.now) result gives others) }
{
    match next_object(bytes) {
        Ok((found, content, rest)) => {
            if found == tag && !content.is_empty() {
                Some(rest)
            } else {
                None
            }
        }
        Err(_) => None,
    }
}

fn after_domain(bytes: &[u8]) -> Option<&[u8]>
    ensures { option_map (λ r. r.now) result ≡ after_objects legal.domain_tags bytes.now }
{
    let rest = after_object(0x81, bytes)?;
    let rest = after_object(0x82, rest)?;
    let rest = after_object(0x83, rest)?;
    let rest = after_object(0x84, rest)?;
    after_object(0x85, rest)
}

fn is_domain(bytes: &[u8]) -> bool
    ensures { result ≡ legal.is_domain bytes.now }
{
    matches!(after_domain(bytes), Some(rest) if rest.is_empty())
}

fn is_cofactor_object(bytes: &[u8]) -> bool
    ensures { result ≡ are_objects (0x87 ∷ []) bytes.now }
{
    matches!(after_object(0x87, bytes), Some(rest) if rest.is_empty())
}

fn is_cofactor(bytes: &[u8]) -> bool
    ensures { result ≡ legal.is_cofactor bytes.now }
{
    bytes.is_empty() || is_cofactor_object(bytes)
}

fn is_algorithm(algorithm: Algorithm) -> bool
    ensures { result ≡ legal.is_algorithm algorithm }
{
    1 <= algorithm.arc && algorithm.arc <= 2 && algorithm.last < 128
}

fn fit_in(domain: &[u8], cofactor: &[u8]) -> bool
    ensures { result ≡ nat_le (length domain.now + length cofactor.now) 640 }
{
    domain.len() <= 640 && cofactor.len() <= 640 - domain.len()
}

/// Whether a new key can be made like this one: of its algorithm, on its domain.
pub fn has_legal_form(key: &Key) -> bool
    ensures { result ≡ words.has_legal_form key.now }
{
    let (domain, cofactor) = (key.domain.as_slice(), key.cofactor.as_slice());
    is_algorithm(key.algorithm)
        && fit_in(domain, cofactor)
        && if key.algorithm.is_elliptic() {
            is_domain(domain) && is_cofactor(cofactor)
        } else {
            domain.is_empty() && cofactor.is_empty()
        }
}

/// What a new key is made like: all of this one but its point.
pub fn form_of(alloc: Global, key: &Key) -> Result<KeyForm, NoMemory>
    ensures { IfOk result (λ form. form ≡ words.form_of key.now) }
{
    Ok(KeyForm {
        algorithm: key.algorithm,
        domain: Octets::from_slice(alloc, key.domain.as_slice())?,
        cofactor: Octets::from_slice(alloc, key.cofactor.as_slice())?,
    })
}
