// Which parts make a key.
ghost use Rattle.std.specs.Prelude.{◌≡◌, ◌≤◌, ◌∷◌, [], ℕ, List, length, Option, IfSome, option_map};
ghost use Rattle.eac_base.specs.Answers.{◌gives◌};
ghost use Rattle.tlv_core.specs.Object.{first_object, onward, after_objects, are_objects};
ghost use Rattle.signature_provider.specs.Key as legal;
ghost use Rattle.cvc_grammar.specs.Views.{seen_key};

use super::KeyParts;
use signature_provider::Algorithm;
use tlv_core::{Tag, next_object};

/// What follows the object at the front, which has to have this tag and a content.
fn after_object(tag: Tag, bytes: &[u8]) -> Option<&[u8]>
    ensures rest { (others : List ℕ → Option (List ℕ)) →
        onward tag others (first_object bytes.now) ≡ (option_map (λ r. r.now) result gives others) }
    ensures within { IfSome result (λ r. length r.now ≤ length bytes.now) }
{
    let Ok((found, content, rest)) = next_object(bytes) else {
        return None;
    };
    if found != tag || content.is_empty() {
        return None;
    }
    Some(rest)
}

/// What follows the objects of a domain.
pub fn after_domain(bytes: &[u8]) -> Option<&[u8]>
    ensures rest { option_map (λ r. r.now) result ≡ after_objects legal.domain_tags bytes.now }
    ensures within { IfSome result (λ r. length r.now ≤ length bytes.now) }
{
    let rest = after_object(0x81, bytes)?;
    let rest = after_object(0x82, rest)?;
    let rest = after_object(0x83, rest)?;
    let rest = after_object(0x84, rest)?;
    after_object(0x85, rest)
}

fn is_domain(bytes: &[u8]) -> bool
    ensures { result ≡ legal.is_domain bytes.now }
{
    matches!(after_domain(bytes), Some(rest) if rest.is_empty())
}

/// What follows the modulus and the exponent.
fn after_rsa(bytes: &[u8]) -> Option<&[u8]>
    ensures { option_map (λ r. r.now) result ≡ after_objects (0x81 ∷ 0x82 ∷ []) bytes.now }
{
    let rest = after_object(0x81, bytes)?;
    after_object(0x82, rest)
}

fn is_rsa_point(bytes: &[u8]) -> bool
    ensures { result ≡ legal.is_rsa_point bytes.now }
{
    matches!(after_rsa(bytes), Some(rest) if rest.is_empty())
}

fn is_cofactor_object(bytes: &[u8]) -> bool
    ensures { result ≡ are_objects (0x87 ∷ []) bytes.now }
{
    matches!(after_object(0x87, bytes), Some(rest) if rest.is_empty())
}

fn is_cofactor(bytes: &[u8]) -> bool
    ensures { result ≡ legal.is_cofactor bytes.now }
{
    bytes.is_empty() || is_cofactor_object(bytes)
}

fn is_algorithm(algorithm: Algorithm) -> bool
    ensures { result ≡ legal.is_algorithm algorithm }
{
    1 <= algorithm.arc && algorithm.arc <= 2 && algorithm.last < 128
}

fn is_elliptic_key(domain: &[u8], point: &[u8], cofactor: &[u8]) -> bool
    ensures { result ≡ legal.is_elliptic_key domain.now point.now cofactor.now }
{
    !point.is_empty()
        && ((is_domain(domain) && is_cofactor(cofactor))
            || (domain.is_empty() && cofactor.is_empty()))
}

fn is_rsa_key(domain: &[u8], point: &[u8], cofactor: &[u8]) -> bool
    ensures { result ≡ legal.is_rsa_key domain.now point.now cofactor.now }
{
    domain.is_empty() && cofactor.is_empty() && is_rsa_point(point)
}

pub fn is_key(parts: KeyParts) -> bool
    ensures { result ≡ legal.is_key (seen_key parts.entry) }
{
    let key = parts.key;
    is_algorithm(key.algorithm)
        && if key.algorithm.is_elliptic() {
            is_elliptic_key(key.domain, key.point, parts.cofactor)
        } else {
            is_rsa_key(key.domain, key.point, parts.cofactor)
        }
}
