// Keys as they lie in an input.
ghost use Rattle.std.specs.Prelude.{◌≡◌, Some, None, option_map, if◌then◌else◌};
ghost use Rattle.std.specs.Str.{bytes_eq};
ghost use Rattle.tlv_core.specs.Object.{first_object, after_objects};
ghost use Rattle.signature_provider.specs.Key.{domain_tags, algorithm_identifier};
ghost use Rattle.cvc_grammar.specs.KeyObject as order;
ghost use Rattle.cvc_grammar.specs.Views.{seen_key};

use super::parts::{after_domain, is_key};
use super::{KeyParts, identifier_of};
use signature_provider::{Algorithm, KeyView};
use tlv_core::next_object;

/// The key whose point's object stands at the front, with its cofactor behind.
fn with_point<'a>(algorithm: Algorithm, domain: &'a [u8], bytes: &'a [u8]) -> Option<KeyParts<'a>>
    ensures { option_map seen_key result ≡ order.elliptic_after algorithm domain.now (first_object bytes.now) }
{
    let Ok((tag, point, rest)) = next_object(bytes) else {
        return None;
    };
    if tag != 0x86 {
        return None;
    }
    Some(KeyParts {
        key: KeyView {
            algorithm,
            domain,
            point,
        },
        cofactor: rest,
    })
}

/// The key of these values: its domain, where all of it stands at the front, and the point.
fn elliptic<'a>(algorithm: Algorithm, values: &'a [u8]) -> Option<KeyParts<'a>>
    ensures { option_map seen_key result
        ≡ order.elliptic_with algorithm values.now (after_objects domain_tags values.now) }
{
    match after_domain(values) {
        None => with_point(algorithm, &[], values),
        Some(rest) => {
            let (domain, _) = values.split_at(values.len() - rest.len());
            with_point(algorithm, domain, rest)
        }
    }
}

fn spelt_key<'a>(algorithm: Algorithm, values: &'a [u8]) -> Option<KeyParts<'a>>
    ensures { option_map seen_key result ≡ order.spelt_key algorithm values.now }
{
    if algorithm.is_elliptic() {
        elliptic(algorithm, values)
    } else {
        Some(KeyParts {
            key: KeyView {
                algorithm,
                domain: &[],
                point: values,
            },
            cofactor: &[],
        })
    }
}

fn algorithm_of(identifier: &[u8]) -> Option<Algorithm>
    ensures { result ≡ (let a = order.spelt_algorithm identifier.now in
        if bytes_eq identifier.now (algorithm_identifier a) then Some a else None) }
{
    if identifier.len() != 10 {
        return None;
    }
    let algorithm = Algorithm {
        arc: identifier[8],
        last: identifier[9],
    };
    if identifier == identifier_of(algorithm).as_slice() {
        Some(algorithm)
    } else {
        None
    }
}

fn legal_key<'a>(algorithm: Algorithm, values: &'a [u8]) -> Option<KeyParts<'a>>
    ensures { option_map seen_key result ≡ order.if_key (order.spelt_key algorithm values.now) }
{
    let parts = spelt_key(algorithm, values)?;
    if is_key(parts) { Some(parts) } else { None }
}

/// The key whose content this is: there is one, or none.
pub fn view_key(content: &[u8]) -> Option<KeyParts>
    ensures { option_map seen_key result ≡ order.read_key content.now }
{
    let Ok((tag, identifier, values)) = next_object(content) else {
        return None;
    };
    if tag != 0x06 {
        return None;
    }
    let algorithm = algorithm_of(identifier)?;
    legal_key(algorithm, values)
}
