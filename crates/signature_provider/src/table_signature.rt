// A signature that names its row in a table.
ghost use Rattle.std.specs.Prelude.{◌≡◌, ◌≢◌, ℕ, ◌^◌, ◌<◌, IfSome, IfNone, length};
ghost use Rattle.std.specs.Int.{w64, to_be_bytes};
ghost use Rattle.signature_provider.specs.Instruments.{table_signature};

use eac_base::is_same;

/// The signature of the row of this number.
pub(crate) fn signature_of(number: u64) -> [u8; 64]
    ensures { result ≡ table_signature number }
{
    let mut signature = [0; 64];
    signature[56..].copy_from_slice(&number.to_be_bytes());
    signature
}

/// The number of the row whose signature it is.
pub(crate) fn number_in(signature: &[u8]) -> Option<u64>
    ensures found { IfSome result (λ number. signature.now ≡ table_signature number) }
    ensures fits { IfSome result (λ number. number < 2 ^ 64) }
    ensures none { IfNone result ((number : ℕ) → number < 2 ^ 64 → signature.now ≢ table_signature number) }
{
    if signature.len() != 64 {
        return None;
    }
    let (_, digits) = signature.split_at(56);
    let number = number_of(digits);
    if is_same(signature, &signature_of(number)) {
        Some(number)
    } else {
        None
    }
}

/// The number in 8 bytes, the highest first.
pub(crate) fn number_of(digits: &[u8]) -> u64
    requires { length digits.now ≡ 8 }
    ensures { (number : ℕ) → number < 2 ^ 64 → digits.now ≡ to_be_bytes w64 number → result ≡ number }
{
    u64::from_be_bytes([
        digits[0], digits[1], digits[2], digits[3], digits[4], digits[5], digits[6], digits[7],
    ])
}
