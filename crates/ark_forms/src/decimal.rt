//! Words as numbers.

ghost use Rattle.std.specs.Prelude.{◌≡◌, ◌≤◌, ◌<◌, ◌+◌, ◌*◌, ◌^◌, ◌↔◌, ℕ, IsTrue, IfSome, IfNone, slice_index, length, decimal};
ghost use Rattle.std.specs.Char.{digit_value};
ghost use Rattle.std.specs.Int.{IsInRange};
ghost use Rattle.ark_script.specs.Arguments as spec;
ghost use Rattle.ark_forms.specs.Reading.{number_of, size_of, ip_of};

use crate::split::four;

// Whether bytes begin as a number does: with a digit, and with 0 only where it stands alone.
fn begins_number(word: &[u8]) -> bool
    ensures { IsTrue result ↔ (IsInRange 48 57 (slice_index word.now 0)
        × (slice_index word.now 0 ≡ 48 → length word.now ≡ 1)) }
{
    match word.first() {
        Some(b'0') => word.len() == 1,
        Some(b'1'..=b'9') => true,
        _ => false,
    }
}

// A number with one more digit behind it, where the byte is a digit and 64 bits hold the number.
fn with_digit(n: u64, byte: u8) -> Option<u64>
    ensures value { IfSome result (λ m. (digit_value byte < 10) × (m ≡ n * 10 + digit_value byte)
        × (m < 2 ^ 64)) }
    ensures none { IfNone result (digit_value byte < 10 → 2 ^ 64 ≤ n * 10 + digit_value byte) }
{
    if !byte.is_ascii_digit() {
        return None;
    }
    n.checked_mul(10)?.checked_add(u64::from(byte - b'0'))
}

// The number that a word gives in decimal digits, with no sign and no zeros in front.
fn decimal(word: &[u8]) -> Option<u64>
    ensures value { IfSome result (λ n. word.now ≡ decimal n) }
    ensures none { IfNone result ((n : ℕ) → n < 2 ^ 64 → word.now ≡ decimal n → ⊥) }
{
    if !begins_number(word) {
        return None;
    }
    let mut n = 0;
    for b in word {
        n = with_digit(n, *b)?;
    }
    Some(n)
}

/// A number in decimal digits, with no sign and no zeros in front, from the lowest to the highest.
#[tactic(auto, unfolding(crate::specs::Reading::number_of))]
pub fn number(word: &[u8], low: u64, high: u64) -> Option<u64>
    ensures { number_of low high word.now ≡ result }
{
    let n = decimal(word)?;
    if n < low || high < n {
        return None;
    }
    Some(n)
}

fn is_size(n: u64) -> bool
    ensures { result ≡ spec.is_size n }
{
    matches!(n, 2 | 4 | 8 | 16 | 32 | 64 | 128 | 256)
}

/// A power of two from 2 to 256.
#[tactic(auto, unfolding(crate::specs::Reading::size_of))]
pub fn size(word: &[u8]) -> Option<u64>
    ensures { size_of word.now ≡ result }
{
    let n = number(word, 2, 256)?;
    if is_size(n) { Some(n) } else { None }
}

fn octet(word: &[u8]) -> Option<u8>
    ensures { number_of 0 255 word.now ≡ result }
{
    match number(word, 0, 255) {
        Some(n) => Some(n as u8),
        None => None,
    }
}

/// An address of IPv4: four numbers up to 255 with dots between them.
#[tactic(auto, unfolding(crate::specs::Reading::ip_of))]
pub fn ip(word: &[u8]) -> Option<[u8; 4]>
    ensures { ip_of word.now ≡ result }
{
    let (a, b, c, d) = four(word, b'.')?;
    let a = octet(a)?;
    let b = octet(b)?;
    let c = octet(c)?;
    let d = octet(d)?;
    Some([a, b, c, d])
}
