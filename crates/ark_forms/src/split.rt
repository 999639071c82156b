//! Parts of bytes between separators, and how many there are.

ghost use Rattle.std.specs.Prelude.{◌≡◌, [], ◌∷◌, nat_eq, MatchOption};
ghost use Rattle.std.specs.List.{position};
ghost use Rattle.ark_script.specs.Words.{parts_of};
ghost use Rattle.ark_forms.specs.Reading.{Gives, one_of, two_of, three_of, four_of, five_of, six_of};

use memchr::memchr;

// Fewer bytes than these are looked at one by one: most words are short, and a search would cost more.
const SHORT: usize = 32;

// Where a byte stands first, by a look at each byte.
#[inline(always)]
fn short_place(byte: u8, bytes: &[u8]) -> Option<usize>
    ensures { result ≡ position (λ b. nat_eq b byte) bytes.now }
{
    for (i, b) in bytes.iter().enumerate() {
        if *b == byte {
            return Some(i);
        }
    }
    None
}

// Where a byte stands first.
#[inline(always)]
fn place_of(byte: u8, bytes: &[u8]) -> Option<usize>
    ensures { result ≡ position (λ b. nat_eq b byte) bytes.now }
{
    if bytes.len() < SHORT {
        short_place(byte, bytes)
    } else {
        memchr(byte, bytes)
    }
}

/// What stands before the first separator, and behind it.
#[inline(always)]
pub fn split_once(bytes: &[u8], separator: u8) -> Option<(&[u8], &[u8])>
    ensures { MatchOption result (parts_of separator bytes.now ≡ bytes.now ∷ [])
        (λ p. parts_of separator bytes.now ≡ p.0.now ∷ parts_of separator p.1.now) }
{
    let at = place_of(separator, bytes)?;
    Some((&bytes[..at], &bytes[at + 1..]))
}

/// The only part.
#[tactic(auto, using(crate::proofs::Parts::one_of_more), unfolding(crate::specs::Reading::one_of))]
#[inline(always)]
pub fn one(bytes: &[u8], separator: u8) -> Option<&[u8]>
    ensures { Gives (λ p. p.now) result (one_of (parts_of separator bytes.now)) }
{
    match split_once(bytes, separator) {
        None => Some(bytes),
        Some(_) => None,
    }
}

/// The two parts.
#[tactic(auto, unfolding(crate::specs::Reading::one_of, crate::specs::Reading::two_of))]
#[inline(always)]
pub fn two(bytes: &[u8], separator: u8) -> Option<(&[u8], &[u8])>
    ensures { Gives (λ p. (p.0.now, p.1.now)) result (two_of (parts_of separator bytes.now)) }
{
    let (a, rest) = split_once(bytes, separator)?;
    let b = one(rest, separator)?;
    Some((a, b))
}

/// The three parts.
#[tactic(auto, unfolding(crate::specs::Reading::two_of, crate::specs::Reading::three_of))]
#[inline(always)]
pub fn three(bytes: &[u8], separator: u8) -> Option<(&[u8], &[u8], &[u8])>
    ensures { Gives (λ p. (p.0.now, p.1.now, p.2.now)) result
        (three_of (parts_of separator bytes.now)) }
{
    let (a, rest) = split_once(bytes, separator)?;
    let (b, c) = two(rest, separator)?;
    Some((a, b, c))
}

/// The four parts.
#[tactic(auto, unfolding(crate::specs::Reading::three_of, crate::specs::Reading::four_of))]
#[inline(always)]
pub fn four(bytes: &[u8], separator: u8) -> Option<(&[u8], &[u8], &[u8], &[u8])>
    ensures { Gives (λ p. (p.0.now, p.1.now, p.2.now, p.3.now)) result
        (four_of (parts_of separator bytes.now)) }
{
    let (a, rest) = split_once(bytes, separator)?;
    let (b, c, d) = three(rest, separator)?;
    Some((a, b, c, d))
}

/// The five parts.
#[tactic(auto, unfolding(crate::specs::Reading::four_of, crate::specs::Reading::five_of))]
#[inline(always)]
pub fn five(bytes: &[u8], separator: u8) -> Option<(&[u8], &[u8], &[u8], &[u8], &[u8])>
    ensures { Gives (λ p. (p.0.now, p.1.now, p.2.now, p.3.now, p.4.now)) result
        (five_of (parts_of separator bytes.now)) }
{
    let (a, rest) = split_once(bytes, separator)?;
    let (b, c, d, e) = four(rest, separator)?;
    Some((a, b, c, d, e))
}

/// The six parts.
#[tactic(auto, unfolding(crate::specs::Reading::five_of, crate::specs::Reading::six_of))]
#[inline(always)]
pub fn six(bytes: &[u8], separator: u8) -> Option<(&[u8], &[u8], &[u8], &[u8], &[u8], &[u8])>
    ensures { Gives (λ p. (p.0.now, p.1.now, p.2.now, p.3.now, p.4.now, p.5.now)) result
        (six_of (parts_of separator bytes.now)) }
{
    let (a, rest) = split_once(bytes, separator)?;
    let (b, c, d, e, f) = five(rest, separator)?;
    Some((a, b, c, d, e, f))
}
