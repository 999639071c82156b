//! Words as bytes in hex digits.

ghost use Rattle.std.specs.Prelude.{◌≡◌};
ghost use Rattle.std.specs.List.{list_all};
ghost use Rattle.hex.specs.Hex.{is_hex_digit};
ghost use Rattle.ark_script.specs.Line.{spelled};
ghost use Rattle.ark_forms.specs.Reading as spec;
ghost use Rattle.ark_forms.specs.Reading.{Gives, hex_of, hex0_of, type_of};

use ark_script::{Hex, decode};

fn is_hex_digit(b: u8) -> bool
    ensures { result ≡ is_hex_digit b }
{
    b.is_ascii_hexdigit()
}

// The loop has no early end, so that many digits are looked at together.
fn are_hex_digits(word: &[u8]) -> bool
    ensures { result ≡ list_all is_hex_digit word.now }
{
    let mut all = true;
    for b in word {
        all &= is_hex_digit(*b);
    }
    all
}

// Whether a word has two hex digits for each byte, of which there are so many.
fn is_hex(word: &[u8], fewest: usize, most: usize) -> bool
    ensures { result ≡ spec.is_hex fewest most word.now }
{
    let count = word.len() / 2;
    word.len() % 2 == 0 && fewest <= count && count <= most && are_hex_digits(word)
}

/// Two hex digits for each byte, from the fewest to the most bytes.
#[tactic(auto, unfolding(crate::specs::Reading::hex_of))]
pub fn hex(word: &[u8], fewest: usize, most: usize) -> Option<Hex<'_>>
    ensures { Gives (λ hex. spelled hex.digits.now) result (hex_of fewest most word.now) }
{
    if is_hex(word, fewest, most) {
        Some(Hex { digits: word })
    } else {
        None
    }
}

/// The same, or `-` for no bytes.
#[tactic(auto, unfolding(crate::specs::Reading::hex0_of))]
pub fn hex0(word: &[u8], most: usize) -> Option<Hex<'_>>
    ensures { Gives (λ hex. spelled hex.digits.now) result (hex0_of most word.now) }
{
    if word == b"-".as_slice() {
        return Some(Hex { digits: b"" });
    }
    hex(word, 1, most)
}

/// A MAC address: six bytes.
#[tactic(auto, unfolding(crate::specs::Reading::hex_of))]
pub fn mac(word: &[u8]) -> Option<[u8; 6]>
    ensures { hex_of 6 6 word.now ≡ result }
{
    if !is_hex(word, 6, 6) {
        return None;
    }
    let mut bytes = [0; 6];
    decode(word, &mut bytes);
    Some(bytes)
}

// A type of frames: two bytes, the high one first.
#[tactic(auto, unfolding(crate::specs::Reading::type_of, crate::specs::Reading::hex_of))]
pub(crate) fn frame_type(word: &[u8]) -> Option<u16>
    ensures { type_of word.now ≡ result }
{
    if !is_hex(word, 2, 2) {
        return None;
    }
    let mut bytes = [0; 2];
    decode(word, &mut bytes);
    Some(u16::from_be_bytes(bytes))
}
