//! Numbers in decimal, as the words give them.
ghost use Rattle.std.specs.Prelude.{◌≡◌, ◌≤◌, ◌<◌, ◌^◌, ◌↔◌, ℕ, IsTrue, IfSome, IfNone, slice_index, decimal};
ghost use Rattle.std.specs.Int.{IsInRange};

/// The number from `least` to `most` that a text gives, if it does: in decimal digits, with no sign and no leading zero.
pub fn read_number(text: &str, least: u64, most: u64) -> Option<u64>
    ensures number { IfSome result (λ n. text.now ≡ decimal n) }
    ensures low { IfSome result (λ n. least ≤ n) }
    ensures high { IfSome result (λ n. n ≤ most) }
    ensures none { IfNone result ((n : ℕ) → least ≤ n → n ≤ most → text.now ≡ decimal n → ⊥) }
{
    let number = read_decimal(text)?;
    if number < least || number > most {
        return None;
    }
    Some(number)
}

// The number that a text gives in decimal digits, with no sign and no leading zero.
fn read_decimal(text: &str) -> Option<u64>
    ensures number { IfSome result (λ n. text.now ≡ decimal n) }
    ensures none { IfNone result ((n : ℕ) → n < 2 ^ 64 → text.now ≡ decimal n → ⊥) }
{
    if text == "0" {
        return Some(0);
    }
    if !begins_with_digit(text.as_bytes()) {
        return None;
    }
    text.parse().ok()
}

// Whether bytes begin with a decimal digit other than 0.
fn begins_with_digit(bytes: &[u8]) -> bool
    ensures { IsTrue result ↔ IsInRange 49 57 (slice_index bytes.now 0) }
{
    matches!(bytes.first(), Some(b'1'..=b'9'))
}
