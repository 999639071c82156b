//! The bytes that hex digits spell.

ghost use Rattle.std.specs.Prelude.{◌≡◌, ◌≤◌, ◌*◌, ◌++◌, nat_eq, true, length, drop};
ghost use Rattle.std.specs.List.{list_all};
ghost use Rattle.hex.specs.Hex.{is_hex_digit};
ghost use Rattle.ark_script.specs.Line.{spelled};

use crate::step::Hex;

/// Writes the bytes that digits spell, two for each.
pub fn decode(digits: &[u8], out: &mut [u8])
    requires even { length digits.now ≡ 2 * length out.old }
    requires digits { list_all is_hex_digit digits.now ≡ true }
    ensures { out.new ≡ spelled digits.now }
{
    match hex::decode_to_slice(digits, out) {
        Ok(()) => {}
        Err(_) => unreachable!(),
    }
}

impl Hex<'_> {
    /// How many bytes the digits spell.
    pub fn len(&self) -> usize
        ensures { result ≡ length (spelled self.now.digits.now) }
    {
        self.digits.len() / 2
    }

    /// Whether they spell no bytes.
    pub fn is_empty(&self) -> bool
        ensures { result ≡ nat_eq (length (spelled self.now.digits.now)) 0 }
    {
        self.len() == 0
    }

    /// Writes the bytes at the start of `out`.
    pub fn read(&self, out: &mut [u8])
        requires room { length (spelled self.now.digits.now) ≤ length out.old }
        ensures bytes { out.new ≡ spelled self.now.digits.now ++ drop (length (spelled self.now.digits.now)) out.old }
    {
        let count = self.len();
        decode(self.digits, &mut out[..count]);
    }
}
