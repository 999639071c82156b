//! Bytes, numbers and hex digits, each written from a place on.
#![tactic(auto)]

ghost use Rattle.std.specs.Prelude.{◌≡◌, ◌+◌, ◌*◌, ◌≤◌, ◌++◌, length, take, decimal};
ghost use Rattle.hex.specs.Hex.{encode_lower};

use itoa::Buffer;

/// Writes bytes from a place on, and gives the place after them.
pub fn put(out: &mut [u8], at: usize, bytes: &[u8]) -> usize
    requires room { at + length bytes.now ≤ length out.old }
    ensures after { result ≡ at + length bytes.now }
    ensures written { take result out.new ≡ take at out.old ++ bytes.now }
{
    let end = at + bytes.len();
    out[at..end].copy_from_slice(bytes);
    end
}

/// Writes a number in decimal from a place on, and gives the place after it.
pub fn put_number(out: &mut [u8], at: usize, n: u64) -> usize
    requires room { at + 20 ≤ length out.old }
    ensures short { result ≤ at + 20 }
    ensures written { take result out.new ≡ take at out.old ++ decimal n }
{
    let mut buffer = Buffer::new();
    put(out, at, buffer.format(n).as_bytes())
}

/// Writes two hex digits for each byte from a place on, in lower case, and gives the place after them.
pub fn put_digits(out: &mut [u8], at: usize, bytes: &[u8]) -> usize
    requires room { at + 2 * length bytes.now ≤ length out.old }
    ensures after { result ≡ at + 2 * length bytes.now }
    ensures written { take result out.new ≡ take at out.old ++ encode_lower bytes.now }
{
    let end = at + 2 * bytes.len();
    match hex::encode_to_slice(bytes, &mut out[at..end]) {
        Ok(()) => end,
        Err(_) => unreachable!(),
    }
}
