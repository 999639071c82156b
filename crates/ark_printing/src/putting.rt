// Numbers, names and addresses in a row, each written from a place on.
ghost use Rattle.std.specs.Prelude.{◌≡◌, ◌+◌, ◌*◌, ◌≤◌, ◌++◌, true, length, take, codes, decimal};
ghost use Rattle.ark_base.specs.Name.{is_name};
ghost use Rattle.ark_script.specs.Text.{dotted, shown, spaced};

use ark_base::Name;
use ark_text::{put, put_digits, put_number};

// Writes two numbers from a place on, and gives the place after them.
pub(crate) fn put_numbers(out: &mut [u8], at: usize, first: u64, second: u64) -> usize
    requires room { at + 41 ≤ length out.old }
    ensures short { result ≤ at + 41 }
    ensures written { take result out.new ≡ take at out.old ++ spaced (decimal first)
        (decimal second) }
{
    let at = put_number(out, at, first);
    let at = put(out, at, b" ");
    put_number(out, at, second)
}

// Writes an address of IPv4 from a place on, and gives the place after it.
pub(crate) fn put_address(out: &mut [u8], at: usize, ip: &[u8; 4]) -> usize
    requires room { at + 83 ≤ length out.old }
    ensures short { result ≤ at + 83 }
    ensures written { take result out.new ≡ take at out.old ++ dotted ip.now }
{
    let [a, b, c, d] = ip;
    let at = put_dotted(out, at, *a);
    let at = put_dotted(out, at, *b);
    let at = put_dotted(out, at, *c);
    put_number(out, at, u64::from(*d))
}

// Writes an octet and a dot from a place on, and gives the place after them.
fn put_dotted(out: &mut [u8], at: usize, octet: u8) -> usize
    requires room { at + 21 ≤ length out.old }
    ensures short { result ≤ at + 21 }
    ensures written { take result out.new ≡ take at out.old ++ (decimal octet ++ codes ".") }
{
    let at = put_number(out, at, u64::from(octet));
    put(out, at, b".")
}

// Writes two names from a place on, and gives the place after them.
pub(crate) fn put_names(out: &mut [u8], at: usize, first: &Name, second: &Name) -> usize
    requires room { at + 31 ≤ length out.old }
    ensures short { result ≤ at + 31 }
    ensures written { take result out.new ≡ take at out.old ++ spaced first.now second.now }
    ensures first { is_name first.now ≡ true }
    ensures second { is_name second.now ≡ true }
{
    let at = put(out, at, first.bytes());
    let at = put(out, at, b" ");
    put(out, at, second.bytes())
}

// Writes bytes as hex digits from a place on, and none as `-`, and gives the place after them.
pub(crate) fn put_hex(out: &mut [u8], at: usize, bytes: &[u8]) -> usize
    requires bytes { length bytes.now ≤ 32768 }
    requires room { at + 65536 ≤ length out.old }
    ensures short { result ≤ at + 65536 }
    ensures written { take result out.new ≡ take at out.old ++ shown bytes.now }
{
    match bytes {
        [] => put(out, at, b"-"),
        [_, ..] => put_digits(out, at, bytes),
    }
}

// Writes a number and bytes from a place on, and gives the place after them.
pub(crate) fn put_numbered(out: &mut [u8], at: usize, n: u64, bytes: &[u8]) -> usize
    requires bytes { length bytes.now ≤ 32768 }
    requires room { at + 65557 ≤ length out.old }
    ensures short { result ≤ at + 65557 }
    ensures written { take result out.new ≡ take at out.old ++ spaced (decimal n)
        (shown bytes.now) }
{
    let at = put_number(out, at, n);
    let at = put(out, at, b" ");
    put_hex(out, at, bytes)
}
