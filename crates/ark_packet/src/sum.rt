ghost use Rattle.std.specs.Prelude.{◌≡◌};
ghost use Rattle.ark_packet.specs.Sum.{plus, ones_sum};
ghost use Rattle.ark_packet.specs.Sum as spec;
ghost use Rattle.ark_packet.specs.Written.{checksum as checksum_of};

use byteorder::{ByteOrder, NetworkEndian};

// The one's complement sum of two words.
fn add(a: u16, b: u16) -> u16
    ensures { result ≡ plus a b }
{
    let sum = u32::from(a) + u32::from(b);
    let whole = if sum < 65536 { sum } else { sum - 65535 };
    whole as u16
}

// A one's complement sum with the words of more octets added to it.
pub(crate) fn add_octets(start: u16, octets: &[u8]) -> u16
    ensures { result ≡ plus start (ones_sum octets.now) }
{
    let mut sum = start;
    let mut rest = octets;
    while rest.len() >= 2 {
        sum = add(sum, NetworkEndian::read_u16(rest));
        rest = &rest[2..];
    }
    match rest {
        [last] => add(sum, NetworkEndian::read_u16(&[*last, 0])),
        _ => sum,
    }
}

// Whether octets that hold their own checksum have the right one.
pub(crate) fn is_right(octets: &[u8]) -> bool
    ensures { result ≡ spec.is_right octets.now }
{
    add_octets(0, octets) == 0xffff
}

// The checksum of octets whose own checksum field is zero.
pub(crate) fn checksum(octets: &[u8]) -> u16
    ensures { result ≡ checksum_of octets.now }
{
    0xffff - add_octets(0, octets)
}
