ghost use Rattle.std.specs.Prelude.{◌≡◌, ◌≤◌, length, take, is_some, IfSome};
ghost use Rattle.ark_packet.specs.Ip.{seen, plain};
ghost use Rattle.ark_packet.specs.Udp as spec;

use crate::cover::covered_sum;
use crate::frame::{Frame, Ip};
use crate::sum::is_right;
use byteorder::{ByteOrder, NetworkEndian};

/// Why a frame has no UDP datagram that can be taken.
#[derive(Clone, Copy, Debug, PartialEq, Eq)]
pub enum Bad {
    /// The frame has no IPv4 part, or its protocol is not 17.
    Kind,
    /// The IPv4 header's checksum is wrong (RFC 791, section 3.1).
    HeaderSum,
    /// The IPv4 part is a fragment.
    Fragment,
    /// The payload has fewer than 8 bytes, or the UDP length is below 8 or above the payload's.
    Length,
    /// There is a UDP checksum, and it is wrong (RFC 768).
    DataSum,
}

/// A UDP datagram. Addresses are octets in the order of the wire.
#[derive(Clone, Copy, Debug)]
pub struct Udp<'a> {
    /// The source's IPv4 address.
    pub from: [u8; 4],
    /// The destination's IPv4 address.
    pub to: [u8; 4],
    /// The source's port.
    pub from_port: u16,
    /// The destination's port.
    pub to_port: u16,
    /// The data: the bytes after the UDP header, up to the UDP length.
    pub payload: &'a [u8],
}

const PROTOCOL_OF_UDP: u8 = 17;

const HEADER: usize = 8;

// The header and the data of a datagram, as its length field says.
fn octets_of(payload: &[u8]) -> Option<&[u8]>
    ensures octets { IfSome result (λ octets. octets.now
        ≡ take (spec.length_field payload.now) payload.now) }
    ensures is_there { is_some result ≡ spec.has_length payload.now }
{
    if payload.len() < HEADER {
        return None;
    }
    let end = usize::from(NetworkEndian::read_u16(&payload[4..]));
    if end < HEADER || payload.len() < end {
        return None;
    }
    Some(&payload[..end])
}

// Whether a datagram has no checksum or a right one.
fn is_sum_right(ip: &Ip<'_>, octets: &[u8]) -> bool
    requires { 8 ≤ length octets.now }
    ensures { result ≡ spec.is_sum_right ip.now.from ip.now.to ip.now.protocol octets.now }
{
    if NetworkEndian::read_u16(&octets[6..]) == 0 {
        return true;
    }
    let (header, data) = (&octets[..HEADER], &octets[HEADER..]);
    covered_sum(&ip.from, &ip.to, ip.protocol, header, data) == 0xffff
}

// The datagram in an IPv4 part.
fn read_ip<'a>(ip: &Ip<'a>) -> Result<Udp<'a>, Bad>
    ensures { spec.shown result ≡ spec.datagram_in (Some (plain ip.now)) }
{
    if ip.protocol != PROTOCOL_OF_UDP {
        return Err(Bad::Kind);
    }
    if !is_right(ip.header) {
        return Err(Bad::HeaderSum);
    }
    if ip.fragment {
        return Err(Bad::Fragment);
    }
    let Some(octets) = octets_of(ip.payload) else {
        return Err(Bad::Length);
    };
    if !is_sum_right(ip, octets) {
        return Err(Bad::DataSum);
    }
    Ok(Udp {
        from: ip.from,
        to: ip.to,
        from_port: NetworkEndian::read_u16(ip.payload),
        to_port: NetworkEndian::read_u16(&ip.payload[2..]),
        payload: &octets[HEADER..],
    })
}

/// Reads the UDP datagram of a frame that `read_frame` gave (RFC 768). It refuses, and in this order: with `Kind` a frame with no
/// IPv4 part or of another protocol than 17; with `HeaderSum` a wrong checksum of the IPv4 header; with `Fragment` a fragment;
/// with `Length` a payload under 8 bytes, or a UDP length under 8 or above the payload's; with `DataSum` a checksum field that
/// is not zero and not right.
pub fn read_udp<'a>(frame: &Frame<'a>) -> Result<Udp<'a>, Bad>
    ensures { spec.shown result ≡ spec.datagram_in (seen frame.now.ip) }
{
    match &frame.ip {
        Some(ip) => read_ip(ip),
        None => Err(Bad::Kind),
    }
}
