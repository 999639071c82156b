ghost use Rattle.std.specs.Prelude.{◌≡◌, ◌≤◌, length};
ghost use Rattle.ark_packet.specs.Frame.{IsFrame, packet_under, proto_of, source_of, target_of, packet_in};
ghost use Rattle.ark_packet.specs.Ip.{packet_of, seen};
ghost use Rattle.ark_packet.specs.Ip as spec;

use crate::wire::{read_address, read_mac};
use byteorder::{ByteOrder, NetworkEndian};

/// The IPv4 part of a frame. The octets are those of the wire, in its order.
#[derive(Clone, Copy, Debug)]
pub struct Ip<'a> {
    /// The source address.
    pub from: [u8; 4],
    /// The destination address.
    pub to: [u8; 4],
    /// The number of the protocol of the payload; UDP is 17.
    pub protocol: u8,
    /// Whether the datagram is one of several fragments (RFC 791, section 3.1: more fragments follow, or an offset).
    pub fragment: bool,
    /// The octets of the IPv4 header, its options among them: 20 to 60, a multiple of 4.
    pub header: &'a [u8],
    /// The octets after the header, up to the total length. Those after it are padding, and in no field.
    pub payload: &'a [u8],
}

/// A frame of Ethernet.
#[derive(Clone, Copy, Debug)]
pub struct Frame<'a> {
    /// The destination's MAC address.
    pub to: [u8; 6],
    /// The source's MAC address.
    pub from: [u8; 6],
    /// The type field; IPv4 is `0x0800`.
    pub proto: u16,
    /// The IPv4 part, where there is one.
    pub ip: Option<Ip<'a>>,
}

const TYPE_OF_IPV4: u16 = 0x0800;

const LEAST_HEADER: usize = 20;

// Whether an IPv4 header says that more fragments follow, or that this one has an offset.
fn is_fragment(header: &[u8]) -> bool
    requires { 20 ≤ length header.now }
    ensures { result ≡ spec.is_fragment header.now }
{
    let field = NetworkEndian::read_u16(&header[6..]);
    field / 0x2000 % 2 == 1 || field % 0x2000 != 0
}

// The IPv4 part in what follows a frame's type.
fn read_ip(bytes: &[u8]) -> Option<Ip<'_>>
    ensures { seen result ≡ packet_of bytes.now }
{
    if bytes.len() < LEAST_HEADER {
        return None;
    }
    let version = bytes[0] / 16;
    let header_end = usize::from(bytes[0] % 16) * 4;
    let end = usize::from(NetworkEndian::read_u16(&bytes[2..]));
    if version != 4 || header_end < LEAST_HEADER || end < header_end || bytes.len() < end {
        return None;
    }
    Some(Ip {
        from: read_address(bytes, 12),
        to: read_address(bytes, 16),
        protocol: bytes[9],
        fragment: is_fragment(bytes),
        header: &bytes[..header_end],
        payload: &bytes[header_end..end],
    })
}

// The IPv4 part in what follows a frame's type, where it is that of IPv4.
fn read_ip_of(proto: u16, bytes: &[u8]) -> Option<Ip<'_>>
    ensures { seen result ≡ packet_under proto bytes.now }
{
    if proto == TYPE_OF_IPV4 {
        read_ip(bytes)
    } else {
        None
    }
}

/// Reads a frame of 14 to 1,514 bytes: destination and source MAC address, type, and the IPv4 part. It has an IPv4 part exactly
/// where the type is `0x0800` and what follows it begins with a header of version 4 of at least 20 bytes whose total length
/// covers the header and stays in the frame (RFC 791, section 3.1). The checksum is not looked at.
pub fn read_frame(bytes: &[u8]) -> Frame<'_>
    requires at_least { 14 ≤ length bytes.now }
    requires at_most { length bytes.now ≤ 1514 }
    ensures to { result.to ≡ target_of bytes.now }
    ensures from { result.from ≡ source_of bytes.now }
    ensures proto { result.proto ≡ proto_of bytes.now }
    ensures ip { seen result.ip ≡ packet_in bytes.now }
    ensures frame { IsFrame result }
{
    let proto = NetworkEndian::read_u16(&bytes[12..]);
    Frame {
        to: read_mac(bytes, 0),
        from: read_mac(bytes, 6),
        proto,
        ip: read_ip_of(proto, &bytes[14..]),
    }
}
