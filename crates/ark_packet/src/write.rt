ghost use Rattle.std.specs.Prelude.{◌≡◌, ◌≤◌, ◌+◌, ◌++◌, ◌∷◌, [], length, take, drop, Ok};
ghost use Rattle.std.specs.Int.{w16, to_be_bytes};
ghost use Rattle.ark_packet.specs.Frame.{packet_in, source_of, target_of};
ghost use Rattle.ark_packet.specs.Udp.{datagram_in};
ghost use Rattle.ark_packet.specs.Wire.{IsAddress};
ghost use Rattle.ark_packet.specs.Written as spec;

use crate::cover::covered_sum;
use crate::own::Own;
use crate::sum::checksum;
use byteorder::{ByteOrder, NetworkEndian};

const PROTOCOL_OF_UDP: u8 = 17;

const ALL_ONES: u16 = 0xffff;

// Writes the bytes from a place on, and gives the place after them.
fn put(out: &mut [u8], at: usize, bytes: &[u8]) -> usize
    requires { at + length bytes.now ≤ length out.old }
    ensures end { result ≡ at + length bytes.now }
    ensures before { take result out.new ≡ take at out.old ++ bytes.now }
    ensures after { drop result out.new ≡ drop result out.old }
{
    let end = at + bytes.len();
    out[at..end].copy_from_slice(bytes);
    end
}

// Writes a number in two octets from a place on, and gives the place after them.
fn put_number(out: &mut [u8], at: usize, number: u16) -> usize
    requires { at + 2 ≤ length out.old }
    ensures end { result ≡ at + 2 }
    ensures before { take result out.new ≡ take at out.old ++ to_be_bytes w16 number }
    ensures after { drop result out.new ≡ drop result out.old }
{
    let mut octets = [0; 2];
    NetworkEndian::write_u16(&mut octets, number);
    put(out, at, &octets)
}

// An IPv4 header with this total length and this checksum.
fn ip_header(total: u16, sum: u16, from: &[u8; 4], to: &[u8; 4]) -> [u8; 20]
    ensures { result ≡ spec.ip_header total sum from.now to.now }
{
    let mut header = [0; 20];
    let at = put(&mut header, 0, &[0x45, 0]);
    let at = put_number(&mut header, at, total);
    let at = put(&mut header, at, &[0, 0, 0, 0, 64, PROTOCOL_OF_UDP]);
    let at = put_number(&mut header, at, sum);
    let at = put(&mut header, at, from);
    let _ = put(&mut header, at, to);
    header
}

// An IPv4 header with this total length and the right checksum.
fn right_ip_header(total: u16, from: &[u8; 4], to: &[u8; 4]) -> [u8; 20]
    ensures { result ≡ spec.right_ip_header total from.now to.now }
{
    let sum = checksum(&ip_header(total, 0, from, to));
    ip_header(total, sum, from, to)
}

// A UDP header with this length and this checksum.
fn udp_header(from_port: u16, to_port: u16, length: u16, sum: u16) -> [u8; 8]
    ensures { result ≡ spec.udp_header from_port to_port length sum }
{
    let mut header = [0; 8];
    let at = put_number(&mut header, 0, from_port);
    let at = put_number(&mut header, at, to_port);
    let at = put_number(&mut header, at, length);
    let _ = put_number(&mut header, at, sum);
    header
}

// The checksum of a datagram with this header, whose own field is zero.
fn udp_sum(from: &[u8; 4], to: &[u8; 4], header: &[u8; 8], payload: &[u8]) -> u16
    ensures sum { result ≡ spec.udp_sum from.now to.now header.now payload.now }
    ensures from { IsAddress from.now }
    ensures to { IsAddress to.now }
{
    let sum = ALL_ONES - covered_sum(from, to, PROTOCOL_OF_UDP, header, payload);
    if sum == 0 { ALL_ONES } else { sum }
}

// The two MAC addresses and the type of a frame to the gateway.
fn link_header(gateway: &[u8; 6], mac: &[u8; 6]) -> [u8; 14]
    ensures octets { result ≡ gateway.now ++ (mac.now ++ (8 ∷ (0 ∷ []))) }
    ensures gateway_length { length gateway.now ≡ 6 }
    ensures mac_length { length mac.now ≡ 6 }
{
    let [g0, g1, g2, g3, g4, g5] = *gateway;
    let [m0, m1, m2, m3, m4, m5] = *mac;
    [g0, g1, g2, g3, g4, g5, m0, m1, m2, m3, m4, m5, 8, 0]
}

/// Writes the frame of a UDP datagram to the front of `out`, and gives its length: 42 bytes and the payload. It goes from the
/// own address to `to`, by the gateway: an Ethernet header, an IPv4 header of 20 bytes with time to live 64, no options and
/// the right checksum (RFC 791, section 3.1), a UDP header with the right checksum, where a computed zero is sent as `0xffff`
/// (RFC 768), and the payload. The rest of `out` stays.
pub fn write_udp(
    out: &mut [u8],
    own: &Own,
    from_port: u16,
    to: [u8; 4],
    to_port: u16,
    payload: &[u8],
) -> usize
    requires room { 42 + length payload.now ≤ length out.old }
    requires at_most { length payload.now ≤ 1472 }
    ensures end { result ≡ 42 + length payload.now }
    ensures written { take result out.new
        ≡ spec.frame_of own.now (record {
          from = own.now.ip;
          to = to;
          from_port = from_port;
          to_port = to_port;
          payload = payload.now;
        }) }
    ensures rest { drop result out.new ≡ drop result out.old }
    ensures target { target_of (take result out.new) ≡ own.now.gateway }
    ensures source { source_of (take result out.new) ≡ own.now.mac }
    ensures read_back { datagram_in (packet_in (take result out.new))
        ≡ Ok (record {
          from = own.now.ip;
          to = to;
          from_port = from_port;
          to_port = to_port;
          payload = payload.now;
        }) }
{
    let length = payload.len() as u16;
    let link = link_header(&own.gateway, &own.mac);
    let ip = right_ip_header(28 + length, &own.ip, &to);
    let bare = udp_header(from_port, to_port, 8 + length, 0);
    let sum = udp_sum(&own.ip, &to, &bare, payload);
    let at = put(out, 0, &link);
    let at = put(out, at, &ip);
    let at = put(out, at, &udp_header(from_port, to_port, 8 + length, sum));
    put(out, at, payload)
}
