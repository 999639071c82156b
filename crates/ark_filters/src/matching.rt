ghost use Rattle.std.specs.Prelude.{◌≡◌, ◌≤◌, List, ℕ};
ghost use Rattle.ark_packet.specs.Ip.{plain, seen};
ghost use Rattle.ark_packet.specs.Frame.{ReadsFrame};
ghost use Rattle.ark_filters.specs.Filter.{Counted};
ghost use Rattle.ark_filters.specs.Layer.{layer_of};
ghost use Rattle.ark_filters.specs.In as spec;

use crate::filter::{Direction, Filter};
use crate::layer::Layer;
use ark_packet::{Frame, Ip, Own};
use byteorder::{ByteOrder, NetworkEndian};

// Whether the own side's address is the own one, and the peer's is one of the peers.
fn addresses_match(filter: &Filter, ip: &Ip<'_>, own: &Own) -> bool
    requires counted { Counted filter.now }
    ensures matched { result ≡ spec.addresses_match filter.now (plain ip.now) own.now }
{
    let (own_side, peer) = match filter.direction {
        Direction::Rx => (ip.to, ip.from),
        Direction::Tx => (ip.from, ip.to),
    };
    let [a, b, c, d] = peer;
    own_side == own.ip && filter.peers.hold(&[a, b, c, d, 0, 0])
}

// Whether the datagram is whole, of this protocol, with its header, and the own side's port is one of the services.
fn ports_match(filter: &Filter, ip: &Ip<'_>, protocol: u8, header: usize) -> bool
    requires counted { Counted filter.now }
    requires header { 4 ≤ header }
    ensures matched { result ≡ spec.ports_match filter.now (plain ip.now) protocol header }
{
    if ip.protocol != protocol || ip.fragment || ip.payload.len() < header {
        return false;
    }
    let port = match filter.direction {
        Direction::Rx => NetworkEndian::read_u16(&ip.payload[2..]),
        Direction::Tx => NetworkEndian::read_u16(ip.payload),
    };
    filter.services.hold(port)
}

// Whether an IPv4 part is what a filter looks for.
fn ip_matches(filter: &Filter, ip: &Ip<'_>, own: &Own) -> bool
    requires counted { Counted filter.now }
    ensures matched { result
        ≡ spec.packet_matches filter.now (layer_of filter.now.proto) (plain ip.now) own.now }
{
    match filter.proto.layer() {
        Layer::Types => false,
        Layer::Protocols => addresses_match(filter, ip, own)
            && filter.services.hold(u16::from(ip.protocol)),
        Layer::Ports { number, least } => addresses_match(filter, ip, own)
            && ports_match(filter, ip, number, least),
    }
}

// Whether there is an IPv4 part, and it is what a filter looks for.
fn has_match(filter: &Filter, ip: &Option<Ip<'_>>, own: &Own) -> bool
    requires counted { Counted filter.now }
    ensures matched { result
        ≡ spec.some_packet_matches filter.now (layer_of filter.now.proto) (seen ip.now) own.now }
{
    match ip {
        Some(ip) => ip_matches(filter, ip, own),
        None => false,
    }
}

// Whether a frame's parts are what a filter looks for.
fn parts_match(filter: &Filter, frame: &Frame<'_>, own: &Own) -> bool
    requires counted { Counted filter.now }
    ensures matched { result
        ≡ spec.parts_match filter.now frame.now.from frame.now.to frame.now.proto
        (seen frame.now.ip) own.now }
{
    let (own_side, peer) = match filter.direction {
        Direction::Rx => (frame.to, frame.from),
        Direction::Tx => (frame.from, frame.to),
    };
    if own_side != own.mac {
        return false;
    }
    match filter.proto.layer() {
        Layer::Types => filter.peers.hold(&peer) && filter.services.hold(frame.proto),
        Layer::Protocols | Layer::Ports { .. } => has_match(filter, &frame.ip, own),
    }
}

/// Whether a frame that `read_frame` gave matches a filter. The own side, which is the destination under a receive filter and
/// the source under a transmit filter, has the own MAC address. Under `Eth` the peer's MAC address is one of the peers and the
/// type one of the services. Under the others there is an IPv4 part, the own side has the own address and the peer's is one of
/// the peers; under `Ip` the protocol is one of the services; under `Udp` and `Tcp` the protocol is 17 or 6, it is no fragment,
/// the payload has 8 or 20 bytes at least, and the own side's port is one of the services. Checksums are not looked at.
pub fn matches(filter: &Filter, frame: &Frame<'_>, own: &Own) -> bool
    requires counted { Counted filter.now }
    ensures matched { (bytes : List ℕ) → ReadsFrame bytes frame.now
        → result ≡ spec.is_in filter.now bytes own.now }
    ensures read { result ≡ spec.frame_matches filter.now frame.now own.now }
{
    parts_match(filter, frame, own)
}
