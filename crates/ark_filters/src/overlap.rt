ghost use Rattle.std.specs.Prelude.{◌≡◌, ◌↔◌, IsTrue};
ghost use Rattle.ark_packet.specs.declared.own.Own.{Own};
ghost use Rattle.ark_filters.specs.Filter.{Counted};
ghost use Rattle.ark_filters.specs.Overlap.{Overlaps, meets, both_meet, protocol_meets};
ghost use Rattle.ark_filters.specs.Rule.{IsReceiveRule, IsOwn};

use crate::filter::Filter;
use crate::layer::Layer;

const TYPE_OF_IPV4: u16 = 0x0800;

// Whether peers and services have one in common.
fn lists_meet(a: &Filter, b: &Filter) -> bool
    requires first { Counted a.now }
    requires second { Counted b.now }
    ensures met { result ≡ both_meet a.now b.now }
{
    a.peers.meet(&b.peers) && a.services.meet(&b.services)
}

// Whether peers have one in common, and the protocol is one of the first filter's services.
fn takes_protocol(a: &Filter, b: &Filter, protocol: u8) -> bool
    requires first { Counted a.now }
    requires second { Counted b.now }
    ensures met { result ≡ protocol_meets a.now b.now protocol }
{
    a.peers.meet(&b.peers) && a.services.hold(u16::from(protocol))
}

// Whether the lists of two receive filters meet.
fn filters_meet(a: &Filter, b: &Filter) -> bool
    requires first { Counted a.now }
    requires second { Counted b.now }
    ensures met { result ≡ meets a.now b.now }
{
    match (a.proto.layer(), b.proto.layer()) {
        (Layer::Types, Layer::Types) => lists_meet(a, b),
        (Layer::Types, _) => a.services.hold(TYPE_OF_IPV4),
        (_, Layer::Types) => b.services.hold(TYPE_OF_IPV4),
        (Layer::Protocols, Layer::Protocols) => lists_meet(a, b),
        (Layer::Protocols, Layer::Ports { number, .. }) => takes_protocol(a, b, number),
        (Layer::Ports { number, .. }, Layer::Protocols) => takes_protocol(b, a, number),
        (Layer::Ports { number: one, .. }, Layer::Ports { number: other, .. }) => {
            one == other && lists_meet(a, b)
        }
    }
}

/// Whether two receive filters overlap: some frame matches both, whatever the addresses of this end. It compares the lists of
/// peers and services, and makes no frame.
pub fn overlaps(a: &Filter, b: &Filter) -> bool
    requires first { Counted a.now }
    requires second { Counted b.now }
    ensures lists { result ≡ meets a.now b.now }
    // For filters that a line can give, the lists tell of frames.
    ensures frames { (own : Own) → IsReceiveRule a.now → IsReceiveRule b.now → IsOwn own
        → IsTrue result ↔ Overlaps a.now b.now own }
{
    filters_meet(a, b)
}
