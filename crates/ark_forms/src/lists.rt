//! The two lists of a filter: its peers and its services.

ghost use Rattle.std.specs.Prelude.{◌≡◌};
ghost use Rattle.std.specs.Option.{option_map};
ghost use Rattle.ark_script.specs.Lists.{peers_are, services_are};
ghost use Rattle.ark_script.specs.Words.{parts_of};
ghost use Rattle.ark_forms.specs.Listed.{peer_of, peers_of, each_of, port_of, range_of, service_of, services_of};
ghost use Rattle.ark_forms.specs.Reading.{number_of};

use crate::decimal::{ip, number};
use crate::digits::{frame_type, mac};
use crate::split::{one, two};
use ark_filters::{Peers, Proto, Services};

// A MAC address, or an IPv4 address with two zeros behind it.
#[tactic(auto, unfolding(crate::specs::Listed::peer_of))]
fn peer(word: &[u8], proto: Proto) -> Option<[u8; 6]>
    ensures { peer_of proto word.now ≡ result }
{
    match proto {
        Proto::Eth => mac(word),
        Proto::Ip | Proto::Udp | Proto::Tcp => {
            let [a, b, c, d] = ip(word)?;
            Some([a, b, c, d, 0, 0])
        }
    }
}

// At most eight peers with commas between them.
fn listed_peers(word: &[u8], proto: Proto) -> Option<Peers>
    ensures { option_map peers_are (each_of (peer_of proto) 8 (parts_of 44 word.now)) ≡ result }
{
    let mut items = [[0; 6]; 8];
    let mut count = 0;
    for part in word.split(|b| *b == b',') {
        if count == 8 {
            return None;
        }
        items[count] = peer(part, proto)?;
        count += 1;
    }
    Some(Peers {
        count: count as u8,
        items,
    })
}

/// At most eight peers with commas between them, or `*` for all.
#[tactic(auto, unfolding(crate::specs::Listed::peers_of))]
pub fn peers(word: &[u8], proto: Proto) -> Option<Peers>
    ensures { peers_of proto word.now ≡ result }
{
    if word == b"*".as_slice() {
        return Some(Peers {
            count: 0,
            items: [[0; 6]; 8],
        });
    }
    listed_peers(word, proto)
}

// A number that two bytes hold.
fn short(word: &[u8], low: u16, high: u16) -> Option<u16>
    ensures { number_of low high word.now ≡ result }
{
    match number(word, u64::from(low), u64::from(high)) {
        Some(n) => Some(n as u16),
        None => None,
    }
}

// One port.
#[tactic(auto, unfolding(crate::specs::Listed::port_of))]
fn port(word: &[u8]) -> Option<(u16, u16)>
    ensures { port_of word.now ≡ result }
{
    let port = one(word, b'-')?;
    let port = short(port, 0, u16::MAX)?;
    Some((port, port))
}

// A first and a last port.
#[tactic(auto, unfolding(crate::specs::Listed::range_of))]
fn range(word: &[u8]) -> Option<(u16, u16)>
    ensures { range_of word.now ≡ result }
{
    let (first, last) = two(word, b'-')?;
    let first = short(first, 0, u16::MAX)?;
    let last = short(last, first, u16::MAX)?;
    Some((first, last))
}

// A type, the number of a protocol, or one port or two with `-` between them.
#[tactic(auto, unfolding(crate::specs::Listed::service_of))]
fn service(word: &[u8], proto: Proto) -> Option<(u16, u16)>
    ensures { service_of proto word.now ≡ result }
{
    match proto {
        Proto::Eth => {
            let kind = frame_type(word)?;
            Some((kind, kind))
        }
        Proto::Ip => {
            let protocol = short(word, 0, 255)?;
            Some((protocol, protocol))
        }
        Proto::Udp | Proto::Tcp => match port(word) {
            Some(port) => Some(port),
            None => range(word),
        },
    }
}

// At most eight services with commas between them.
fn listed_services(word: &[u8], proto: Proto) -> Option<Services>
    ensures { option_map services_are
        (each_of (service_of proto) 8 (parts_of 44 word.now)) ≡ result }
{
    let mut items = [(0, 0); 8];
    let mut count = 0;
    for part in word.split(|b| *b == b',') {
        if count == 8 {
            return None;
        }
        items[count] = service(part, proto)?;
        count += 1;
    }
    Some(Services {
        count: count as u8,
        items,
    })
}

/// At most eight services with commas between them, or `*` for all.
#[tactic(auto, unfolding(crate::specs::Listed::services_of))]
pub fn services(word: &[u8], proto: Proto) -> Option<Services>
    ensures { services_of proto word.now ≡ result }
{
    if word == b"*".as_slice() {
        return Some(Services {
            count: 0,
            items: [(0, 0); 8],
        });
    }
    listed_services(word, proto)
}
