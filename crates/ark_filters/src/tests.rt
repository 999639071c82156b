ghost use Rattle.ark_filters.specs.Filter.{Counted};
ghost use Rattle.ark_filters.specs.Rule.{IsServiceOf, IsRule};

use crate::{AddRule, Direction, Filter, Peers, Proto, Rules, Services, matches, overlaps};
use ark_packet::{Own, read_frame};

const OWN: Own = Own {
    mac: [2, 0, 0, 0, 0, 1],
    ip: [10, 0, 0, 1],
    gateway: [0; 6],
};

// The other end.
const SENDER: Own = Own {
    mac: [2, 0, 0, 0, 0, 2],
    ip: [10, 0, 0, 2],
    gateway: [0; 6],
};

// From port 7 of 10.0.0.2 to port 8080 of 10.0.0.1.
const DATAGRAM: [u8; 44] = [
    2, 0, 0, 0, 0, 1, 2, 0, 0, 0, 0, 2, 8, 0, 0x45, 0, 0, 0x1e, 0, 0, 0, 0, 64, 17, 0x66, 0xcd, 10,
    0, 0, 2, 10, 0, 0, 1, 0, 7, 0x1f, 0x90, 0, 10, 0x63, 0xd7, 0x68, 0x69,
];

// For every peer.
fn filter(direction: Direction, proto: Proto, first: u16, last: u16) -> Filter
    requires range { IsServiceOf proto (first, last) }
    ensures counted { Counted result }
    ensures rule { IsRule result }
{
    let mut services = [(0, 0); 8];
    services[0] = (first, last);
    Filter {
        direction,
        proto,
        peers: Peers {
            count: 0,
            items: [[0; 6]; 8],
        },
        services: Services {
            count: 1,
            items: services,
        },
    }
}

#[test]
fn a_datagram_comes_in(rt: HostRuntime) {
    let ports = filter(Direction::Rx, Proto::Udp, 8000, 8080);
    assert!(rt; matches(&ports, &read_frame(&DATAGRAM), &OWN));
}

#[test]
fn some_overlap(rt: HostRuntime) {
    let ports = filter(Direction::Rx, Proto::Udp, 100, 200);
    assert!(rt; overlaps(&ports, &filter(Direction::Rx, Proto::Udp, 200, 300)));
    assert!(rt; !overlaps(&ports, &filter(Direction::Rx, Proto::Udp, 201, 300)));
    assert!(rt; overlaps(&ports, &filter(Direction::Rx, Proto::Eth, 0x0800, 0x0800)));
    assert!(rt; overlaps(&ports, &filter(Direction::Rx, Proto::Ip, 17, 17)));
    assert!(rt; !overlaps(&ports, &filter(Direction::Rx, Proto::Tcp, 100, 200)));
}

#[test]
fn a_frame_finds_its_card(rt: HostRuntime) {
    let mut rules = Rules::new(rt.alloc()).expect(&rt, "rules");
    let frame = read_frame(&DATAGRAM);
    let ports = filter(Direction::Rx, Proto::Udp, 8000, 8080);
    assert_eq!(rt; rules.add(1, 5, ports), Ok(()));
    assert_eq!(rt; rules.add(2, 6, ports), Err(AddRule::Overlap(5)));
    assert_eq!(rt; rules.classify(&frame, &OWN), None);
    rules.assign(5, 9);
    assert_eq!(rt; rules.classify(&frame, &OWN), Some((1, 9)));
    assert!(rt; !rules.allows(9, &frame, &OWN));
    rules.unassign(9);
    assert_eq!(rt; rules.classify(&frame, &OWN), None);
    rules.remove(5);
    assert_eq!(rt; rules.add(2, 7, ports), Ok(()));
}

#[test]
fn a_card_sends_a_frame(rt: HostRuntime) {
    let mut rules = Rules::new(rt.alloc()).expect(&rt, "rules");
    let frame = read_frame(&DATAGRAM);
    let port = filter(Direction::Tx, Proto::Udp, 7, 7);
    assert_eq!(rt; rules.add(2, 6, port), Ok(()));
    assert!(rt; !rules.allows(8, &frame, &SENDER));
    rules.assign(6, 8);
    assert!(rt; rules.allows(8, &frame, &SENDER));
    assert!(rt; !rules.allows(9, &frame, &SENDER));
}
