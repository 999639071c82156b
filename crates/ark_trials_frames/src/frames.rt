ghost use Rattle.std.specs.Prelude.{◌≡◌, ◌≤◌, length};
ghost use Rattle.ark_filters.specs.Rule.{IsRule};

use ark_base::Outcome;
use ark_filters::{Direction, Filter, Peers, Proto, Rules, Services};
use ark_packet::Own;
use ark_region::Region;
use ark_vic::{Descriptor, Job, Rate};
use ark_vnic::{Arrived, Sent, Vnic};
use std::alloc::Global;

const OWN: Own = Own {
    mac: [2, 0, 0, 0, 0, 1],
    ip: [10, 0, 0, 1],
    gateway: [2, 0, 0, 0, 0, 2],
};

// A frame's head: from this end, of a type that nobody has.
const HEAD: [u8; 14] = [2, 0, 0, 0, 0, 2, 2, 0, 0, 0, 0, 1, 0x88, 0xb5];

// A filter of all frames of Ethernet.
fn every_frame(direction: Direction) -> Filter
    ensures rule { IsRule result }
{
    Filter {
        direction,
        proto: Proto::Eth,
        peers: Peers {
            count: 0,
            items: [[0; 6]; 8],
        },
        services: Services {
            count: 0,
            items: [(0, 0); 8],
        },
    }
}

// One filter, which is assigned to the card of a grant.
fn rules_with(alloc: Global, direction: Direction, vnic: u64) -> Option<Rules> {
    let mut rules = Rules::new(alloc).ok()?;
    rules.add(0, 1, every_frame(direction)).ok()?;
    rules.assign(1, vnic);
    Some(rules)
}

// What the first move at tick 5 comes to of a frame of so many bytes, and how its descriptor ends.
fn first_move(
    alloc: Global,
    rules: &Rules,
    rate: Option<Rate>,
    len: u32,
    out: &mut [u8],
) -> Option<(Sent, Option<Outcome>)>
    requires at_least { 14 ≤ len }
    requires at_most { len ≤ 1514 }
    requires room { 1514 ≤ length out.old }
{
    let mut region = Region::new(alloc, 3).ok()?;
    let buf = region.take(len)?;
    region.bytes_mut(&buf).fill(7);
    region.part_mut(&buf, 0, 14).copy_from_slice(&HEAD);
    let mut card = Vnic::new(alloc, 3, 2, 2).ok()?;
    card.pace_tx(rate);
    let sending = Descriptor {
        job: Job::Send,
        grant: 0,
        first: 0,
        count: 0,
        wrap: 0,
        from: 0,
        len,
        tag: 0,
        buf: Some(buf),
    };
    card.tx_mut().post(sending).ok()?;
    let sent = card.move_one(rules, &OWN, &region, 5, out);
    Some((sent, card.tx_mut().reap().map(|done| done.outcome)))
}

#[test]
fn goes_out_by_its_filter(rt: HostRuntime) {
    for (direction, vnic, answer) in [
        (Direction::Tx, 3, (Sent::Frame(60), Some(Outcome::Ok))),
        (Direction::Tx, 4, (Sent::NoFilter, Some(Outcome::NoFilter))),
        (Direction::Rx, 3, (Sent::NoFilter, Some(Outcome::NoFilter))),
    ] {
        let rules = rules_with(rt.alloc(), direction, vnic).expect(&rt, "rules");
        let mut out = [9; 1514];
        let moved = first_move(rt.alloc(), &rules, None, 60, &mut out);
        assert_eq!(rt; moved, Some(answer));
        let shown = if answer.0 == Sent::Frame(60) { 7 } else { 9 };
        assert_eq!(rt; (out[59], out[60]), (shown, 9));
    }
}

#[test]
fn goes_out_in_its_pace(rt: HostRuntime) {
    let rules = rules_with(rt.alloc(), Direction::Tx, 3).expect(&rt, "rules");
    for (passed, len, answer) in [
        (0, 300, (Sent::Frame(300), Some(Outcome::Ok))),
        (0, 301, (Sent::OverBurst, Some(Outcome::OverBurst))),
        (200, 100, (Sent::Frame(100), Some(Outcome::Ok))),
        (200, 101, (Sent::Held, None)),
        (300, 60, (Sent::Held, None)),
    ] {
        let mut rate = Rate::new(100, 300, 5);
        if rate.may(passed, 5) {
            rate.passed(passed, 5);
        }
        let mut out = [9; 1514];
        let moved = first_move(rt.alloc(), &rules, Some(rate), len, &mut out);
        assert_eq!(rt; moved, Some(answer));
    }
}

// What becomes of the first frame that arrives, at tick 5, and the byte of the buffer behind it.
fn first_arrival(
    alloc: Global,
    room: u32,
    rate: Option<Rate>,
    frame: &[u8],
) -> Option<(Arrived, Option<u32>, bool)>
    requires at_most { length frame.now ≤ 1514 }
{
    let mut region = Region::new(alloc, 3).ok()?;
    let mut card = Vnic::new(alloc, 3, 2, 2).ok()?;
    card.pace_rx(rate);
    if room > 0 {
        let buf = region.take(room)?;
        region.bytes_mut(&buf).fill(1);
        let receiving = Descriptor {
            job: Job::Receive,
            grant: 0,
            first: 0,
            count: 0,
            wrap: 0,
            from: 0,
            len: 0,
            tag: 0,
            buf: Some(buf),
        };
        card.rx_mut().post(receiving).ok()?;
    }
    let arrived = card.arrive(frame, &mut region, 5);
    let len = card.rx_mut().reap().map(|done| done.len);
    Some((arrived, len, region.whole_mut().starts_with(frame)))
}

#[test]
fn arrives_each_way(rt: HostRuntime) {
    let frame = [7; 60];
    for (room, burst, answer) in [
        (0, 60, (Arrived::NoBuffer, None, false)),
        (59, 60, (Arrived::TooLong, None, false)),
        (60, 59, (Arrived::Throttled, None, false)),
        (60, 60, (Arrived::Into, Some(60), true)),
        (61, 61, (Arrived::Into, Some(60), true)),
    ] {
        let rate = Some(Rate::new(1, burst, 5));
        assert_eq!(rt; first_arrival(rt.alloc(), room, rate, &frame), Some(answer));
    }
}
