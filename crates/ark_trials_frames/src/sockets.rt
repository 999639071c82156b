ghost use Rattle.std.specs.Prelude.{◌≡◌, ◌≤◌, []};

use ark_packet::Own;
use ark_region::Region;
use ark_udp::{BindFault, Peer, SendFault, Sockets};
use ark_vic::{Descriptor, Job};
use ark_vnic::{Arrived, Vnic};
use std::alloc::Global;

const OWN: Own = Own {
    mac: [2, 0, 0, 0, 0, 1],
    ip: [192, 168, 0, 199],
    gateway: [2, 0, 0, 0, 0, 2],
};

// From port 5000 of 192.168.0.1 to port 100 of 192.168.0.199, with no UDP checksum and 87 bytes behind this.
const HEAD: [u8; 42] = [
    2, 0, 0, 0, 0, 1, 2, 0, 0, 0, 0, 2, 8, 0, 0x45, 0, 0, 0x73, 0, 0, 0x40, 0, 0x40, 0x11, 0xb8,
    0x61, 192, 168, 0, 1, 192, 168, 0, 199, 0x13, 0x88, 0, 100, 0, 0x5f, 0, 0,
];

// That datagram's frame, its payload zeros behind this byte.
fn frame_with(first: u8) -> [u8; 129] {
    let mut frame = [0; 129];
    frame[..42].copy_from_slice(&HEAD);
    frame[42] = first;
    frame
}

// Lets the sockets have a frame that a card received; whether it did.
fn receive(alloc: Global, sockets: &mut Sockets, frame: &[u8; 129]) -> Option<()> {
    let mut region = Region::new(alloc, 3).ok()?;
    let buf = region.take(1514)?;
    let mut card = Vnic::new(alloc, 3, 2, 2).ok()?;
    let receiving = Descriptor {
        job: Job::Receive,
        grant: 0,
        first: 0,
        count: 0,
        wrap: 0,
        from: 0,
        len: 0,
        tag: 0,
        buf: Some(buf),
    };
    card.rx_mut().post(receiving).ok()?;
    if card.arrive(frame, &mut region, 0) != Arrived::Into {
        return None;
    }
    sockets.pull(&mut card, &region, &OWN);
    Some(())
}

#[test]
fn keeps_eight(rt: HostRuntime) {
    let mut sockets = Sockets::new(rt.alloc()).expect(&rt, "sockets");
    assert!(rt; sockets.bind(100).is_ok());
    assert_eq!(rt; sockets.bind(100).err(), Some(BindFault::Taken));
    for first in 1..10 {
        assert!(rt; receive(rt.alloc(), &mut sockets, &frame_with(first)).is_some());
    }
    let peer = Peer {
        ip: [192, 168, 0, 1],
        port: 5000,
    };
    let mut out = [9; 1472];
    for first in 1..9 {
        assert_eq!(rt; sockets.recv(100, &mut out), Some((peer, 87)));
        assert_eq!(rt; (out[0], out[86], out[87]), (first, 0, 9));
    }
    assert_eq!(rt; sockets.recv(100, &mut out), None);
    sockets.unbind(100);
    assert_eq!(rt; sockets.count(), 0);
}

#[test]
fn drops_all_else(rt: HostRuntime) {
    let mut sockets = Sockets::new(rt.alloc()).expect(&rt, "sockets");
    assert!(rt; sockets.bind(100).is_ok());
    assert!(rt; sockets.bind(101).is_ok());
    let mut out = [9; 1472];
    for (at, byte) in [
        (12, 0x86),
        (23, 6),
        (25, 0x62),
        (33, 198),
        (37, 102),
        (39, 7),
        (41, 1),
    ] {
        let mut frame = frame_with(1);
        frame[at] = byte;
        assert!(rt; receive(rt.alloc(), &mut sockets, &frame).is_some());
        assert_eq!(rt; sockets.recv(100, &mut out), None);
    }
    let mut frame = frame_with(1);
    frame[37] = 101;
    assert!(rt; receive(rt.alloc(), &mut sockets, &frame).is_some());
    assert_eq!(rt; sockets.recv(100, &mut out), None);
    assert!(rt; sockets.recv(101, &mut out).is_some());
}

// Why a datagram to port 7 of 10.0.0.2 is not posted, if it is not.
fn send(sockets: &Sockets, card: &mut Vnic, region: &mut Region) -> Option<SendFault>
    requires reaped { card.old.tx.unreaped ≡ [] }
    ensures reaped { card.new.tx.unreaped ≡ [] }
{
    let to = Peer {
        ip: [10, 0, 0, 2],
        port: 7,
    };
    sockets.send_to(card, region, &OWN, 100, to, b"hi").err()
}

// Why each of three datagrams is not posted, in a region of so many frames, and the length of the first that is.
fn send_three(alloc: Global, frames: u32) -> Option<([Option<SendFault>; 3], Option<u32>)>
    requires { frames ≤ 3 }
{
    let sockets = Sockets::new(alloc).ok()?;
    let mut region = Region::new(alloc, frames).ok()?;
    let mut card = Vnic::new(alloc, 3, 2, 2).ok()?;
    let first = send(&sockets, &mut card, &mut region);
    let second = send(&sockets, &mut card, &mut region);
    let third = send(&sockets, &mut card, &mut region);
    let len = card.tx().head().map(|posted| posted.len);
    Some(([first, second, third], len))
}

#[test]
fn sends_by_the_ring(rt: HostRuntime) {
    let full = Some(SendFault::RingFull);
    let none = Some(SendFault::NoBuffer);
    assert_eq!(rt;
        send_three(rt.alloc(), 3),
        Some(([None, None, full], Some(44)))
    );
    assert_eq!(rt;
        send_three(rt.alloc(), 1),
        Some(([None, none, none], Some(44)))
    );
}
