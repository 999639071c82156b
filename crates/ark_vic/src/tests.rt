use super::*;
use ark_base::Outcome;

/// A write of one block.
fn write(tag: u32) -> Descriptor {
    Descriptor {
        job: Job::Write,
        grant: 3,
        first: 0,
        count: 1,
        wrap: 0,
        from: 0,
        len: 0,
        tag,
        buf: None,
    }
}

#[test]
fn ends_the_oldest(rt: HostRuntime) {
    let mut ring = Ring::new(rt.alloc(), 2).expect(&rt, "a ring");
    assert!(rt; ring.post(write(1)).is_ok());
    assert!(rt; ring.post(write(2)).is_ok());
    assert!(rt; ring.is_full());
    assert!(rt; ring.post(write(3)).is_err());
    assert_eq!(rt; ring.posted(), 2);
    ring.advance();
    assert_eq!(rt; ring.moved(), 1);
    ring.finish(Outcome::Ok, 0);
    assert_eq!(rt; (ring.moved(), ring.unreaped(), ring.size()), (0, 1, 2));
    assert_eq!(rt; ring.head().map(|d| d.tag), Some(2));
    assert_eq!(rt; ring.reap().map(|c| c.tag), Some(1));
    assert!(rt; ring.reap().is_none());
}

#[test]
fn counts_and_paces(rt: HostRuntime) {
    let mut door = Door::new();
    door.ring(Bell::Tx);
    door.ring(Bell::Tx);
    door.ring(Bell::Io);
    let counts = door.look();
    assert_eq!(rt; (counts.rx, counts.tx, counts.io), (0, 2, 1));
    assert_eq!(rt; door.look().tx, 0);

    let mut rate = Rate::new(10, 100, 5);
    assert!(rt; rate.may(100, 5));
    rate.passed(100, 5);
    assert!(rt; !rate.may(1, 5));
    assert!(rt; rate.may(20, 7));
    assert!(rt; !rate.may(21, 7));
    assert!(rt; rate.may(100, u64::MAX));
    assert!(rt; !rate.may(101, u64::MAX));
    assert!(rt; rate.over_burst(101));
    assert!(rt; !rate.over_burst(100));
}
