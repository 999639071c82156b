use super::MemoryWorld;
use crate::event::Event;
use crate::schedule::Fail;
use ark_media::{AttachFailed, Disk, DiskFailed, Outside, SinkFailed};

#[test]
fn attaches_whole_blocks_and_shows_events(rt: HostRuntime) {
    let made = MemoryWorld::new(rt.alloc(), &[7; 1030], 130, b"hello", &[], 6, 9);
    let mut world = made.expect(&rt, "memory");
    let mut script = [0; 8];
    assert_eq!(rt; world.fetch(&mut script), Ok(5));
    assert_eq!(rt; world.attach("a"), Ok(()));
    assert_eq!(rt; world.blocks(), 2);
    assert_eq!(rt; world.write(1, &[9; 512]), Ok(()));
    let mut out = [0; 512];
    assert_eq!(rt; world.read(1, &mut out), Ok(()));
    assert_eq!(rt; out[511], 9);
    assert_eq!(rt; world.sync(), Ok(()));
    assert_eq!(rt; world.put(b"done"), Ok(()));
    assert_eq!(rt; world.out(), b"done".as_slice());
    assert_eq!(rt; world.image().len(), 1024);
    assert_eq!(rt; world.image()[511..513], [7, 9][..]);
    assert_eq!(rt; world.events(), 4);
    assert!(rt;
        matches!(
            world.event(0),
            Some(Event::Write {
                n: 1,
                took: true,
                ok: true,
                ..
            })
        )
    );
    assert!(rt; matches!(world.event(3), Some(Event::Out { .. })));
    assert!(rt; world.event(4).is_none());
}

#[test]
fn fails_as_planned(rt: HostRuntime) {
    let plan = [
        Fail {
            call: 1,
            took: true,
            part: 0,
        },
        Fail {
            call: 2,
            took: false,
            part: 0,
        },
        Fail {
            call: 3,
            took: false,
            part: 2,
        },
    ];
    let made = MemoryWorld::new(rt.alloc(), &[], 130, b"", &plan, 6, 4);
    let mut world = made.expect(&rt, "memory");
    assert_eq!(rt; world.make("a", 130), Ok(()));
    assert_eq!(rt; world.write(0, &[1; 512]), Err(DiskFailed));
    assert_eq!(rt; world.write(1, &[1; 512]), Err(DiskFailed));
    assert_eq!(rt; world.image().len(), 66560);
    assert_eq!(rt; world.image()[511..513], [1, 0][..]);
    assert_eq!(rt; world.put(b"abcd"), Err(SinkFailed));
    assert_eq!(rt; world.out(), b"ab".as_slice());
    assert_eq!(rt; world.put(b"cde"), Err(SinkFailed));
    assert_eq!(rt; world.out(), b"abcd".as_slice());
    assert_eq!(rt; world.make("a", 131), Err(AttachFailed));
    assert_eq!(rt; world.sync(), Err(DiskFailed));
    assert_eq!(rt; world.events(), 4);
}
