use crate::runs::run;
use ark_base::Status;
use ark_memory::{Event, Fail};
use std::alloc::Global;
use std::test::Fail as Failure;

/// The superblock of a device of 200 blocks, without the zeros at its end.
const SUPERBLOCK: &[u8] = b"ARRAKIS1\0\0\0\0\0\0\0\xc8\0\x80";

// The image of a device of 200 blocks, all zero but what it begins with.
fn image_of(alloc: Global, start: &[u8]) -> Result<Vec<u8>, Failure> {
    let mut image = Vec::from_slice(alloc, start)?;
    image.resize(102_400, 0)?;
    Ok(image)
}

// A fresh device and an empty script: one write of the superblock, and one sync.
#[test]
fn formats_a_device(rt: HostRuntime) -> Result<(), Failure> {
    let done = run(rt.alloc(), b"", &[])?;
    assert_eq!(rt; done.status, Status::Done);
    assert_eq!(rt; done.world.out(), b"ready 200 0\n".as_slice());
    assert_eq!(rt; done.world.events(), 3);
    assert!(rt;
        matches!(
            done.world.event(0),
            Some(Event::Write {
                n: 0,
                took: true,
                ok: true,
                ..
            })
        )
    );
    assert!(rt; matches!(done.world.event(1), Some(Event::Sync { ok: true })));
    let image = image_of(rt.alloc(), SUPERBLOCK)?;
    assert!(rt; done.world.image() == image.as_slice());
    Ok(())
}

// A write of the superblock that fails leaves it, or none.
#[test]
fn leaves_a_superblock_or_none(rt: HostRuntime) -> Result<(), Failure> {
    for (took, start) in [(false, b"".as_slice()), (true, SUPERBLOCK)] {
        let plan = [Fail {
            call: 1,
            took,
            part: 0,
        }];
        let done = run(rt.alloc(), b"app a\n", &plan)?;
        let image = image_of(rt.alloc(), start)?;
        assert!(rt; done.world.image() == image.as_slice());
    }
    Ok(())
}
