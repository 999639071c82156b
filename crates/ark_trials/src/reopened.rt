//! Devices that are opened again: what an earlier run left, and devices that are damaged.

use crate::runs::{run, run_on};
use ark_base::Status;
use ark_memory::Fail;
use std::alloc::Global;
use std::test::Fail as Failure;

/// Runs one after another, each on the device that the one before left.
pub(crate) const REOPENED: &str = "\
run,--new,200,d => ready 200 0
app a => ok
vsa a s 2 raw => ok
poke a s 1 07 => ok
app b => ok
vsa b q 3 queue => ok
vsa b l 4 log => ok

run,d => ready 200 3
peek a s 1 => refused 3 no application
app a => ok
peek a s 1 => ok 07
peek a s 0 => ok -
peek a s 2 => refused 9 out of range
peek a q 0 => refused 5 no grant q
vsa a s 1 raw => refused 4 name taken
vsa a t 63 raw => refused 10 no space
vsa a t 62 raw => ok
app c => ok
vsa c s 1 raw => refused 10 no space
app b => ok
peek b l 0 => refused 6 wrong kind
vsa b q 2 log => refused 4 name taken

run,d => ready 200 4
app a => ok
peek a t 61 => ok -
poke a s 0 01 => ok
peek a s 1 => ok 07

run,--,d => ready 200 4
app a => ok
peek a s 0 => ok 01

run,--new,130,d => ready 130 0
app a => ok
peek a s 0 => refused 5 no grant s";

// A script that takes all data blocks of a device of 200.
const FULL: &[u8] = b"app a\nvsa a s 71 raw\napp b\nvsa b t 1 raw\n";

// A device on which that script was run.
fn full_device(alloc: Global) -> Result<Vec<u8>, Failure> {
    let done = run(alloc, FULL, &[])?;
    let mut image = Vec::new(alloc);
    image.extend_from_slice(done.world.image())?;
    Ok(image)
}

// The bytes that are changed: the place of each, what stands there then, how many bytes of the device are left, and the first
// damaged block.
const DAMAGES: [(usize, u8, usize, &str); 7] = [
    (511, 1, 102_400, "fault damaged 0\n"),
    (0, 0, 101_888, "fault damaged 0\n"),
    (0, 0, 0, "fault damaged 0\n"),
    (558, 1, 102_400, "fault damaged 1\n"),
    (512, 0, 102_400, "fault damaged 1\n"),
    (1024, 1, 102_400, "fault damaged 2\n"),
    (66_047, 1, 102_400, "fault damaged 128\n"),
];

// A damaged device is told by its first damaged block, and is not written.
#[test]
fn tells_the_damaged_block(rt: HostRuntime) -> Result<(), Failure> {
    for (place, byte, len, line) in DAMAGES {
        let mut device = full_device(rt.alloc())?;
        if let Some(changed) = device.get_mut(place) {
            *changed = byte;
        }
        device.truncate(len);
        for words in ["run,d", "check,d"] {
            let done = run_on(rt.alloc(), &device, words, b"app a\n", &[])?;
            assert!(rt; matches!(done.status, Status::Damaged(_)));
            assert_eq!(rt; done.world.out(), line.as_bytes());
            assert_eq!(rt; done.world.image(), device.as_slice());
        }
    }
    Ok(())
}

// Attaching the device, or any read of its table, may fail: then the closing line comes alone. Behind them the put of its line.
#[test]
fn fails_with_each_call_of_its_opening(rt: HostRuntime) -> Result<(), Failure> {
    let device = full_device(rt.alloc())?;
    for call in 0..=130u32 {
        let plan = [Fail {
            call,
            took: false,
            part: 7,
        }];
        let done = run_on(rt.alloc(), &device, "run,d", b"app a\n", &plan)?;
        let (status, out) = if call == 130 {
            (Status::Sink, "ready 2")
        } else {
            (Status::Device, "fault device\n")
        };
        assert!(rt; done.status == status, "at {call}");
        assert_eq!(rt; done.world.out(), out.as_bytes());
    }
    Ok(())
}

// The last sync of a grant fails: it is not held, and the table has failed. On the device that stands a later run finds the grant,
// whose slot was written; a stop may leave it there or not.
#[test]
fn finds_a_grant_that_failed(rt: HostRuntime) -> Result<(), Failure> {
    let script = b"app a\nvsa a s 2 raw\npeek a s 0\nvsa a t 1 raw\n";
    let plan = [Fail {
        call: 10,
        took: false,
        part: 0,
    }];
    let done = run(rt.alloc(), script, &plan)?;
    assert_eq!(rt;
        done.world.out(),
        b"ready 200 0\nok\nrefused 21 device fault\nrefused 5 no grant s\nrefused 22 table failed\n".as_slice()
    );
    let before = run(rt.alloc(), b"app a\n", &[])?;
    for (image, ready) in [
        (done.world.image(), "ready 200 1\n"),
        (before.world.image(), "ready 200 0\n"),
    ] {
        assert!(rt; done.world.may_leave(done.world.events(), image));
        let later = run_on(rt.alloc(), image, "run,d", b"", &[])?;
        assert_eq!(rt; later.world.out(), ready.as_bytes());
    }
    Ok(())
}
