//! The report of a device, as `check` puts it.

use crate::runs::{run, run_on};
use ark_base::Status;
use ark_memory::Fail;
use std::test::Fail as Failure;

// What a script leaves, and what is told of it.
const REPORTS: [(&str, &str); 4] = [
    ("", "device 200 0\n"),
    (
        "app a\nvsa a s 71 raw\n",
        "device 200 1\nslot 1 a s raw 71 1\n",
    ),
    (
        "app a\nvsa a s 2 raw\nvsa a t 1 raw\ngrow a s 2\n",
        "device 200 2\nslot 1 a s raw 4 2\nslot 2 a t raw 1 1\n",
    ),
    (
        "app a\nvsa a l 4 log\nvsa a q 3 queue\ndrop a l\n",
        "device 200 1\nslot 2 a q queue 3 1 1 0\n",
    ),
];

// The report comes whole, no byte of a script is taken, and the device stays as it is.
#[test]
fn reports_what_a_run_left(rt: HostRuntime) -> Result<(), Failure> {
    for (script, report) in REPORTS {
        let done = run(rt.alloc(), script.as_bytes(), &[])?;
        let later = run_on(rt.alloc(), done.world.image(), "check,d", b"app a\n", &[])?;
        assert!(rt; later.status == Status::Done);
        assert_eq!(rt; later.world.out(), report.as_bytes());
        assert_eq!(rt; later.world.image(), done.world.image());
    }
    Ok(())
}

// What comes out where the call of this number fails: attaching the device is call 0, the reads of its table follow, and then
// its line, two reads of the log, and the line of its slot.
fn told_at(call: u32) -> (Status, &'static str) {
    match call {
        130 => (Status::Sink, "device "),
        131 => (Status::Device, "device 200 1\nfault device\n"),
        132 => (Status::Device, "device 200 1\nfault device\n"),
        133 => (Status::Sink, "device 200 1\nslot 1 "),
        _ => (Status::Device, "fault device\n"),
    }
}

#[test]
fn fails_with_each_call(rt: HostRuntime) -> Result<(), Failure> {
    let done = run(rt.alloc(), b"app a\nvsa a l 4 log\n", &[])?;
    for call in 0..=133u32 {
        let plan = [Fail {
            call,
            took: false,
            part: 7,
        }];
        let later = run_on(rt.alloc(), done.world.image(), "check,d", b"", &plan)?;
        let (status, out) = told_at(call);
        assert!(rt; later.status == status, "at {call}");
        assert_eq!(rt; later.world.out(), out.as_bytes());
    }
    Ok(())
}
