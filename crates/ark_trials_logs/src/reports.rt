use ark_base::Status;
use ark_check::put_report;
use ark_media::{Disk, Outside};
use ark_memory::{Fail, MemoryWorld};
use ark_table::{GrantTable, format};
use circular_buffer::HeapCircularBuffer;
use std::alloc::Global;

// Writes bytes from a place on, where they fit.
fn put_bytes(out: &mut [u8], at: usize, bytes: &[u8]) {
    if let Some(rest) = out.get_mut(at..) {
        if let Some(place) = rest.get_mut(..bytes.len()) {
            if place.len() == bytes.len() {
                place.copy_from_slice(bytes);
            }
        }
    }
}

// The block of a slot of application `a`, with a label of one letter.
fn slot_block(kind: u8, label: u8, count: u8, runs: &[u8]) -> [u8; 512] {
    let mut block = [0; 512];
    put_bytes(&mut block, 0, b"VSA1");
    put_bytes(&mut block, 4, &[kind, count, 1, b'a']);
    put_bytes(&mut block, 22, &[1, label]);
    put_bytes(&mut block, 38, runs);
    block
}

// A device of 200 blocks with a raw area of two runs, an empty log, and a queue whose header is damaged.
fn device(alloc: Global) -> Option<Vec<u8>> {
    let mut world = MemoryWorld::new(alloc, b"", 200, b"", &[], 40, 0).ok()?;
    world.make("d", 200).ok()?;
    format(&mut world).ok()?;
    let mut image = Vec::new(alloc);
    image.extend_from_slice(world.image()).ok()?;
    let raw = [0, 0, 0, 129, 0, 0, 0, 2, 0, 0, 0, 140, 0, 0, 0, 1];
    put_bytes(&mut image, 512, &slot_block(1, b's', 2, &raw));
    let log = [0, 0, 0, 150, 0, 0, 0, 3];
    put_bytes(&mut image, 1_024, &slot_block(2, b'l', 1, &log));
    let queue = [0, 0, 0, 160, 0, 0, 0, 2];
    put_bytes(&mut image, 65_536, &slot_block(3, b'q', 1, &queue));
    put_bytes(&mut image, 81_920, &[1; 512]);
    Some(image)
}

// What the report of this device ends with, and what it puts. Attaching the device is call 0, and 129 reads follow.
fn report_of(
    alloc: Global,
    image: &[u8],
    plan: &[Fail],
) -> Option<(Result<(), Status>, MemoryWorld)> {
    let mut world = MemoryWorld::new(alloc, image, 0, b"", plan, 300, 400).ok()?;
    world.attach("d").ok()?;
    let table = GrantTable::load(alloc, &mut world).ok()?;
    let mut lengths = HeapCircularBuffer::with_capacity(alloc, world.blocks() as usize).ok()?;
    let ended = put_report(&table, &mut lengths, &mut world);
    Some((ended, world))
}

const REPORT: &[u8] =
    b"device 200 3\nslot 1 a s raw 3 2\nslot 2 a l log 3 1 1 0\nslot 128 a q queue 2 1 damaged 0\n";

#[test]
fn reports_each_slot(rt: HostRuntime) {
    let image = device(rt.alloc()).expect(&rt, "a device");
    let (ended, after) = report_of(rt.alloc(), &image, &[]).expect(&rt, "a report");
    assert_eq!(rt; ended, Ok(()));
    assert_eq!(rt; after.out(), REPORT);
    assert_eq!(rt; after.image(), image.as_slice());
}

// The header of the log can't be read, or that of the queue.
#[test]
fn ends_at_a_failed_read(rt: HostRuntime) {
    let image = device(rt.alloc()).expect(&rt, "a device");
    for (call, put) in [(132, 32), (135, 55)] {
        let plan = [Fail {
            call,
            took: false,
            part: 0,
        }];
        let (ended, after) = report_of(rt.alloc(), &image, &plan).expect(&rt, "a report");
        assert_eq!(rt; ended, Err(Status::Device));
        assert_eq!(rt; after.out(), &REPORT[..put]);
    }
}
