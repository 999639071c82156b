use ark_base::Kind;
use ark_entry::{ChainHead, mark, write_entry, write_header};
use ark_log::{Chain, LoadFault};
use ark_media::{Disk, Outside};
use ark_memory::{Event, Fail, MemoryWorld};
use ark_region::Region;
use std::alloc::Global;

// What an opening came to, and the device after it.
#[derive(Drop)]
struct Outcome {
    answer: Result<(u64, u32), LoadFault>,
    world: MemoryWorld,
}

// Opens the log of an area that is a whole device. Attaching the device is call 0.
fn load_of(alloc: Global, area: &[u8], plan: &[Fail]) -> Option<Outcome> {
    let mut world = MemoryWorld::new(alloc, area, 0, b"", plan, 20, 0).ok()?;
    world.attach("d").ok()?;
    if world.blocks() < 2 {
        return None;
    }
    let mut region = Region::new(alloc, 1).ok()?;
    let header = region.take(512)?;
    let answer = match Chain::load(alloc, &mut world, Kind::Log, 7, header, &mut region) {
        Ok(chain) => Ok((chain.first(), chain.count())),
        Err((fault, header)) => {
            region.give(header);
            Err(fault)
        }
    };
    Some(Outcome { answer, world })
}

fn entry(number: u64, next: u32) -> [u8; 512] {
    let mut block = [0; 512];
    write_entry(&mut block, number, next, b"abc");
    mark(&mut block);
    block
}

// A ring of four blocks: an entry, one behind it without its marker, a block of zeros, and one that has been used.
fn torn(alloc: Global) -> Option<Vec<u8>> {
    let head = ChainHead {
        kind: Kind::Log,
        first: 4,
        start: 0,
        count: 1,
        end: 1,
    };
    let mut header = [0; 512];
    write_header(&mut header, &head);
    let mut tail = entry(5, 2);
    tail[511] = 0;
    let mut area = Vec::new(alloc);
    area.extend_from_slice(&header).ok()?;
    area.extend_from_slice(&entry(4, 1)).ok()?;
    area.extend_from_slice(&tail).ok()?;
    area.extend_from_slice(&[0; 512]).ok()?;
    area.extend_from_slice(&[9; 512]).ok()?;
    Some(area)
}

// A call: a read of a block, a write of zeros or of something else to it, or a sync.
#[derive(Clone, Copy, Debug, PartialEq, Eq)]
enum Made {
    Read(u32),
    Zero(u32),
    Write(u32),
    Sync,
}

fn call_at(world: &MemoryWorld, i: u32) -> Option<Made> {
    match world.event(i)? {
        Event::Read { n, .. } => Some(Made::Read(n)),
        Event::Write { n, block, .. } => {
            if block.0.iter().all(|byte| *byte == 0) {
                Some(Made::Zero(n))
            } else {
                Some(Made::Write(n))
            }
        }
        Event::Sync { .. } => Some(Made::Sync),
        Event::Out { .. } => None,
    }
}

const CALLS: [Made; 11] = [
    Made::Read(0),
    Made::Read(1),
    Made::Read(2),
    Made::Read(2),
    Made::Read(3),
    Made::Read(4),
    Made::Sync,
    Made::Zero(2),
    Made::Zero(4),
    Made::Write(0),
    Made::Sync,
];

#[test]
fn clears_a_torn_tail(rt: HostRuntime) {
    let area = torn(rt.alloc()).expect(&rt, "an area");
    let opened = load_of(rt.alloc(), &area, &[]).expect(&rt, "an opening");
    assert_eq!(rt; opened.answer, Ok((4, 1)));
    assert_eq!(rt; opened.world.events(), 11);
    for i in 0..11 {
        assert_eq!(rt; call_at(&opened.world, i), CALLS.get(i as usize).copied());
    }
}

// The first entry without its marker, though the header counts it; nothing is written.
#[test]
fn leaves_what_is_damaged(rt: HostRuntime) {
    let mut area = torn(rt.alloc()).expect(&rt, "an area");
    *area.get_mut(1023).expect(&rt, "a byte") = 0;
    let opened = load_of(rt.alloc(), &area, &[]).expect(&rt, "an opening");
    assert_eq!(rt; opened.answer, Err(LoadFault::Damaged(4)));
    assert_eq!(rt; opened.world.events(), 2);
}

#[test]
fn fails_at_each_call(rt: HostRuntime) {
    let area = torn(rt.alloc()).expect(&rt, "an area");
    for call in 1..12 {
        let plan = [Fail {
            call,
            took: true,
            part: 0,
        }];
        let opened = load_of(rt.alloc(), &area, &plan).expect(&rt, "an opening");
        assert_eq!(rt; opened.answer, Err(LoadFault::DeviceFault));
        assert_eq!(rt; opened.world.events(), call);
    }
}
