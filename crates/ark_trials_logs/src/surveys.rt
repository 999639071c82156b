use ark_base::Kind;
use ark_chain::{Seen, SurveyFault, survey};
use ark_entry::{ChainHead, mark, write_entry, write_header};
use ark_media::{Disk, Outside};
use ark_memory::{Event, Fail, MemoryWorld};
use circular_buffer::HeapCircularBuffer;
use std::alloc::Global;

// What a survey answered, the lengths that it noted, and the device after it.
#[derive(Drop)]
struct Surveyed {
    answer: Result<Seen, SurveyFault>,
    lengths: HeapCircularBuffer<u32>,
    world: MemoryWorld,
}

// Surveys a log whose area is a whole device. Attaching the device is call 0.
fn survey_of(alloc: Global, area: &[u8], plan: &[Fail]) -> Option<Surveyed> {
    let mut world = MemoryWorld::new(alloc, area, 0, b"", plan, 20, 0).ok()?;
    world.attach("d").ok()?;
    let blocks = world.blocks();
    if blocks < 2 {
        return None;
    }
    let mut lengths = HeapCircularBuffer::with_capacity(alloc, blocks as usize).ok()?;
    let answer = survey(&mut world, Kind::Log, &mut lengths);
    Some(Surveyed {
        answer,
        lengths,
        world,
    })
}

fn header() -> [u8; 512] {
    let mut block = [0; 512];
    let head = ChainHead {
        kind: Kind::Log,
        first: 1,
        start: 3,
        count: 2,
        end: 2,
    };
    write_header(&mut block, &head);
    block
}

// An entry of two blocks.
fn long_entry() -> [u8; 1024] {
    let mut blocks = [0; 1024];
    write_entry(&mut blocks, 1, 1, &[7; 500]);
    mark(&mut blocks);
    blocks
}

fn short_entry() -> [u8; 512] {
    let mut block = [0; 512];
    write_entry(&mut block, 2, 2, b"abc");
    mark(&mut block);
    block
}

// A ring of four blocks, whose list begins with its last one: an entry of 500 bytes in the last block and the first, and one of 3 bytes
// behind it.
fn wrapped(alloc: Global) -> Option<Vec<u8>> {
    let long = long_entry();
    let (begin, end) = long.split_at(512);
    let mut area = Vec::new(alloc);
    area.extend_from_slice(&header()).ok()?;
    area.extend_from_slice(end).ok()?;
    area.extend_from_slice(&short_entry()).ok()?;
    area.extend_from_slice(&[0; 512]).ok()?;
    area.extend_from_slice(begin).ok()?;
    Some(area)
}

// The same with one byte changed.
fn changed(alloc: Global, at: usize, value: u8) -> Option<Vec<u8>> {
    let mut area = wrapped(alloc)?;
    *area.get_mut(at)? = value;
    Some(area)
}

// The block of the call with this number since the device was attached, if it is a read.
fn read_of(world: &MemoryWorld, i: u32) -> Option<u32> {
    match world.event(i) {
        Some(Event::Read { n, .. }) => Some(n),
        _ => None,
    }
}

#[test]
fn finds_entries_round_the_end(rt: HostRuntime) {
    let area = wrapped(rt.alloc()).expect(&rt, "an area");
    let found = survey_of(rt.alloc(), &area, &[]).expect(&rt, "a survey");
    let seen = Seen {
        first: 1,
        start: 3,
        count: 2,
        used: 3,
        end: 2,
    };
    assert_eq!(rt; found.answer, Ok(seen));
    assert_eq!(rt; found.lengths.get(0).copied(), Some(500));
    assert_eq!(rt; found.lengths.get(1).copied(), Some(3));
    assert_eq!(rt; found.lengths.len(), 2);
    assert_eq!(rt; found.world.events(), 5);
    for (call, block) in [(0, 0), (1, 4), (2, 1), (3, 2), (4, 3)] {
        assert_eq!(rt; read_of(&found.world, call), Some(block));
    }
}

#[test]
fn finds_none_in_zeros(rt: HostRuntime) {
    let found = survey_of(rt.alloc(), &[0; 1024], &[]).expect(&rt, "a survey");
    let seen = Seen {
        first: 1,
        start: 0,
        count: 0,
        used: 0,
        end: 0,
    };
    assert_eq!(rt; found.answer, Ok(seen));
    assert_eq!(rt; found.lengths.len(), 0);
    assert_eq!(rt; found.world.events(), 2);
}

// With one byte changed: a header of another kind, that counts three entries, or one; and of an entry the marker, the magic word, the
// number or the next place.
#[test]
fn finds_damage(rt: HostRuntime) {
    for (at, value, answer, reads) in [
        (4, 3, Err(SurveyFault::Damaged(0)), 1),
        (23, 3, Err(SurveyFault::Damaged(3)), 5),
        (1023, 0, Err(SurveyFault::Damaged(1)), 3),
        (1024, 0, Err(SurveyFault::Damaged(2)), 4),
        (1039, 5, Err(SurveyFault::Damaged(2)), 4),
        (1043, 0, Err(SurveyFault::Damaged(2)), 4),
        (1535, 0, Err(SurveyFault::Damaged(2)), 4),
    ] {
        let area = changed(rt.alloc(), at, value).expect(&rt, "an area");
        let found = survey_of(rt.alloc(), &area, &[]).expect(&rt, "a survey");
        assert_eq!(rt; found.answer, answer);
        assert_eq!(rt; found.world.events(), reads);
    }
}

#[test]
fn finds_more_than_are_counted(rt: HostRuntime) {
    let area = changed(rt.alloc(), 23, 0).expect(&rt, "an area");
    let found = survey_of(rt.alloc(), &area, &[]).expect(&rt, "a survey");
    assert_eq!(rt; found.answer.map(|seen| seen.count), Ok(2));
}

#[test]
fn fails_at_each_read(rt: HostRuntime) {
    let area = wrapped(rt.alloc()).expect(&rt, "an area");
    for call in 1..6 {
        let plan = [Fail {
            call,
            took: false,
            part: 0,
        }];
        let found = survey_of(rt.alloc(), &area, &plan).expect(&rt, "a survey");
        assert_eq!(rt; found.answer, Err(SurveyFault::DeviceFault));
        assert_eq!(rt; found.world.events(), call);
    }
}
