//! What a stop leaves of a run's device, against images that are put together write by write.

use crate::runs::{run, run_on};
use ark_memory::{Event, Fail, MemoryWorld};
use std::alloc::Global;
use std::test::Fail as Failure;

const SCRIPT: &[u8] =
    b"app a\nvsa a site 4 raw\npoke a site 0 01\npoke a site 1 02\npoke a site 0 03\n";

// How many events there are up to and with the last sync that succeeded among the first ones.
fn synced_at(world: &MemoryWorld, front: u32) -> u32 {
    let mut synced = 0;
    for i in 0..front {
        if matches!(world.event(i), Some(Event::Sync { ok: true })) {
            synced = i.saturating_add(1);
        }
    }
    synced
}

// How many choices there are of the writes since the last sync, each of them kept or lost.
fn choices_at(world: &MemoryWorld, front: u32) -> u32 {
    let mut choices: u32 = 1;
    for i in synced_at(world, front)..front {
        if matches!(world.event(i), Some(Event::Write { .. })) {
            choices = choices.saturating_mul(2);
        }
    }
    choices
}

// Puts a block into an image.
fn put_block(image: &mut [u8], n: u32, block: &[u8]) {
    let from = 512 * n as usize;
    if let Some(place) = image.get_mut(from..from + 512) {
        if place.len() == block.len() {
            place.copy_from_slice(block);
        }
    }
}

// The image of 200 blocks after the first events: of the writes since the last sync those that are kept, in their order.
fn image_at(
    alloc: Global,
    world: &MemoryWorld,
    front: u32,
    kept: &[bool],
) -> Result<Vec<u8>, Failure> {
    let mut image = Vec::new(alloc);
    image.resize(200 * 512, 0)?;
    let synced = synced_at(world, front);
    let mut next: usize = 0;
    for i in 0..front {
        if let Some(Event::Write { n, block, took, .. }) = world.event(i) {
            let stays = if i < synced {
                took
            } else {
                let stays = kept.get(next).copied().unwrap_or(false);
                next = next.saturating_add(1);
                stays
            };
            if stays {
                put_block(&mut image, n, &block.0);
            }
        }
    }
    Ok(image)
}

// At every front each choice of the writes since the last sync, kept or lost, may be left, and nothing that no write wrote.
#[test]
fn leaves_each_choice_of_writes(rt: HostRuntime) -> Result<(), Failure> {
    let done = run(rt.alloc(), SCRIPT, &[])?;
    assert_eq!(rt;
        done.world.out(),
        b"ready 200 0\nok\nok\nok\nok\nok\n".as_slice()
    );
    assert_eq!(rt; done.world.events(), 18);
    for front in 0..=18u32 {
        for choice in 0..choices_at(&done.world, front) {
            let kept = [
                choice & 1 != 0,
                choice & 2 != 0,
                choice & 4 != 0,
                choice & 8 != 0,
            ];
            let mut image = image_at(rt.alloc(), &done.world, front, &kept)?;
            assert!(rt; done.world.may_leave(front, &image), "at {front}");
            put_block(&mut image, 131, &[9; 512]);
            assert!(rt; !done.world.may_leave(front, &image), "at {front}");
        }
    }
    let whole = image_at(rt.alloc(), &done.world, 18, &[true, true, true])?;
    assert_eq!(rt; done.world.image(), whole.as_slice());
    Ok(())
}

// A write that comes after the front, one that a sync has covered since, and bytes that are no whole device are refused.
#[test]
fn leaves_nothing_else(rt: HostRuntime) -> Result<(), Failure> {
    let done = run(rt.alloc(), SCRIPT, &[])?;
    let world = &done.world;
    let fresh = image_at(rt.alloc(), world, 0, &[])?;
    let formatted = image_at(rt.alloc(), world, 2, &[])?;
    assert!(rt; !world.may_leave(0, &formatted));
    assert!(rt; world.may_leave(1, &fresh));
    assert!(rt; world.may_leave(1, &formatted));
    assert!(rt; !world.may_leave(2, &fresh));
    assert!(rt; world.may_leave(2, &formatted));
    let held = image_at(rt.alloc(), world, 10, &[true])?;
    assert!(rt; !world.may_leave(9, &held));
    assert!(rt; world.may_leave(10, &held));
    assert!(rt; world.may_leave(10, &formatted));
    assert!(rt; !world.may_leave(11, &formatted));
    let poked = image_at(rt.alloc(), world, 18, &[true, true, false])?;
    assert!(rt; world.may_leave(18, &poked));
    assert!(rt; !world.may_leave(13, &poked));
    assert!(rt; !world.may_leave(18, poked.get(512..).unwrap_or(&[])));
    let plan = [Fail {
        call: 2,
        took: false,
        part: 0,
    }];
    let failed = run(rt.alloc(), SCRIPT, &plan)?;
    assert!(rt; failed.world.may_leave(2, &fresh));
    assert!(rt; failed.world.may_leave(2, &formatted));
    Ok(())
}

// What a later run puts out on the device that is left at a front, where these writes since the last sync were kept.
fn replies_at(front: u32, kept: &[bool; 4]) -> &'static str {
    if front < 10 || (front == 10 && !kept[0]) {
        return "ready 200 0\nok\nrefused 5 no grant site\nrefused 5 no grant site\n";
    }
    let first = front >= 13 && kept[0];
    let second = front >= 15 && kept[1];
    let third = front >= 17 && kept[2];
    match (first, second, third) {
        (false, false, false) => "ready 200 1\nok\nok -\nok -\n",
        (true, false, false) => "ready 200 1\nok\nok 01\nok -\n",
        (_, false, true) => "ready 200 1\nok\nok 03\nok -\n",
        (false, true, false) => "ready 200 1\nok\nok -\nok 02\n",
        (true, true, false) => "ready 200 1\nok\nok 01\nok 02\n",
        (_, true, true) => "ready 200 1\nok\nok 03\nok 02\n",
    }
}

// From before the slot is written on, a later run finds the slot and the blocks of each device that a stop may leave.
#[test]
fn opens_after_each_stop(rt: HostRuntime) -> Result<(), Failure> {
    let done = run(rt.alloc(), SCRIPT, &[])?;
    for front in 9..=18u32 {
        // none, all, and each alone
        for choice in [0, 7, 1, 2, 4u32] {
            let kept = [choice & 1 != 0, choice & 2 != 0, choice & 4 != 0, false];
            let image = image_at(rt.alloc(), &done.world, front, &kept)?;
            let script = b"app a\npeek a site 0\npeek a site 1\n";
            let later = run_on(rt.alloc(), &image, "run,d", script, &[])?;
            assert_eq!(rt; later.world.out(), replies_at(front, &kept).as_bytes());
        }
    }
    Ok(())
}
