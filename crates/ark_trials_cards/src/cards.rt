ghost use Rattle.std.specs.Prelude.{◌≡◌, ◌∷◌, [], None, IfSome};
ghost use Rattle.ark_vsic.specs.Moves.{CanMove};

use ark_base::{Outcome, Span};
use ark_extents::Spans;
use ark_media::{Disk, Outside};
use ark_memory::{Fail as Failing, MemoryWorld};
use ark_region::{Buf, Region};
use ark_vic::{Descriptor, Job, Rate};
use ark_vsic::{Moved, Vsic};
use std::alloc::Global;

// Work on blocks of the area of grant 3.
fn work(job: Job, first: u32, count: u32, wrap: u32, buf: Option<Buf>) -> Descriptor
    ensures { result ≡ record {
      job = job;
      grant = 3;
      first = first;
      count = count;
      wrap = wrap;
      from = 0;
      len = 0;
      tag = 7;
      buf = buf;
    } }
{
    Descriptor {
        job,
        grant: 3,
        first,
        count,
        wrap,
        from: 0,
        len: 0,
        tag: 7,
        buf,
    }
}

// A device of 200 blocks.
fn device(alloc: Global, plan: &[Failing]) -> Option<MemoryWorld> {
    let mut world = MemoryWorld::new(alloc, &[], 200, b"", plan, 20, 0).ok()?;
    world.make("d", 200).ok()?;
    Some(world)
}

// A move of work without a buffer, for an application that holds blocks 129, 130 and 131 by grant 3.
fn step<D: Disk>(
    card: &mut Vsic,
    rate: Option<Rate>,
    region: &mut Region,
    disk: &mut D,
    now: u64,
) -> Option<Moved> {
    let spans = Spans::of(&[Span { start: 129, len: 3 }])?;
    let work = card.ring().head()?;
    let moves = work.job == Job::Zero && card.ring().moved() < work.count;
    if !moves && work.job != Job::Sync || disk.blocks() < 132 {
        return None;
    }
    card.pace(rate);
    Some(card.move_one(&[(3, spans)], region, disk, now))
}

#[test]
fn goes_round(rt: HostRuntime) {
    let mut world = device(rt.alloc(), &[]).expect(&rt, "a device");
    let mut region = Region::new(rt.alloc(), 4).expect(&rt, "a region");
    let mut card = Vsic::new(rt.alloc(), 2).expect(&rt, "a card");
    card.bind(3);
    assert!(rt; card.ring_mut().post(work(Job::Zero, 1, 3, 1, None)).is_ok());
    for answer in [
        Some(Moved::Block),
        Some(Moved::Block),
        Some(Moved::Done(Outcome::Ok)),
        None,
    ] {
        assert_eq!(rt; step(&mut card, None, &mut region, &mut world, 0), answer);
    }
    assert_eq!(rt; world.events(), 3);
}

// A card on which this is posted, with the area bound or not.
fn card_with(alloc: Global, is_bound: bool, posted: Descriptor) -> Option<Vsic>
    ensures posted { IfSome result (λ v. v.ring.posted ≡ posted ∷ []) }
    ensures moved { IfSome result (λ v. v.ring.moved ≡ 0) }
    ensures unpaced { IfSome result (λ v. v.pace ≡ None) }
{
    let mut card = Vsic::new(alloc, 2).ok()?;
    if is_bound {
        card.bind(3);
    }
    card.ring_mut().post(posted).ok()?;
    Some(card)
}

// What the first move of this comes to.
fn first_move(
    alloc: Global,
    is_bound: bool,
    posted: Descriptor,
    rate: Option<Rate>,
    plan: &[Failing],
) -> Option<Moved> {
    let mut world = device(alloc, plan)?;
    let mut region = Region::new(alloc, 4).ok()?;
    let mut card = card_with(alloc, is_bound, posted)?;
    step(&mut card, rate, &mut region, &mut world, 5)
}

#[test]
fn ends_each_way(rt: HostRuntime) {
    let fails = [Failing {
        call: 1,
        took: false,
        part: 0,
    }];
    for (is_bound, job, first, plan, answer) in [
        (false, Job::Zero, 0, false, Outcome::NoGrant),
        (true, Job::Zero, 3, false, Outcome::OutOfRange),
        (true, Job::Zero, 2, false, Outcome::Ok),
        (true, Job::Zero, 2, true, Outcome::DeviceFault),
        (false, Job::Sync, 0, false, Outcome::Ok),
        (true, Job::Sync, 0, true, Outcome::DeviceFault),
    ] {
        let plan = if plan { &fails[..] } else { &[] };
        let moved = first_move(
            rt.alloc(),
            is_bound,
            work(job, first, 1, 0, None),
            None,
            plan,
        );
        assert_eq!(rt; moved, Some(Moved::Done(answer)));
    }
}

#[test]
fn keeps_its_pace(rt: HostRuntime) {
    for (burst, passed, answer) in [
        (511, 0, Moved::Done(Outcome::OverBurst)),
        (512, 0, Moved::Done(Outcome::Ok)),
        (512, 1, Moved::Held),
        (513, 1, Moved::Done(Outcome::Ok)),
    ] {
        let mut rate = Rate::new(1, burst, 5);
        if rate.may(passed, 5) {
            rate.passed(passed, 5);
        }
        let moved = first_move(
            rt.alloc(),
            true,
            work(Job::Zero, 0, 1, 0, None),
            Some(rate),
            &[],
        );
        assert_eq!(rt; moved, Some(answer));
    }
}

// What a move of this comes to, on the area and a buffer of the region.
fn move_block<D: Disk>(
    alloc: Global,
    posted: Descriptor,
    region: &mut Region,
    disk: &mut D,
) -> Option<Moved>
    requires sound { CanMove region.old.taken 0 posted }
    ensures frames { region.new.taken ≡ region.old.taken }
{
    let spans = Spans::of(&[Span { start: 129, len: 3 }])?;
    if disk.blocks() < 132 {
        return None;
    }
    let mut card = card_with(alloc, true, posted)?;
    Some(card.move_one(&[(3, spans)], region, disk, 0))
}

#[test]
fn moves_straight(rt: HostRuntime) {
    let mut world = device(rt.alloc(), &[]).expect(&rt, "a device");
    let mut region = Region::new(rt.alloc(), 4).expect(&rt, "a region");
    let from = region.take(512).expect(&rt, "a buffer");
    region.bytes_mut(&from).fill(9);
    let put = move_block(
        rt.alloc(),
        work(Job::Write, 0, 1, 0, Some(from)),
        &mut region,
        &mut world,
    );
    assert_eq!(rt; put, Some(Moved::Done(Outcome::Ok)));
    let to = region.take(512).expect(&rt, "a buffer");
    let got = move_block(
        rt.alloc(),
        work(Job::Read, 0, 1, 0, Some(to)),
        &mut region,
        &mut world,
    );
    assert_eq!(rt; got, Some(Moved::Done(Outcome::Ok)));
    let bytes = region.whole_mut();
    assert_eq!(rt;
        (bytes.get(511), bytes.get(1023), bytes.get(1024)),
        (Some(&9), Some(&9), Some(&0))
    );
}
