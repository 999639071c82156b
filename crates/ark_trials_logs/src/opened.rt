ghost use Rattle.std.specs.Prelude.{◌<◌, ◌≤◌, ◌^◌};

use ark_base::Kind;
use ark_log::{Chain, ChainRefusal};
use ark_region::Region;
use std::alloc::Global;

// A log of an area of zeros, with so many blocks in its ring, and a region of so many frames, one of which its header has.
fn opened(alloc: Global, room: u32, frames: u32) -> Option<(Chain, Region)>
    requires some { 0 < room }
    requires few { room < 2 ^ 31 }
    requires frames { frames ≤ 4096 }
{
    let mut region = Region::new(alloc, frames).ok()?;
    let header = region.take(512)?;
    match Chain::new(alloc, Kind::Log, 7, room, header) {
        Ok(chain) => Some((chain, region)),
        Err(_) => None,
    }
}

// Entries fill the ring to its last block, and a trim drops what is not acknowledged yet.
#[test]
fn accepts_one_behind_another(rt: HostRuntime) {
    let (mut chain, mut region) = opened(rt.alloc(), 3, 8).expect(&rt, "a log");
    assert_eq!(rt; chain.trim(1), Err(ChainRefusal::NoEntry));
    assert_eq!(rt; chain.trim(2), Err(ChainRefusal::NoEntry));
    assert_eq!(rt; chain.pop(&mut region), Err(ChainRefusal::NoEntry));
    assert_eq!(rt; chain.append(&mut region, &[7; 500]), Ok(1));
    assert_eq!(rt;
        chain.append(&mut region, &[7; 500]),
        Err(ChainRefusal::LogFull)
    );
    assert_eq!(rt; chain.append(&mut region, b"abc"), Ok(2));
    assert_eq!(rt; chain.append(&mut region, b""), Err(ChainRefusal::LogFull));
    assert_eq!(rt; chain.pop(&mut region), Ok(1));
    assert_eq!(rt; chain.trim(2), Err(ChainRefusal::NoEntry));
    assert_eq!(rt; chain.trim(3), Ok(()));
    assert_eq!(rt; chain.pop(&mut region), Err(ChainRefusal::NoEntry));
    assert_eq!(rt; (chain.first(), chain.count(), chain.waiting()), (1, 0, 4));
    assert!(rt; !chain.failed());
}

// A region of two frames has one for an entry, and none for another; commands may wait without one.
#[test]
fn accepts_what_has_room(rt: HostRuntime) {
    let (mut chain, mut region) = opened(rt.alloc(), 9, 2).expect(&rt, "a log");
    assert_eq!(rt; chain.append(&mut region, b"abc"), Ok(1));
    assert_eq!(rt;
        chain.append(&mut region, b"abc"),
        Err(ChainRefusal::NoBuffer)
    );
    assert_eq!(rt; chain.pop(&mut region), Err(ChainRefusal::NoBuffer));
    assert_eq!(rt; chain.trim(2), Ok(()));
    assert_eq!(rt; chain.waiting(), 2);
}
