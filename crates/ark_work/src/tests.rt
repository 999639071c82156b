use crate::{LINE_ROOM, Lines, SUMMARY_ROOM, Tally};
use std::test::Fail;

/// The first lines of two scripts, a seed and a row each.
const SCRIPT: &str = "\
app a
app b
vsic a v 8
vsic b v 8
vsa a r 32 raw
vsa b r 32 raw
bind a v r
bind b v r
buf a m 1024
buf b m 1024
vsic a w 4
vsa a l 64 log
log a l w
vsic b w 4
vsa b q 64 queue
queue b q w
get a v r 4 2 m
flush a v
settle a l
dev a v
put a v r 9 2 m
flush a v
append a l 6ed5396b
settle b q
put b v r 21 2 m
get a v r 6 2 m
flush b v
settle b q
flush a v
pop b q
put a v r 28 2 m
reap a v";

#[test]
fn gives_the_script_of_a_seed(rt: HostRuntime) -> Result<(), Fail> {
    let mut lines = Lines::new(1, 16);
    let mut out = [0; LINE_ROOM];
    for row in SCRIPT.lines() {
        let len = lines.next(&mut out).unwrap_or(0);
        assert_eq!(rt; &out[..len], row.as_bytes());
    }
    assert!(rt; lines.next(&mut out).is_none());
    Ok(())
}

#[test]
fn tells_how_replies_began(rt: HostRuntime) -> Result<(), Fail> {
    let mut tally = Tally::new();
    tally.count(b"ok\n");
    tally.count(b"ok 12\n");
    tally.count(b"okay\n");
    tally.count(b"refused 2 unknown word\n");
    tally.count(b"idle\n");
    tally.count(b"done ok\n");
    tally.count(b"\n");
    let mut out = [0; SUMMARY_ROOM];
    let len = tally.print(9, &mut out);
    assert_eq!(rt; &out[..len], b"work 9 ok 2 refused 1 other 4".as_slice());
    Ok(())
}
