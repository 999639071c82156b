use super::*;
use ark_base::Kind;

#[test]
fn writes_and_reads_a_header(rt: HostRuntime) {
    let head = ChainHead {
        kind: Kind::Log,
        first: 2,
        start: 1,
        count: 1,
        end: 0,
    };
    let mut block = [9; 512];
    write_header(&mut block, &head);
    assert!(rt;
        block.starts_with(b"CAL1\x02\0\x02\0\0\0\0\0\0\0\0\x02\0\0\0\x01\0\0\0\x01\0\0\0\0\0")
    );
    let read = read_header(&block, Kind::Log, 3).expect(&rt, "a header");
    assert_eq!(rt;
        (read.first, read.start, read.count, read.end),
        (2, 1, 1, 0)
    );
    assert!(rt; read_header(&block, Kind::Queue, 3).is_err());
    assert!(rt; read_header(&block, Kind::Log, 1).is_err());
}

#[test]
fn writes_and_reads_an_entry(rt: HostRuntime) {
    let mut block = [9; 512];
    assert_eq!(rt;
        (
            entry_blocks(1),
            entry_blocks(484),
            entry_blocks(485),
            entry_blocks(32768)
        ),
        (1, 1, 2, 65)
    );
    write_entry(&mut block, 1, 1, b"h");
    assert!(rt; block.starts_with(b"ENT1\0\0\0\x01\0\0\0\0\0\0\0\x01\0\0\0\x01h\0\0\0"));
    assert!(rt; !marked(&block));
    mark(&mut block);
    assert!(rt; block.ends_with(b"\0\0\0\0CALADAN!"));
    assert!(rt; marked(&block));
    let head = read_entry_head(&block).expect(&rt, "a head");
    assert_eq!(rt; (head.len, head.number, head.next), (1, 1, 1));
}
