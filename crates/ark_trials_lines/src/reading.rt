//! Lines of every word, read: each table has a line in each of its rows.

use ark_reading::{MAX_LINE, read_line};
use ark_script::Step;
use std::alloc::AllocError;

/// Lines that are read.
const READ: &[u8] = b"nic 020000000001 10.0.0.1 0200000000fF
app a
app abcdefgh_012345 4
app a 4096
vsic a v 2
vnic a v 256 4
vsa a s 1 raw
vsa a s 2 log
vsa a s 1048447 queue
grow a s 1048447
bind a v s
unbind a v s
filter a f rx eth * *
filter a f tx eth 0a0b0c0d0e0f,0A0B0C0D0E0F 0800,86dd
filter a f rx ip 10.0.0.1 0,255
filter a f rx udp * 0-65535,53,53
filter a f tx tcp 1.2.3.4,1.2.3.4 1,2,3,4,5,6,7,8
use a v f
rate a r 0 1
rate a r 1000000000 1000000000
pace a v r rx
pace a v - io
door a d
watch a v d tx
watch a v - io
drop a x
buf a b 65536
fill a b 65535 00
show a b 4294967295 1514
copy a b b 1
free a b
peek a s 0
poke a s 4294967295 0aF0
get a v s 0 1 b
put a v s 4294967295 128 b
flush a v
reap a v
post a v b
send a v b 14
take a v rx
take a v tx
sock a k v 0
sock a k v 65535
sendto a k 255.255.255.255 65535 -
sendto a k 0.0.0.0 0 AB
recv a k
look a d
log a s v
queue a s v
append a s -
append a s 00
push a s ff
trim a s 9223372036854775808
pop a s
walk a s 1
poll a s
settle a s
close a s
dev a v
wire 0000000000000000000000000000
tick 1
tick 1000000000";

/// Lines that are of no form, by word.
const FAULTS: &[u8] = b"nic 02000000001 10.0.0.1 0200000000ff
nic 020000000001 10.0.0 0200000000ff
nic 020000000001 10.0.0.256 0200000000ff
nic 020000000001 10.0.0.01 0200000000ff
nic 020000000001 10.0.0.1.1 0200000000ff
app
app a 3
app a 4097
app A
vsic a v 3
vsic a v 512
vnic a v 2
vnic a v 2 2 2
vsa a s 0 raw
vsa a s 1 log
vsa a s 1 queue
vsa a s 1048448 raw
vsa a s 2 Log
grow a s 0
bind a v
unbind a v s s
filter a f rx eth
filter a f io eth * *
filter a f rx arp * *
filter a f rx eth 10.0.0.1 *
filter a f rx eth * 800
filter a f rx ip * 256
filter a f rx udp 0a0b0c0d0e0f *
filter a f rx udp * 2-1
filter a f rx udp * 1-2-3
filter a f rx tcp * 65536
filter a f rx tcp * 1,
filter a f rx tcp * *,1
filter a f rx tcp * 1,2,3,4,5,6,7,8,9
use a v
rate a r 1000000001 1
rate a r 0 0
pace a v - all
pace a v r
door a 1d
watch a v d
drop a
buf a b 0
buf a b 65537
fill a b 65536 00
fill a b 0 -
show a b 4294967296 1
show a b 0 0
show a b 0 1515
copy a b c 65537
free a
peek a s 4294967296
poke a s 0 0
poke a s 0 -
get a v s 0 0 b
get a v s 0 129 b
put a v s 0 1
flush a v v
reap
post a v
send a v b 13
send a v b 1515
take a v io
sock a k v 65536
sendto a k 1.2.3 1 -
sendto a k 1.2.3.4 65536 -
recv a
look a
log a s
queue a s
append a s
append a s 0
push a s --
trim a s 0
trim a s 9223372036854775809
pop a
walk a s 0
poll a
settle a
close a
dev a
wire 00000000000000000000000000
wire -
tick 0
tick 1000000001";

/// Lines whose words and numbers are spelled otherwise.
const MISSPELLED: &[u8] = b"door  a d
door a  d
tick 01
tick +1
tick -1
tick 1.
tick 0x1
tick 18446744073709551616
tick 18446744073709551617
tick
append a s 0g
append a s 000
door a abcdefgh_0123456";

/// The same with other bytes than those of the grammar, and with the bytes of characters that no line has.
const OTHER_BYTES: &[u8] =
    b"door a d \ndoor a\td\ndoor a d\r\ndoor a \xFF\ndoor a \xC3\xA4\ntick \xD9\xA1\nappend a s \xFF\xFF";

/// Lines that begin with no word; the first is empty.
const UNKNOWN: &[u8] = b"
frob
doors a d
 door a d
Door a d
assign a v f
-";

/// The same with other bytes.
const NO_WORDS: &[u8] = b"door\r\ndoor\ta d\n\xFF";

// The number of the refusal, or 0 where the line is read.
fn refused(line: &[u8]) -> u8 {
    if line.len() > MAX_LINE {
        return 24;
    }
    match read_line(line) {
        Ok(_) => 0,
        Err(refusal) => refusal.number(),
    }
}

// The first line of a table that has another answer than this.
fn other_than(number: u8, table: &[u8]) -> Option<&[u8]> {
    table
        .split(|byte| *byte == b'\n')
        .find(|line| refused(line) != number)
}

#[test]
fn reads_lines_of_every_word(rt: HostRuntime) {
    assert_eq!(rt; other_than(0, READ), None);
}

#[test]
fn refuses_other_forms(rt: HostRuntime) {
    assert_eq!(rt; other_than(1, FAULTS), None);
    assert_eq!(rt; other_than(1, MISSPELLED), None);
    assert_eq!(rt; other_than(1, OTHER_BYTES), None);
    assert_eq!(rt; refused(b"door a d\n"), 1);
    assert_eq!(rt; other_than(2, UNKNOWN), None);
    assert_eq!(rt; other_than(2, NO_WORDS), None);
}

// The number of the refusal of a line of this length, which begins so and has zeros behind.
fn refused_long(bytes: &mut [u8], start: &[u8], len: usize) -> u8 {
    if start.len() > bytes.len() || len > bytes.len() {
        return 24;
    }
    bytes[..start.len()].copy_from_slice(start);
    refused(&bytes[..len])
}

#[test]
fn reads_long_lines(rt: HostRuntime) -> Result<(), AllocError> {
    let mut line = vec![in rt.alloc(); b'0'; MAX_LINE]?;
    assert_eq!(rt; refused_long(&mut line, b"fill a b 0 ", 66_000), 1);
    assert_eq!(rt; refused_long(&mut line, b"fill a b 0 ", 65_999), 0);
    assert_eq!(rt; refused_long(&mut line, b"append a l ", 65_547), 0);
    assert_eq!(rt; refused_long(&mut line, b"append a l ", 65_549), 1);
    assert_eq!(rt; refused_long(&mut line, b"fill a b 10 ", 66_000), 0);
    Ok(())
}

// The bytes that a line appends, after those of the slice.
fn appended(line: &[u8], out: &mut [u8]) -> usize {
    if line.len() > MAX_LINE {
        return 0;
    }
    match read_line(line) {
        Ok(Step::Append(_, _, hex)) if hex.len() <= out.len() => {
            hex.read(out);
            hex.len()
        }
        _ => 0,
    }
}

#[test]
fn reads_bytes(rt: HostRuntime) {
    let mut out = [0; 4];
    assert_eq!(rt; appended(b"append a l deADbeEF", &mut out), 4);
    assert_eq!(rt; out, [0xde, 0xad, 0xbe, 0xef]);
    assert_eq!(rt; appended(b"append a l -", &mut out), 0);
}
