//! Each reply as it is printed.
ghost use Rattle.std.specs.Prelude.{◌≤◌, length};

use ark_base::{AppName, Label, Outcome, Refusal};
use ark_printing::{TEXT_ROOM, print};
use ark_script::{MAX_SHOWN, Reply, Said};
use std::alloc::Global;
use std::test::Fail;

/// Replies that show no bytes.
const SAID: [Said; 27] = [
    Said::Ready(1_048_576, 128),
    Said::Ready(130, 0),
    Said::Num(0),
    Said::Num(u64::MAX),
    Said::Pair(1, 20),
    Said::Rings(3, 0, 12),
    Said::AckedAppend(1),
    Said::AckedPush(2),
    Said::AckedTrim(30),
    Said::Ok,
    Said::Nothing,
    Said::Posted,
    Said::OkHeld,
    Said::Idle,
    Said::Held,
    Said::Moved,
    Said::DroppedNoFilter,
    Said::Refused(Refusal::Syntax),
    Said::Refused(Refusal::NoMemory),
    Said::Refused(Refusal::Damaged(0)),
    Said::Refused(Refusal::TooLong),
    Said::Flushed(Outcome::Ok),
    Said::Done(Outcome::NoGrant),
    Said::Done(Outcome::OutOfRange),
    Said::Done(Outcome::OverBurst),
    Said::Failed(Outcome::DeviceFault),
    Said::Done(Outcome::NoFilter),
];

/// Their lines, in the same order.
const LINES: &str = "\
ready 1048576 128
ready 130 0
ok 0
ok 18446744073709551615
ok 1 20
ok 3 0 12
acked append 1
acked push 2
acked trim 30
ok
ok nothing
ok posted
ok held
idle
held
moved
dropped no filter
refused 1 syntax
refused 20 no memory
refused 23 damaged 0
refused 24 too long
ok flush ok
done no grant
done out of range
done over burst
failed device fault
done no filter
";

/// The lines of replies with the names `echo` and `rx_0`.
const NAMED_LINES: &str = "\
ok get rx_0 ok
ok put rx_0 no grant
ok rx_0 1514
ok rx_0 no filter
delivered echo rx_0
dropped no buffer echo rx_0
dropped too long echo rx_0
dropped throttled echo rx_0
refused 5 no grant rx_0
refused 12 overlap echo rx_0
";

// Says this and shows these bytes.
fn show(reply: &mut Reply, said: Said, bytes: &[u8])
    requires short { length bytes.now ≤ 32768 }
{
    reply.room()[..bytes.len()].copy_from_slice(bytes);
    reply.say(said, bytes.len() as u32);
}

// Whether this is the line of the reply that says this and shows these bytes.
fn prints(alloc: Global, said: Said, bytes: &[u8], line: &str) -> bool {
    let (Ok(mut reply), Ok(mut out)) = (Reply::new(alloc), vec![in alloc; 0u8; TEXT_ROOM]) else {
        return false;
    };
    if bytes.len() > MAX_SHOWN {
        return false;
    }
    show(&mut reply, said, bytes);
    let len = print(&reply, &mut out);
    out[..len].strip_suffix(b"\n") == Some(line.as_bytes())
}

// The first of these lines that is not that of its reply.
fn other_line<'a>(alloc: Global, replies: &[Said], lines: &'a str) -> Option<&'a str> {
    for (said, line) in replies.iter().zip(lines.lines()) {
        if !prints(alloc, *said, b"", line) {
            return Some(line);
        }
    }
    None
}

#[test]
fn prints_what_was_said(rt: HostRuntime) {
    assert_eq!(rt; LINES.lines().count(), SAID.len());
    assert_eq!(rt; other_line(rt.alloc(), &SAID, LINES), None);
}

#[test]
fn prints_names(rt: HostRuntime) -> Result<(), Fail> {
    let app = AppName::read(b"echo").ok_or("echo")?;
    let label = Label::read(b"rx_0").ok_or("rx_0")?;
    let named = [
        Said::Got(label, Outcome::Ok),
        Said::Put(label, Outcome::NoGrant),
        Said::TakenRx(label, 1514),
        Said::TakenTx(label, Outcome::NoFilter),
        Said::Delivered(app, label),
        Said::DroppedNoBuffer(app, label),
        Said::DroppedTooLong(app, label),
        Said::DroppedThrottled(app, label),
        Said::Refused(Refusal::NoGrant(label)),
        Said::Refused(Refusal::Overlap(app, label)),
    ];
    assert_eq!(rt; NAMED_LINES.lines().count(), named.len());
    assert_eq!(rt; other_line(rt.alloc(), &named, NAMED_LINES), None);
    Ok(())
}

#[test]
fn prints_bytes(rt: HostRuntime) {
    let alloc = rt.alloc();
    let port = Said::Datagram([10, 0, 255, 1], 53);
    assert!(rt; prints(alloc, Said::Bytes, b"\x00\x9f\xA5", "ok 009fa5"));
    assert!(rt; prints(alloc, Said::Bytes, b"", "ok -"));
    assert!(rt; prints(alloc, Said::Sent, b"\xff", "sent ff"));
    assert!(rt; prints(alloc, Said::Sent, b"", "sent -"));
    assert!(rt; prints(alloc, Said::AckedPop(7), b"ab", "acked pop 7 6162"));
    assert!(rt; prints(alloc, Said::AckedPop(8), b"", "acked pop 8 -"));
    assert!(rt; prints(alloc, Said::Num(5), b"ab", "ok 5"));
    assert!(rt; prints(alloc, port, b"\x0b", "ok 10.0.255.1 53 0b"));
}
