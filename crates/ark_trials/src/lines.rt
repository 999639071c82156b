use crate::runs::run;
use ark_base::Status;
use std::test::Fail;

/// Lines of each kind. A `\r` stands within a line.
pub(crate) const LINES: &str = "\
run,--new,200,d => ready 200 0
app a => ok

run,--new,200,d => ready 200 0
app a => ok
app a => refused 4 name taken

run,--new,200,d => ready 200 0
app a => ok
app b => ok
app a => refused 4 name taken

run,--new,200,d => ready 200 0
frob => refused 2 unknown word

run,--new,200,d => ready 200 0
app => refused 1 syntax

run,--new,200,d => ready 200 0
app A => refused 1 syntax

run,--new,200,d => ready 200 0
app a\r => refused 1 syntax

run,--new,200,d => ready 200 0
app a 3 => refused 1 syntax

run,--new,200,d => ready 200 0
app a => ok
 => refused 2 unknown word
app a => refused 4 name taken
frob => refused 2 unknown word
app b => ok

run,--new,200,d => ready 200 0
app a => ok
app b => ok
app c => ok
app d => ok
app e => ok
app f => ok
app g => ok
app h => ok
app i => ok
app j => ok
app k => ok
app l => ok
app m => ok
app n => ok
app o => ok
app p => ok
app q => refused 7 limit
app a => refused 4 name taken";

/// Scripts that end with an empty line.
pub(crate) const EMPTY_LINES: &str = "\
run,--new,200,d => ready 200 0
 => refused 2 unknown word

run,--new,200,d => ready 200 0
 => refused 2 unknown word
 => refused 2 unknown word";

/// What stands between two long lines.
const BETWEEN: &[u8] = b"

frob
app
app A
peek a s 0
app a
app a
";

/// The replies to that.
const BETWEEN_REPLIES: &str = "
refused 2 unknown word
refused 2 unknown word
refused 1 syntax
refused 1 syntax
refused 3 no application
ok
refused 4 name taken
";

// A line of 66,000 bytes is read, and one of 66,001 is not, wherever the fetches cut it and whatever stands round it.
#[test]
fn refuses_longer_lines(rt: HostRuntime) -> Result<(), Fail> {
    let cases: [(usize, &str); 3] = [
        (66_000, "refused 2 unknown word"),
        (66_001, "refused 24 too long"),
        (140_000, "refused 24 too long"),
    ];
    for (len, reply) in cases {
        let long = vec![in rt.alloc(); b'x'; len]?;
        let mut script = Vec::from_slice(rt.alloc(), &long)?;
        script.extend_from_slice(BETWEEN)?;
        script.extend_from_slice(&long)?;
        script.extend_from_slice(b"\napp b\ntick 5")?;
        let mut out = String::from_str(rt.alloc(), "ready 200 0\n")?;
        out.push_str(reply)?;
        out.push_str(BETWEEN_REPLIES)?;
        out.push_str(reply)?;
        out.push_str("\nok\nok 5\n")?;
        let done = run(rt.alloc(), &script, &[])?;
        assert_eq!(rt; done.status, Status::Done);
        assert_eq!(rt; done.world.out(), out.as_bytes(), "at {len}");
    }
    Ok(())
}

// A line of one byte, for each byte: none is a word, and the newline makes two empty lines.
#[test]
fn refuses_each_byte(rt: HostRuntime) -> Result<(), Fail> {
    let mut script = Vec::new(rt.alloc());
    let mut replies = Vec::from_slice(rt.alloc(), b"ready 200 0\n")?;
    for byte in 0..=255u8 {
        script.extend_from_slice(&[byte, b'\n'])?;
        replies.extend_from_slice(b"refused 2 unknown word\n")?;
    }
    replies.extend_from_slice(b"refused 2 unknown word\n")?;
    script.extend_from_slice(b"\xff\x00\x80\n")?;
    replies.extend_from_slice(b"refused 2 unknown word\n")?;
    let done = run(rt.alloc(), &script, &[])?;
    assert_eq!(rt; done.status, Status::Done);
    assert_eq!(rt; done.world.out(), replies.as_slice());
    Ok(())
}
