ghost use Rattle.std.specs.Prelude.{◌≤◌, ◌+◌, ◌^◌, [], length};
ghost use Rattle.ark_media.specs.Calls.{GoesBy};
ghost use Rattle.ark_host.specs.Inside.{IsInside};
ghost use Rattle.ark_host.specs.Time.{IsSound};
ghost use Rattle.ark_report.specs.Counted.{CountedSoFar};

use ark_answer::{ReplyBuffer, answer};
use ark_host::Host;
use ark_media::Disk;
use ark_work::{LINE_ROOM, Lines, Tally};

/// Answers the lines of a script that are still to come, and counts their replies. Nothing is put out.
pub fn count_replies<D: Disk>(
    host: &mut Host,
    script: &mut Lines,
    out: &mut ReplyBuffer,
    disk: &mut D,
) -> Tally
    requires sound { IsSound host.old }
    requires inside { IsInside (D.told disk.old).blocks host.old }
    requires few { host.old.lines + length script.old ≤ 2 ^ 31 }
    ensures counts { GoesBy D.goes disk.old disk.new
        (λ es. CountedSoFar host.old script.old [] es host.new (D.told disk.new) result) }
{
    let mut tally = Tally::new();
    let mut line = [0; LINE_ROOM];
    while let Some(len) = script.next(&mut line) {
        answer(host, &line[..len], &mut out.reply, disk);
        out.text.print(&out.reply);
        tally.count(out.text.bytes());
    }
    tally
}
