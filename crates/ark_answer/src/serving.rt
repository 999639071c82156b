ghost use Rattle.std.specs.Prelude.{◌≡◌, ◌≤◌, ◌<◌, ◌+◌, ◌^◌, [], length};
ghost use Rattle.ark_media.specs.Calls.{GoesBy};
ghost use Rattle.ark_script.specs.Lines.{max_line};
ghost use Rattle.ark_script.specs.Reply.{bytes_shown};
ghost use Rattle.ark_script.specs.Text.{IsSaid};
ghost use Rattle.ark_script.specs.declared.said.Said.TheVariants as said;
ghost use Rattle.ark_host.specs.Inside.{IsInside};
ghost use Rattle.ark_host.specs.Time.{IsSound};
ghost use Rattle.ark_answer.specs.Answered.{LineSaid};

use ark_base::Refusal;
use ark_host::Host;
use ark_media::Disk;
use ark_reading::read_line;
use ark_script::{Reply, Said};

/// Reads one line, without its newline, and makes its step. A line that is of no word, or not of its word's form, is refused.
pub fn answer<D: Disk>(host: &mut Host, line: &[u8], out: &mut Reply, disk: &mut D)
    requires sound { IsSound host.old }
    requires inside { IsInside (D.told disk.old).blocks host.old }
    requires few { host.old.lines < 2 ^ 31 }
    requires short { length line.now ≤ max_line }
    ensures answers { GoesBy D.goes disk.old disk.new (λ es.
        LineSaid host.old line.now es host.new (D.told disk.new)
        out.new.said (bytes_shown out.new)) }
    ensures said { IsSaid out.new.said }
    ensures sound { IsSound host.new }
    ensures inside { IsInside (D.told disk.old).blocks host.new }
    ensures counted { host.new.lines ≤ host.old.lines + 1 }
{
    match read_line(line) {
        Ok(step) => host.step(disk, &step, out),
        Err(refusal) => refuse(out, refusal),
    }
}

/// Says that a line is refused.
pub fn refuse(out: &mut Reply, refusal: Refusal)
    ensures said { out.new.said ≡ said.Refused refusal }
    ensures none { bytes_shown out.new ≡ [] }
{
    out.say(Said::Refused(refusal), 0);
}
