ghost use Rattle.std.specs.Prelude.{◌≡◌, true, false};
ghost use Rattle.ark_media.specs.Calls.{GoesBy};
ghost use Rattle.ark_script.specs.Line.{line_of};
ghost use Rattle.ark_script.specs.Ranges.{InRange};
ghost use Rattle.ark_script.specs.Reply.{bytes_shown};
ghost use Rattle.ark_script.specs.Text.{IsSaid, wants_memory};
ghost use Rattle.ark_machine.specs.Replies.{may_lack};
ghost use Rattle.ark_machine.specs.Step as rows;
ghost use Rattle.ark_held.specs.Does.{Acts};
ghost use Rattle.ark_held.specs.Inside.{AreasInside};
ghost use Rattle.ark_logs.specs.Lines.{is_log_line};

use crate::accepting::{append, pop, trim};
use crate::closing::close;
use crate::opening::open;
use crate::polling::poll;
use crate::walking::walk;
use ark_base::Kind;
use ark_held::App;
use ark_media::Disk;
use ark_own::say;
use ark_script::{Reply, Step};
use std::alloc::Global;

/// A line about logs and queues, whatever its name is. `log` and `queue` alone take memory.
pub fn act<D: Disk>(app: &mut App, step: &Step<'_>, alloc: Global, disk: &mut D, out: &mut Reply)
    requires logs { is_log_line (line_of step.now) ≡ true }
    requires ranges { InRange (line_of step.now) }
    requires inside { AreasInside (D.told disk.old).blocks app.old.areas }
    ensures acts { GoesBy D.goes disk.old disk.new
        (λ es. Acts (D.told disk.new) app.old app.new (λ m g. rows.step m (line_of step.now)
        (record g { no_memory = wants_memory out.new.said })) es out.new.said
        (bytes_shown out.new)) }
    ensures areas { app.new.areas ≡ app.old.areas }
    ensures said { IsSaid out.new.said }
    ensures enough { may_lack (line_of step.now) ≡ false → wants_memory out.new.said ≡ false }
{
    match step {
        Step::Log(_, area, card) => {
            let said = open(app, Kind::Log, area, card, alloc, disk);
            say(out, said);
        }
        Step::Queue(_, area, card) => {
            let said = open(app, Kind::Queue, area, card, alloc, disk);
            say(out, said);
        }
        Step::Append(_, label, hex) => {
            let said = append(app, Kind::Log, label, hex, out.room());
            say(out, said);
        }
        Step::Push(_, label, hex) => {
            let said = append(app, Kind::Queue, label, hex, out.room());
            say(out, said);
        }
        Step::Trim(_, label, n) => {
            let said = trim(app, label, *n);
            say(out, said);
        }
        Step::Pop(_, label) => {
            let said = pop(app, label);
            say(out, said);
        }
        Step::Close(_, label) => {
            let said = close(app, label);
            say(out, said);
        }
        Step::Walk(_, label, n) => walk(app, label, *n, disk, out),
        Step::Poll(_, label) => poll(app, label, out),
        _ => unreachable!(),
    }
}
