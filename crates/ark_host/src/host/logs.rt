ghost use Rattle.std.specs.Prelude.{◌≡◌, ◌≤◌, ◌<◌, ◌+◌, ◌^◌, true, Some, Ok};
ghost use Rattle.ark_media.specs.Calls.{GoesBy};
ghost use Rattle.ark_script.specs.Attributes.{attributes};
ghost use Rattle.ark_script.specs.Line.{line_of};
ghost use Rattle.ark_script.specs.Ranges.{InRange};
ghost use Rattle.ark_script.specs.Reply.{bytes_shown};
ghost use Rattle.ark_script.specs.Text.{IsSaid};
ghost use Rattle.ark_script.specs.declared.group.Group.TheVariants as group;
ghost use Rattle.ark_machine.specs.System.{owner};
ghost use Rattle.ark_logs.specs.Lines.{is_log_line};
ghost use Rattle.ark_host.specs.Inside.{IsInside};
ghost use Rattle.ark_host.specs.Time.{Counts, CountsLine};

use super::Host;
use super::apps::place_of;
use ark_base::{AppName, Refusal};
use ark_logs::act;
use ark_media::Disk;
use ark_own::say;
use ark_script::{Reply, Said, Step};

impl Host {
    ghost use Rattle.ark_host.specs.Stands.{Steps};

    // A line about logs and queues.
    pub(super) fn logs<D: Disk>(&mut self, disk: &mut D, step: &Step<'_>, out: &mut Reply)
        requires group { (attributes (line_of step.now)).group ≡ group.Logs }
        requires ranges { InRange (line_of step.now) }
        requires few { self.old.grants < 2 ^ 32 }
        requires inside { IsInside (D.told disk.old).blocks self.old }
        ensures answers { GoesBy D.goes disk.old disk.new
            (λ es. Steps self.old self.new (D.told disk.new) (Ok (line_of step.now)) es out.new.said
            (bytes_shown out.new)) }
        ensures said { IsSaid out.new.said }
        ensures inside { IsInside (D.told disk.old).blocks self.new }
        ensures counts { CountsLine self.old self.new }
    {
        match step {
            Step::Log(name, ..)
            | Step::Queue(name, ..)
            | Step::Append(name, ..)
            | Step::Push(name, ..)
            | Step::Trim(name, ..)
            | Step::Pop(name, ..)
            | Step::Walk(name, ..)
            | Step::Poll(name, ..)
            | Step::Close(name, ..) => self.act_log(name, step, disk, out),
            _ => say(out, Said::Refused(Refusal::UnknownWord)),
        }
    }

    // A line about a log or queue of its application.
    fn act_log<D: Disk>(&mut self, name: &AppName, step: &Step<'_>, disk: &mut D, out: &mut Reply)
        requires logs { is_log_line (line_of step.now) ≡ true }
        requires ranges { InRange (line_of step.now) }
        requires owner { owner (line_of step.now) ≡ Some name.now }
        requires few { self.old.grants < 2 ^ 32 }
        requires inside { IsInside (D.told disk.old).blocks self.old }
        ensures answers { GoesBy D.goes disk.old disk.new
            (λ es. Steps self.old self.new (D.told disk.new) (Ok (line_of step.now)) es out.new.said
            (bytes_shown out.new)) }
        ensures said { IsSaid out.new.said }
        ensures inside { IsInside (D.told disk.old).blocks self.new }
        ensures counts { Counts self.old self.new 0 1 }
    {
        let Some(place) = place_of(&self.apps, name) else {
            say(out, Said::Refused(Refusal::NoApplication));
            return;
        };
        act(&mut self.apps[place], step, self.alloc, disk, out);
        self.grants += 1;
    }
}
