ghost use Rattle.std.specs.Prelude.{◌≡◌, ◌≤◌, ◌<◌, ◌+◌, ◌^◌, Ok};
ghost use Rattle.ark_media.specs.Calls.{GoesBy};
ghost use Rattle.ark_script.specs.Attributes.{attributes};
ghost use Rattle.ark_script.specs.Line.{line_of};
ghost use Rattle.ark_script.specs.Ranges.{InRange};
ghost use Rattle.ark_script.specs.Reply.{bytes_shown};
ghost use Rattle.ark_script.specs.Text.{IsSaid};
ghost use Rattle.ark_script.specs.declared.group.Group.TheVariants as group;
ghost use Rattle.ark_host.specs.Inside.{IsInside};
ghost use Rattle.ark_host.specs.Time.{CountsLine};

use super::Host;
use ark_base::Refusal;
use ark_media::Disk;
use ark_own::say;
use ark_script::{Reply, Said, Step};

impl Host {
    ghost use Rattle.ark_host.specs.Stands.{Steps};

    // A line about rates and doors.
    pub(super) fn rates<D: Disk>(&mut self, disk: &mut D, step: &Step<'_>, out: &mut Reply)
        requires group { (attributes (line_of step.now)).group ≡ group.Rates }
        requires ranges { InRange (line_of step.now) }
        requires few { self.old.grants < 2 ^ 32 }
        requires inside { IsInside (D.told disk.old).blocks self.old }
        ensures answers { GoesBy D.goes disk.old disk.new
            (λ es. Steps self.old self.new (D.told disk.new) (Ok (line_of step.now)) es out.new.said
            (bytes_shown out.new)) }
        ensures said { IsSaid out.new.said }
        ensures inside { IsInside (D.told disk.old).blocks self.new }
        ensures counts { CountsLine self.old self.new }
    {
        match step {
            Step::Door(name, ..)
            | Step::Watch(name, ..)
            | Step::Look(name, ..)
            | Step::Rate(name, ..)
            | Step::Pace(name, ..) => {
                self.act_own(name, step, disk, out);
            }
            _ => say(out, Said::Refused(Refusal::UnknownWord)),
        }
    }
}
