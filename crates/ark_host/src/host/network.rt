ghost use Rattle.std.specs.Prelude.{◌≡◌, ◌≤◌, ◌<◌, ◌+◌, ◌^◌, ℕ, [], Ok};
ghost use Rattle.ark_media.specs.Calls.{GoesBy};
ghost use Rattle.ark_media.specs.Journal.{History};
ghost use Rattle.ark_script.specs.Attributes.{attributes};
ghost use Rattle.ark_script.specs.Line.{line_of};
ghost use Rattle.ark_script.specs.Ranges.{InRange};
ghost use Rattle.ark_script.specs.Reply.{bytes_shown};
ghost use Rattle.ark_script.specs.Text.{IsSaid};
ghost use Rattle.ark_script.specs.declared.group.Group.TheVariants as group;
ghost use Rattle.ark_machine.specs.System.{System, nic_turn};
ghost use Rattle.ark_host.specs.Inside.{IsInside, KeepsInside};
ghost use Rattle.ark_host.specs.Time.{Counts, CountsLine};

use super::Host;
use ark_base::Refusal;
use ark_media::Disk;
use ark_own::say;
use ark_packet::Own;
use ark_script::{Reply, Said, Step};

impl Host {
    ghost use Rattle.ark_host.specs.Stands.{Stands, Steps, TurnDone};

    // A line about network cards.
    pub(super) fn network<D: Disk>(&mut self, disk: &mut D, step: &Step<'_>, out: &mut Reply)
        requires group { (attributes (line_of step.now)).group ≡ group.Network }
        requires ranges { InRange (line_of step.now) }
        requires few { self.old.grants < 2 ^ 32 }
        requires inside { IsInside (D.told disk.old).blocks self.old }
        ensures answers { GoesBy D.goes disk.old disk.new
            (λ es. Steps self.old self.new (D.told disk.new) (Ok (line_of step.now)) es out.new.said
            (bytes_shown out.new)) }
        ensures said { IsSaid out.new.said }
        ensures inside { IsInside (D.told disk.old).blocks self.new }
        ensures counts { CountsLine self.old self.new }
    {
        match step {
            Step::Nic(own) => {
                let said = self.nic(own);
                say(out, said);
            }
            Step::Vnic(name, ..) | Step::Post(name, ..) | Step::Take(name, ..) => {
                self.act_own(name, step, disk, out);
            }
            _ => say(out, Said::Refused(Refusal::UnknownWord)),
        }
    }

    // The word `nic`: this end's addresses, given once.
    fn nic(&mut self, own: &Own) -> Said
        ensures turned { (size : ℕ) (h : History) (s : System) → Stands self.old size h s →
            TurnDone self.new size h (nic_turn s own.now s.plane.own) result [] }
        ensures said { IsSaid result }
        ensures counts { Counts self.old self.new 0 0 }
        ensures inside { KeepsInside self.old self.new }
    {
        match self.plane.set_nic(*own) {
            Ok(()) => Said::Ok,
            Err(refusal) => Said::Refused(refusal),
        }
    }
}
