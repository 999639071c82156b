ghost use Rattle.std.specs.Prelude.{◌≡◌, ◌+◌, ◌^◌, ◌<◌, ℕ, []};
ghost use Rattle.ark_media.specs.Journal.{History};
ghost use Rattle.ark_script.specs.Text.{IsSaid};
ghost use Rattle.ark_host.specs.Inside.{KeepsInside};
ghost use Rattle.ark_host.specs.Time.{Counts};
ghost use Rattle.ark_machine.specs.System.{System, tick_turn};

use super::Host;
use ark_script::Said;

impl Host {
    ghost use Rattle.ark_host.specs.Stands.{Stands, TurnDone};

    // The word `tick`: time goes on for every machine.
    pub(super) fn tick(&mut self, ticks: u64) -> Said
        requires room { self.old.clock + ticks < 2 ^ 64 }
        ensures turned { (size : ℕ) (h : History) (s : System) → Stands self.old size h s →
            TurnDone self.new size h (tick_turn s ticks) result [] }
        ensures said { IsSaid result }
        ensures counts { Counts self.old self.new ticks 0 }
        ensures inside { KeepsInside self.old self.new }
    {
        self.clock += ticks;
        Said::Num(self.clock)
    }
}
