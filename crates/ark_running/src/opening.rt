// Laws of opening and closing.
ghost use Rattle.std.specs.Prelude.{◌≡◌, ◌⊎◌, ℕ, suc, true, List, [], Some, None};
ghost use Rattle.ark_media.specs.Journal.{History};
ghost use Rattle.ark_region.specs.Frames.{Space};
ghost use Rattle.ark_vic.specs.Queue.{Queue, members};
ghost use Rattle.ark_entry.specs.Found.{found};
ghost use Rattle.ark_caladan.specs.Chain.{Log, Opened, in_progress, stored};
ghost use Rattle.ark_caladan.specs.Listed.{AreFull, IsListed};
ghost use Rattle.ark_caladan.specs.Open.{Layout};
ghost use Rattle.ark_caladan.specs.Repairing.{Repair, Repairing, repaired_layout};
ghost use Rattle.ark_log.specs.Open.{IsRight, OpenChain};
ghost use Rattle.ark_log.specs.Stands.{StandsFor};
ghost use Rattle.ark_running.specs.Opened.{IsNewlyOpen, IsRingEmpty, newly_opened, opened_log};
ghost use Rattle.ark_running.specs.Running.{IsRunning};

use ark_caladan::repair_laws;

/// A chain that has found a list, on a card with nothing in its ring, runs once the repair of its area is whole.
pub fn opening_laws()
    ensures opens { (h : History) (blocks : List ℕ) (space : Space) (ring : Queue) (v : OpenChain)
        (r : Repair) (g : Log) (card : List ℕ) → IsRight v → IsNewlyOpen v space
        → IsRingEmpty ring → StandsFor v r.list [] → Repairing v.kind v.room h blocks r 1 1
        → r.new.start ≡ v.start → v.kind ≡ g.kind → g.blocks ≡ suc v.room
        → stored g ≡ found r.list → AreFull h blocks → IsRunning h blocks space ring v
        (repaired_layout r) (opened_log card v g) (newly_opened card v) }
{
    repair_laws();
}

/// Once it is closed, its stored list stands, and a stop leaves one of its lists. Where it has failed or no command waits, its ring
/// has nothing of it.
pub fn closing_laws()
    ensures closes { (h : History) (blocks : List ℕ) (space : Space) (ring : Queue) (v : OpenChain)
        (p : Layout) (g : Log) (o : Opened) → IsRunning h blocks space ring v p g o
        → IsListed h blocks (record g { left = in_progress g; opened = None }) }
    ensures full { (h : History) (blocks : List ℕ) (space : Space) (ring : Queue) (v : OpenChain)
        (p : Layout) (g : Log) (o : Opened) → IsRunning h blocks space ring v p g o
        → AreFull h blocks }
    ensures free { (h : History) (blocks : List ℕ) (space : Space) (ring : Queue) (v : OpenChain)
        (p : Layout) (g : Log) (o : Opened) → IsRunning h blocks space ring v p g o
        → (v.failed ≡ true) ⊎ (v.waiting ≡ []) → members ring ≡ 0 }
{}
