// Laws of polls.
ghost use Rattle.std.specs.Prelude.{◌≡◌, ◌≤◌, ◌-◌, ◌∷◌, ℕ, List, Some, None, slice_get};
ghost use Rattle.ark_media.specs.Journal.{History};
ghost use Rattle.ark_region.specs.Frames.{Space};
ghost use Rattle.ark_vic.specs.Queue.{Queue, members};
ghost use Rattle.ark_vic.specs.declared.descriptor.Completion.{Completion};
ghost use Rattle.ark_caladan.specs.Chain as log;
ghost use Rattle.ark_caladan.specs.Chain.{Log, Opened, entries};
ghost use Rattle.ark_caladan.specs.Open.{Layout, layout_after};
ghost use Rattle.ark_log.specs.declared.polling.Polled.{Polled};
ghost use Rattle.ark_log.specs.Closed.{HasBuffersIn};
ghost use Rattle.ark_log.specs.Open.{IsRight, OpenChain};
ghost use Rattle.ark_log.specs.Polled.{Around, EndsBadly, EndsWell, HasEnded, MayEnd, ended, stage_of};
ghost use Rattle.ark_log.specs.Stages.{IsWhole};
ghost use Rattle.ark_running.specs.Accepted.{with_opened};
ghost use Rattle.ark_running.specs.Polling.{acknowledging, failing, oldest_done};
ghost use Rattle.ark_running.specs.Running.{IsRunning};

/// What a poll and a closing ask: the ring has one member at most; where it has none, all buffers are there; and what is unreaped has
/// the buffer of the stage under way.
pub fn ring_laws()
    ensures alone { (h : History) (blocks : List ℕ) (space : Space) (ring : Queue) (v : OpenChain)
        (p : Layout) (g : Log) (o : Opened) → IsRunning h blocks space ring v p g o
        → members ring ≤ 1 }
    ensures whole { (h : History) (blocks : List ℕ) (space : Space) (ring : Queue) (v : OpenChain)
        (p : Layout) (g : Log) (o : Opened) → IsRunning h blocks space ring v p g o
        → members ring ≡ 0 → IsWhole v }
    ensures lies { (h : History) (blocks : List ℕ) (space : Space) (ring : Queue) (v : OpenChain)
        (p : Layout) (g : Log) (o : Opened) → IsRunning h blocks space ring v p g o
        → HasBuffersIn space.taken v }
    ensures may { (h : History) (blocks : List ℕ) (space : Space) (ring : Queue) (v : OpenChain)
        (p : Layout) (g : Log) (o : Opened) → IsRunning h blocks space ring v p g o
        → (c : Completion) → slice_get ring.unreaped 0 ≡ Some c → MayEnd v space.taken c.buf }
{}

/// What becomes of it where the oldest command's descriptor has ended: badly, and it has failed; or well at the last stage, and the
/// command is acknowledged.
pub fn ending_laws()
    ensures fails { (h : History) (blocks : List ℕ) (p : Layout) (g : Log) (o : Opened)
        (old new : Around) (result : Polled)
        → IsRunning h blocks old.space old.ring old.chain p g o
        → (ending : HasEnded old new result) → EndsBadly ending.ending old new result
        → IsRight new.chain
        → IsRunning h blocks new.space new.ring new.chain p (with_opened g (failing o))
        (failing o) }
    ensures acknowledges { (h : History) (blocks : List ℕ) (p : Layout) (g : Log) (o : Opened)
        (m : log.Waiting) (ms : List log.Waiting) (old new : Around) (result : Polled)
        → o.waiting ≡ m ∷ ms → IsRunning h blocks old.space old.ring old.chain p g o
        → (ending : HasEnded old new result) → EndsWell ending.ending old new result
        → stage_of (ended old.chain ending.ending.buf) ≡ None → IsRight new.chain
        → IsRunning h blocks new.space new.ring new.chain
        (layout_after g.kind (g.blocks - 1) p (entries g.list) m.command)
        (acknowledging m.command g o) (oldest_done o) }
{}
