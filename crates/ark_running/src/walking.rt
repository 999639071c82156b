// Laws of walks.
ghost use Rattle.std.specs.Prelude.{◌≡◌, ◌≤◌, ℕ, List, length, drop};
ghost use Rattle.ark_media.specs.Journal.{History, current};
ghost use Rattle.ark_region.specs.Frames.{Space};
ghost use Rattle.ark_vic.specs.Queue.{Queue};
ghost use Rattle.ark_entry.specs.Entry.{payload_at};
ghost use Rattle.ark_caladan.specs.Chain.{Log, Opened, after_all, commands, entries};
ghost use Rattle.ark_caladan.specs.Numbers.{HasEntry, payload_of};
ghost use Rattle.ark_caladan.specs.Open.{Layout};
ghost use Rattle.ark_caladan.specs.Views.{contents_at};
ghost use Rattle.ark_log.specs.Open.{OpenChain};
ghost use Rattle.ark_log.specs.Refused.{length_of};
ghost use Rattle.ark_log.specs.Walked.{HasAt, place_of};
ghost use Rattle.ark_running.specs.Running.{IsRunning};

/// What a walk reads, also where a call of the oldest command has failed: the acknowledged entries that no command drops, and of
/// each its payload.
pub fn walking_laws()
    ensures has { (h : History) (blocks : List ℕ) (space : Space) (ring : Queue) (v : OpenChain)
        (p : Layout) (g : Log) (o : Opened) → IsRunning h blocks space ring v p g o
        → (n : ℕ) → HasAt v n → HasEntry (entries g.list) n
        × ((after_all (entries g.list) (commands o)).first ≤ n) }
    ensures only { (h : History) (blocks : List ℕ) (space : Space) (ring : Queue) (v : OpenChain)
        (p : Layout) (g : Log) (o : Opened) → IsRunning h blocks space ring v p g o
        → (n : ℕ) → HasEntry (entries g.list) n
        → (after_all (entries g.list) (commands o)).first ≤ n → HasAt v n }
    ensures long { (h : History) (blocks : List ℕ) (space : Space) (ring : Queue) (v : OpenChain)
        (p : Layout) (g : Log) (o : Opened) → IsRunning h blocks space ring v p g o
        → (n : ℕ) → HasAt v n → length_of v n ≡ length (payload_of (entries g.list) n) }
    ensures payload { (h : History) (blocks : List ℕ) (space : Space) (ring : Queue)
        (v : OpenChain) (p : Layout) (g : Log) (o : Opened)
        → IsRunning h blocks space ring v p g o → (n : ℕ) → HasAt v n
        → payload_at (drop 1 (contents_at (current h.base h.journal) blocks)) (place_of v n)
        (length_of v n) ≡ payload_of (entries g.list) n }
{}
