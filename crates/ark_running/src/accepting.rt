// Laws of commands that are accepted and refused.
ghost use Rattle.std.specs.Prelude.{◌≡◌, ◌<◌, ◌≤◌, ◌+◌, ◌-◌, ◌∷◌, ℕ, false, List, [], None, length, get_or, sum_by};
ghost use Rattle.std.specs.List.{AllByRecursion};
ghost use Rattle.ark_media.specs.Journal.{History};
ghost use Rattle.ark_region.specs.Frames.{Apart, Space};
ghost use Rattle.ark_vic.specs.Queue.{Queue};
ghost use Rattle.ark_entry.specs.Entry.{entry_blocks};
ghost use Rattle.ark_caladan.specs.Chain as log;
ghost use Rattle.ark_caladan.specs.Chain.{Log, Opened, after_all, blocks_of, commands, entries};
ghost use Rattle.ark_caladan.specs.Open.{Layout};
ghost use Rattle.ark_caladan.specs.Plans.{added_by};
ghost use Rattle.ark_log.specs.declared.command.Command.TheVariants as command;
ghost use Rattle.ark_log.specs.Open.{IsRight, OpenChain};
ghost use Rattle.ark_log.specs.Refused.{IsFull, length_of, next_number};
ghost use Rattle.ark_log.specs.Waits.{WaitsToAppend, WaitsToPop, waits};
ghost use Rattle.ark_running.specs.Accepted.{with_one_more, with_opened};
ghost use Rattle.ark_running.specs.Buffers.{pieces_of};
ghost use Rattle.ark_running.specs.Running.{IsRunning};

/// It runs on when a command is accepted that its machine accepts: an append and a pop with a new buffer, apart from all that it has.
pub fn accepting_laws()
    ensures appends { (h : History) (blocks : List ℕ) (before after : Space) (ring : Queue)
        (v w : OpenChain) (p : Layout) (g : Log) (o : Opened) (payload : List ℕ)
        → IsRunning h blocks before ring v p g o → v.failed ≡ false
        → (made : WaitsToAppend payload v w before after) → IsRight w
        → length payload ≤ 32768 → ¬ IsFull v (entry_blocks (length payload))
        → length after.taken ≡ length before.taken
        → AllByRecursion (Apart made.buffer) (pieces_of v) → let o2 = with_one_more o (record {
          command = log.append (next_number v) payload;
          room = (made.buffer.start, entry_blocks (length payload)) ∷ [];
        }) in IsRunning h blocks after ring w p (with_opened g o2) o2 }
    ensures trims { (h : History) (blocks : List ℕ) (space : Space) (ring : Queue) (v : OpenChain)
        (p : Layout) (g : Log) (o : Opened) (n : ℕ) → IsRunning h blocks space ring v p g o
        → v.failed ≡ false → let w = waits v (record {
          command = command.Trim n;
          len = 0;
          start = 0;
          buf = None;
        }) n in IsRight w → v.coming < n → n ≤ next_number v
        → let o2 = with_one_more o (record { command = log.trim n; room = [] }) in
        IsRunning h blocks space ring w p (with_opened g o2) o2 }
    ensures pops { (h : History) (blocks : List ℕ) (before after : Space) (ring : Queue)
        (v w : OpenChain) (p : Layout) (g : Log) (o : Opened)
        → IsRunning h blocks before ring v p g o → v.failed ≡ false
        → (made : WaitsToPop v w before after) → IsRight w → v.coming < next_number v
        → length after.taken ≡ length before.taken
        → AllByRecursion (Apart made.buffer) (pieces_of v) → let o2 = with_one_more o (record {
          command = log.pop v.coming;
          room = (made.buffer.start, entry_blocks (length_of v v.coming)) ∷ [];
        }) in IsRunning h blocks after ring w p (with_opened g o2) o2 }
{}

/// What a refusal asks, in its machine's terms: the numbers and blocks of the list and of all commands, the length of the first entry
/// that no command drops, and how many commands wait.
pub fn refusing_laws()
    ensures coming { (h : History) (blocks : List ℕ) (space : Space) (ring : Queue) (v : OpenChain)
        (p : Layout) (g : Log) (o : Opened) → IsRunning h blocks space ring v p g o
        → v.coming ≡ (after_all (entries g.list) (commands o)).first }
    ensures next { (h : History) (blocks : List ℕ) (space : Space) (ring : Queue) (v : OpenChain)
        (p : Layout) (g : Log) (o : Opened) → IsRunning h blocks space ring v p g o
        → next_number v ≡ log.next_number (after_all (entries g.list) (commands o)) }
    ensures used { (h : History) (blocks : List ℕ) (space : Space) (ring : Queue) (v : OpenChain)
        (p : Layout) (g : Log) (o : Opened) → IsRunning h blocks space ring v p g o
        → v.used ≡ blocks_of (entries g.list).payloads + sum_by added_by (commands o) }
    ensures room { (h : History) (blocks : List ℕ) (space : Space) (ring : Queue) (v : OpenChain)
        (p : Layout) (g : Log) (o : Opened) → IsRunning h blocks space ring v p g o
        → v.room ≡ g.blocks - 1 }
    ensures first { (h : History) (blocks : List ℕ) (space : Space) (ring : Queue) (v : OpenChain)
        (p : Layout) (g : Log) (o : Opened) → IsRunning h blocks space ring v p g o
        → length_of v v.coming
        ≡ length (get_or (after_all (entries g.list) (commands o)).payloads 0 []) }
    ensures many { (h : History) (blocks : List ℕ) (space : Space) (ring : Queue) (v : OpenChain)
        (p : Layout) (g : Log) (o : Opened) → IsRunning h blocks space ring v p g o
        → length v.waiting ≡ length o.waiting }
    ensures failed { (h : History) (blocks : List ℕ) (space : Space) (ring : Queue) (v : OpenChain)
        (p : Layout) (g : Log) (o : Opened) → IsRunning h blocks space ring v p g o
        → v.failed ≡ o.failed }
{}
