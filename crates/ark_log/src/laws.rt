// Laws of the definitions, each the contract of a function that does nothing but call others.
ghost use Rattle.std.specs.Prelude.{◌≡◌, ◌≤◌, ◌<◌, ◌+◌, ◌∷◌, ◌++◌, ℕ, List, Bool, [], Some, None, length, map, sum_by};
ghost use Rattle.ark_base.specs.declared.kind.Kind.{Kind};
ghost use Rattle.ark_region.specs.Frames.{Piece, Space, bytes_of};
ghost use Rattle.ark_entry.specs.Header.{Header};
ghost use Rattle.ark_entry.specs.Entry.{entry_blocks};
ghost use Rattle.ark_entry.specs.Found.{Entries};
ghost use Rattle.ark_caladan.specs.Chain as log;
ghost use Rattle.ark_caladan.specs.Numbers.{CanFollow};
ghost use Rattle.ark_caladan.specs.Plans as plans;
ghost use Rattle.ark_caladan.specs.Plans.{CanWait, added_by};
ghost use Rattle.ark_caladan.specs.Postings.{HoldsEntry};
ghost use Rattle.ark_log.specs.declared.command.Command.{Command};
ghost use Rattle.ark_log.specs.declared.command.Command.TheVariants as command;
ghost use Rattle.ark_log.specs.Open.{OpenChain, IsRight, new_chain};
ghost use Rattle.ark_log.specs.Refused.{IsFull, next_number};
ghost use Rattle.ark_log.specs.Waits.{WaitsToAppend, WaitsToPop, waits};
ghost use Rattle.ark_log.specs.declared.command.Waiting.{Waiting};
ghost use Rattle.ark_log.specs.Acked.{acknowledged};
ghost use Rattle.ark_log.specs.declared.stage.Stage.{Stage};
ghost use Rattle.ark_log.specs.Closed.{HasBuffersIn};
ghost use Rattle.ark_log.specs.Polled.{MayEnd, stage_of};
ghost use Rattle.ark_log.specs.Stages.{IsWhole, header_after, posting_of, stage_with, stages_of};
ghost use Rattle.ark_log.specs.Stands.{IsCommand, StandsFor, phase_does, stage_does};

use ark_caladan::waiting_laws;

/// An open log stands for a list and the commands that wait: its next number is the one behind the list that stands after all of them,
/// and the blocks that it uses are those of the list and of the entries that wait. A command that is accepted waits behind the others, and
/// all of them can be carried out. The buffer of an append has its entry as it will stand, whatever is acknowledged before it. Once
/// the oldest command is acknowledged, it stands for the list after that, and for the others.
pub fn standing_laws()
    ensures starts { (kind : Kind) (grant room : ℕ) (header : Piece)
        → StandsFor (new_chain kind grant room header) (record { first = 1; payloads = [] }) [] }
    ensures next { (v : OpenChain) (l : Entries) (cs : List log.Command) → StandsFor v l cs
        → CanWait v.room l cs → next_number v ≡ log.next_number (log.after_all l cs) }
    ensures used { (v : OpenChain) (l : Entries) (cs : List log.Command) → IsRight v
        → StandsFor v l cs → v.used ≡ log.blocks_of l.payloads + sum_by added_by cs }
    ensures appends { (v w : OpenChain) (l : Entries) (cs : List log.Command) (payload : List ℕ)
        (before after : Space) → StandsFor v l cs → WaitsToAppend payload v w before after
        → StandsFor w l (cs ++ log.append (next_number v) payload ∷ []) }
    ensures can_append { (v : OpenChain) (l : Entries) (cs : List log.Command) (payload : List ℕ)
        → IsRight v → StandsFor v l cs → CanWait v.room l cs → length payload ≤ 32768
        → ¬ IsFull v (entry_blocks (length payload))
        → CanWait v.room l (cs ++ log.append (next_number v) payload ∷ []) }
    ensures holds { (v w : OpenChain) (l : Entries) (cs : List log.Command) (payload : List ℕ)
        (before after : Space) → IsRight v → StandsFor v l cs
        → (made : WaitsToAppend payload v w before after)
        → HoldsEntry v.room (v.start + log.blocks_of l.payloads + sum_by added_by cs) 0
        (log.append (next_number v) payload) (bytes_of after made.buffer) }
    ensures trims { (v : OpenChain) (l : Entries) (cs : List log.Command) (n : ℕ)
        → StandsFor v l cs → StandsFor (waits v (record {
          command = command.Trim n;
          len = 0;
          start = 0;
          buf = None;
        }) n) l (cs ++ log.trim n ∷ []) }
    ensures can_trim { (v : OpenChain) (l : Entries) (cs : List log.Command) (n : ℕ)
        → StandsFor v l cs → CanWait v.room l cs → v.coming < n → n ≤ next_number v
        → CanWait v.room l (cs ++ log.trim n ∷ []) }
    ensures pops { (v w : OpenChain) (l : Entries) (cs : List log.Command) (before after : Space)
        → StandsFor v l cs → WaitsToPop v w before after
        → StandsFor w l (cs ++ log.pop v.coming ∷ []) }
    ensures can_pop { (v : OpenChain) (l : Entries) (cs : List log.Command) → StandsFor v l cs
        → CanWait v.room l cs → v.coming < next_number v
        → CanWait v.room l (cs ++ log.pop v.coming ∷ []) }
    ensures acknowledged { (v : OpenChain) (w : Waiting) (ws : List Waiting) (l : Entries)
        (c : log.Command) (cs : List log.Command) → v.waiting ≡ w ∷ ws → StandsFor v l (c ∷ cs)
        → CanWait v.room l (c ∷ cs)
        → StandsFor (acknowledged v w.command) (log.after_command l c) cs }
{
    waiting_laws();
}

/// The stages of a command are the phases of the list's command that it stands for, and the header that it writes is that of the list
/// behind it. What is posted for a stage may end with the buffer that it has.
pub fn stage_laws()
    ensures phases { (command : Command) (l : Entries) (c : log.Command) → IsCommand command c
        → map stage_does (stages_of command) ≡ map phase_does (log.phases_of l c) }
    ensures trim_header { (v : OpenChain) (l : Entries) (n : ℕ) (cs : List log.Command)
        (h : Header) → IsRight v → StandsFor v l (log.trim n ∷ cs) → CanFollow l (log.trim n)
        → h.start ≡ v.start
        → header_after v (command.Trim n) ≡ plans.header_after v.room h l (log.trim n) }
    ensures pop_header { (v : OpenChain) (l : Entries) (n : ℕ) (cs : List log.Command)
        (h : Header) → IsRight v → StandsFor v l (log.pop n ∷ cs) → CanFollow l (log.pop n)
        → h.start ≡ v.start
        → header_after v (command.Pop n) ≡ plans.header_after v.room h l (log.pop n) }
    ensures ends { (v : OpenChain) (s : Stage) (taken : List Bool) → IsRight v
        → 0 < length v.waiting → stage_of v ≡ Some s → IsWhole v → HasBuffersIn taken v
        → MayEnd (stage_with v s None) taken (posting_of v s).buf }
{}

/// Buffers that no descriptor has stay so as commands are accepted and acknowledged; each command that wants one is accepted with it.
pub fn buffer_laws()
    ensures appends { (v w : OpenChain) (payload : List ℕ) (before after : Space) → IsWhole v
        → WaitsToAppend payload v w before after → IsWhole w }
    ensures pops { (v w : OpenChain) (before after : Space) → IsWhole v
        → WaitsToPop v w before after → IsWhole w }
    ensures trims { (v : OpenChain) (n : ℕ) → IsWhole v → IsWhole (waits v (record {
      command = command.Trim n;
      len = 0;
      start = 0;
      buf = None;
    }) n) }
    ensures acknowledged { (v : OpenChain) (c : Command) → IsWhole v → IsWhole (acknowledged v c) }
{}
