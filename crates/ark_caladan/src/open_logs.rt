// Laws of an open log or queue, event by event, each the contract of a function that does nothing.
ghost use Rattle.std.specs.Prelude.{◌≡◌, ◌<◌, ◌≤◌, ◌⊎◌, ◌+◌, ◌-◌, ◌*◌, ◌%◌, ◌^◌, ◌∷◌, ◌++◌};
ghost use Rattle.std.specs.Prelude.{ℕ, suc, Bool, true, false, List, [], Some, None, Contains};
ghost use Rattle.std.specs.Prelude.{length, get_or, take, drop, map, sum_by, slice_range};
ghost use Rattle.ark_base.specs.declared.kind.Kind.{Kind};
ghost use Rattle.ark_media.specs.Journal.{Event, History, Out, block, current, zero_block};
ghost use Rattle.ark_media.specs.Calls.{Call, Syncs, Comes};
ghost use Rattle.ark_media.specs.Stops.{MayLeave, Whole};
ghost use Rattle.ark_media.specs.Standing.{after, MayStand};
ghost use Rattle.ark_entry.specs.Entry.{entry_blocks};
ghost use Rattle.ark_entry.specs.Found.{Entries, found, found_of};
ghost use Rattle.ark_entry.specs.Reading.{Entry, Stands};
ghost use Rattle.ark_entry.specs.Writing.{at};
ghost use Rattle.ark_caladan.specs.Chain.{Command, append, trim, pop, Waiting, Opened, Log};
ghost use Rattle.ark_caladan.specs.Chain.{after_command, after_all, next_number, blocks_of};
ghost use Rattle.ark_caladan.specs.Chain.{entries, commands, stored, lists, in_progress, phases_of};
ghost use Rattle.ark_caladan.specs.Numbers.{CanFollow};
ghost use Rattle.ark_caladan.specs.Leaves.{LiesInRing, freed_by};
ghost use Rattle.ark_caladan.specs.Views.{OnDisk, Elsewhere, AreApart, contents_at, repaired};
ghost use Rattle.ark_caladan.specs.Listed.{IsListed, AreFull, WritesFull, SameAt};
ghost use Rattle.ark_caladan.specs.Stages.{syncs, calls_of, call_of};
ghost use Rattle.ark_caladan.specs.Plans.{stages_of, phase_of, ring_place, added_by, CanWait};
ghost use Rattle.ark_caladan.specs.Postings.{flushes, posted_call, postings_of, place_behind};
ghost use Rattle.ark_caladan.specs.Postings.{HoldsEntry, HoldEntries, HasRead, bytes_block};
ghost use Rattle.ark_caladan.specs.Open.{Layout, layout_after, oldest_stages, freed_first, IsOpenWith};
ghost use Rattle.ark_caladan.specs.Repairing.{Repair, IsRepair, repair_stages, repaired_layout, Repairing};
ghost use Rattle.ark_caladan.specs.Standing.{Progress, idle, posted, ended, calls_made, stage_at, after_event};
ghost use Rattle.ark_caladan.specs.Standing.{Proceeds, LogStands};

/// At each moment what stands of a log is its stored list, and what a stop may leave is one of its lists. A log stands while its
/// blocks have what they had; so they have over calls elsewhere, as writes of other blocks, reads and syncs, and over bytes put out.
/// Blocks of 512 bytes stay so. Where no write since the last sync may change an area, a log that is not open there is what is found.
pub fn log_laws()
    ensures listed { (history : History) (blocks : List ℕ) (g : Log) (p : Layout)
        (progress : Progress) → AreFull history blocks → LogStands history blocks g p progress
        → IsListed history blocks g }
    ensures left_found { (history : History) (blocks : List ℕ) (g : Log)
        → OnDisk blocks history.base → IsListed history blocks g
        → (image : List (List ℕ)) → MayLeave Whole history.base history.journal image
        → Contains (lists g) (found_of g.kind (contents_at image blocks)) }
    ensures same { (before later : History) (blocks : List ℕ) (g : Log) (p : Layout)
        (progress : Progress) → OnDisk blocks later.base → SameAt before later blocks
        → LogStands before blocks g p progress → LogStands later blocks g p progress }
    ensures elsewhere { (history : History) (blocks : List ℕ) → OnDisk blocks history.base
        → (call : Call) (ok : Bool) (e : Event) → Elsewhere blocks call → Comes call ok e
        → SameAt history (after history (e ∷ [])) blocks }
    ensures output { (history : History) (blocks bytes : List ℕ)
        → SameAt history (after history (Out bytes ∷ [])) blocks }
    ensures full { (history : History) (blocks : List ℕ) → OnDisk blocks history.base
        → (call : Call) (ok : Bool) (e : Event) → WritesFull call → Comes call ok e
        → AreFull history blocks → AreFull (after history (e ∷ [])) blocks }
    ensures settled { (history : History) (blocks : List ℕ) (g : Log) → OnDisk blocks history.base
        → ((k : ℕ) → k < length blocks → (c : List ℕ) → MayStand history (get_or blocks k 0) c
        → c ≡ block (current history.base history.journal) (get_or blocks k 0))
        → g.list ≡ found_of g.kind (contents_at (current history.base history.journal) blocks)
        → g.opened ≡ None → g.left ≡ None → IsListed history blocks g }
{}

/// What the calls of an open log's oldest command do. One that succeeds is made. One that fails, taken or not, leaves the log as it
/// says itself from then on; so does a descriptor that ends without a call, and a log that is closed. Behind the last call of a
/// stage the next one is posted, and behind the last stage the command is acknowledged. One more command may wait.
pub fn call_laws()
    ensures starts { (blocks : List ℕ) (g : Log) (p : Layout) (history : History) (o : Opened)
        → Proceeds history blocks g o p idle → Proceeds history blocks g o p (posted 0) }
    ensures made { (blocks : List ℕ) (g : Log) (p : Layout) (history : History) (o : Opened)
        (progress : Progress) → Proceeds history blocks g o p progress → 0 < length (commands o)
        → (e : Event) (further : Progress) → let s = stage_at g o p in
        calls_made s progress < calls_of s → calls_made s further ≡ suc (calls_made s progress)
        → Comes (call_of blocks s (calls_made s progress)) true e
        → let o2 = after_event o s e in
        Proceeds (after history (e ∷ [])) blocks (record g { opened = Some o2 }) o2 p further }
    ensures failed { (blocks : List ℕ) (g : Log) (p : Layout) (history : History) (o : Opened)
        (progress : Progress) → Proceeds history blocks g o p progress → 0 < length (commands o)
        → (e : Event) → AreFull (after history (e ∷ [])) blocks → let s = stage_at g o p in
        calls_made s progress < calls_of s
        → Comes (call_of blocks s (calls_made s progress)) false e
        → IsListed (after history (e ∷ [])) blocks
        (record g { opened = Some (after_event o s e) }) }
    ensures apart { (blocks : List ℕ) (g : Log) (p : Layout) (history : History) (o : Opened)
        (progress : Progress) → Proceeds history blocks g o p progress → 0 < length (commands o)
        → (other : List ℕ) → AreApart blocks other → let s = stage_at g o p in
        calls_made s progress < calls_of s
        → Elsewhere other (call_of blocks s (calls_made s progress)) }
    ensures next_stage { (blocks : List ℕ) (g : Log) (p : Layout) (history : History) (o : Opened)
        (progress : Progress) → Proceeds history blocks g o p progress → 0 < length (commands o)
        → (done : ℕ) → done ≡ suc o.done → progress ≡ ended true
        → done < length (oldest_stages g.kind (g.blocks - 1) p (entries g.list) (commands o))
        → let o2 = record o { done = done } in
        Proceeds history blocks (record g { opened = Some o2 }) o2 p (posted 0) }
    ensures acknowledged { (blocks : List ℕ) (g : Log) (p : Layout) (history : History) (o : Opened)
        → Proceeds history blocks g o p (ended true) → (w : Waiting) (ws : List Waiting)
        → o.waiting ≡ w ∷ ws
        → suc o.done ≡ length (stages_of g.kind (g.blocks - 1) p.header p.says p.stored
        (entries g.list) w.command)
        → let o2 = record o { waiting = drop 1 o.waiting; done = 0; decided = false } in
        let l = after_command (entries g.list) w.command in
        Proceeds history blocks (record g { list = found l; opened = Some o2 }) o2
        (layout_after g.kind (g.blocks - 1) p (entries g.list) w.command) idle }
    ensures accepts { (blocks : List ℕ) (g : Log) (p : Layout) (history : History) (o : Opened)
        (progress : Progress) (w : Waiting) → Proceeds history blocks g o p progress
        → CanWait (g.blocks - 1) (entries g.list) (commands o ++ w.command ∷ [])
        → (length (commands o) ≡ 0 → progress ≡ idle)
        → let o2 = record o { waiting = o.waiting ++ w ∷ [] } in
        Proceeds history blocks (record g { opened = Some o2 }) o2 p progress }
    ensures stops { (blocks : List ℕ) (g : Log) (p : Layout) (history : History) (o : Opened)
        (progress : Progress) → AreFull history blocks → g.opened ≡ Some o
        → Proceeds history blocks g o p progress → IsListed history blocks g
        × IsListed history blocks (record g { left = in_progress g; opened = None }) }
{}

/// An opening, from its first sync to its last. At each moment of it the list that it found stands, and a stop leaves that alone.
/// Behind the last sync the log is open with that list. The places to write are the header's and those of the ring, behind the list,
/// that are not zero.
pub fn repair_laws()
    ensures places { (room start used : ℕ) (header : List ℕ) (seen : List (List ℕ))
        (places : List ℕ)
        → ((q : ℕ) → q < room → ((q + room - start) % room < used)
        ⊎ ((block seen (suc q) ≡ zero_block)
        ⊎ ((i : ℕ) × (i < length places) × (get_or places i 0 ≡ suc q))))
        → ((i : ℕ) × (i < length places) × (get_or places i 0 ≡ 0)) → (k : ℕ) → k < suc room
        → (block seen k ≡ repaired room start used header (block seen) k)
        ⊎ ((i : ℕ) × (i < length places) × (get_or places i 0 ≡ k)) }
    ensures begins { (kind : Kind) (room : ℕ) (blocks : List ℕ) (r : Repair) (history : History)
        (e : Event) → length blocks ≡ suc room → 0 < room → OnDisk blocks history.base
        → r.seen ≡ contents_at (current history.base history.journal) blocks
        → IsRepair kind room r → Comes Syncs true e
        → Repairing kind room (after history (e ∷ [])) blocks r 0 0 }
    ensures listed { (kind : Kind) (room : ℕ) (blocks : List ℕ) (r : Repair) (history : History)
        (done n : ℕ) → Repairing kind room history blocks r done n
        → (g : Log) → g.kind ≡ kind → stored g ≡ found r.list → AreFull history blocks
        → IsListed history blocks g }
    ensures made { (kind : Kind) (room : ℕ) (blocks : List ℕ) (r : Repair) (history : History)
        (done n : ℕ) → Repairing kind room history blocks r done n
        → (e : Event) → let s = get_or (repair_stages room r) done syncs in n < calls_of s
        → Comes (call_of blocks s n) true e
        → Repairing kind room (after history (e ∷ [])) blocks r done (suc n) }
    ensures failed { (kind : Kind) (room : ℕ) (blocks : List ℕ) (r : Repair) (history : History)
        (done n : ℕ) → Repairing kind room history blocks r done n
        → (g : Log) → g.kind ≡ kind → stored g ≡ found r.list
        → (e : Event) → AreFull (after history (e ∷ [])) blocks
        → let s = get_or (repair_stages room r) done syncs in n < calls_of s
        → Comes (call_of blocks s n) false e → IsListed (after history (e ∷ [])) blocks g }
    ensures written { (kind : Kind) (room : ℕ) (blocks : List ℕ) (r : Repair) (history : History)
        → Repairing kind room history blocks r 0 (length r.places)
        → Repairing kind room history blocks r 1 0 }
    ensures opens { (kind : Kind) (room : ℕ) (blocks : List ℕ) (r : Repair) (history : History)
        → room < 2 ^ 32 → Repairing kind room history blocks r 1 1
        → (g : Log) (o : Opened) → g.kind ≡ kind → g.blocks ≡ suc room → stored g ≡ found r.list
        → o.waiting ≡ [] → o.done ≡ 0 → o.decided ≡ false
        → Proceeds history blocks (record g { list = stored g; left = None; opened = Some o }) o
        (repaired_layout r) idle }
{}

/// What an open log posts and reads: its descriptors make the calls of its stages, as many as the phases of the command say, and
/// each stage makes one. A walk reads the list's own blocks at each moment, but for those that the oldest command frees; an entry
/// stands behind the blocks of those before it.
pub fn posting_laws()
    ensures posts { (kind : Kind) (room : ℕ) (history : History) (blocks : List ℕ) (p : Layout)
        (l : Entries) (c : Command) (cs : List Command) (done n : ℕ)
        → IsOpenWith kind room history blocks p l (c ∷ cs) done n → (i k : ℕ)
        → i < length (stages_of kind room p.header p.says p.stored l c)
        → let s = get_or (stages_of kind room p.header p.says p.stored l c) i syncs in
        k < calls_of s → posted_call blocks (get_or (postings_of kind room p.says l c) i flushes) k
        ≡ call_of blocks s k }
    ensures some_calls { (kind : Kind) (room : ℕ) (p : Layout) (l : Entries) (c : Command)
        → CanFollow l c → (i : ℕ) → let stages = stages_of kind room p.header p.says p.stored l c in
        i < length stages → 1 ≤ calls_of (get_or stages i syncs) }
    ensures phases { (kind : Kind) (room : ℕ) (p : Layout) (l : Entries) (c : Command)
        → map phase_of (stages_of kind room p.header p.says p.stored l c) ≡ phases_of l c }
    ensures reads { (kind : Kind) (room : ℕ) (history : History) (blocks : List ℕ) (p : Layout)
        (l : Entries) (cs : List Command) (done n u : ℕ)
        → IsOpenWith kind room history blocks p l cs done n → u < length p.stored
        → freed_first l cs ≤ u
        → block (current history.base history.journal)
        (get_or blocks (ring_place room p.says.start u) 0) ≡ at p.stored u }
    ensures entry { (room start : ℕ) (r : ℕ → List ℕ) (u number : ℕ) (xs : List (List ℕ))
        (end i : ℕ) → Stands room start r u number xs end → i < length xs
        → Entry room start r (u + blocks_of (take i xs)) (number + i) (get_or xs i []) }
{}

/// Which commands may wait behind others: an append of the next number for which there is room, and a trim and a pop that follow
/// them.
pub fn waiting_laws()
    ensures appends { (room : ℕ) (l : Entries) (cs : List Command) (n : ℕ) (payload : List ℕ)
        → CanWait room l cs → n ≡ next_number (after_all l cs) → n ≤ 2 ^ 62
        → length payload ≤ 32768
        → blocks_of l.payloads + sum_by added_by cs + entry_blocks (length payload) ≤ room
        → CanWait room l (cs ++ append n payload ∷ []) }
    ensures trims { (room : ℕ) (l : Entries) (cs : List Command) (n : ℕ) → CanWait room l cs
        → CanFollow (after_all l cs) (trim n) → CanWait room l (cs ++ trim n ∷ []) }
    ensures pops { (room : ℕ) (l : Entries) (cs : List Command) (n : ℕ) → CanWait room l cs
        → CanFollow (after_all l cs) (pop n) → CanWait room l (cs ++ pop n ∷ []) }
{}

/// What the buffers of waiting commands hold. That of an append has its payload, and its entry as it will stand, from its acceptance
/// on, whatever is acknowledged before it; that of a pop has the blocks of the oldest entry, which are read one by one. Buffers that
/// begin alike have the same blocks there.
pub fn buffer_laws()
    ensures same { (count k : ℕ) (a b : List ℕ) → k < count
        → take (512 * count) a ≡ take (512 * count) b → bytes_block a k ≡ bytes_block b k }
    ensures payload { (room place done n : ℕ) (payload b : List ℕ)
        → HoldsEntry room place done (append n payload) b
        → slice_range b 20 (20 + length payload) ≡ payload }
    ensures acknowledged { (kind : Kind) (room : ℕ) (p : Layout) (l : Entries) (done : ℕ)
        (c : Command) (cs : List Command) (b : List ℕ) (bs : List (List ℕ))
        → HoldEntries room (place_behind p.says l) done (c ∷ cs) (b ∷ bs)
        → HoldEntries room (place_behind (layout_after kind room p l c).says (after_command l c)) 0
        cs bs }
    ensures accepted { (room place done : ℕ) (cs : List Command) (bs : List (List ℕ)) (c : Command)
        (b : List ℕ) → (0 < length cs ⊎ (done ≡ 0)) → HoldEntries room place done cs bs
        → HoldsEntry room (place + sum_by added_by cs) 0 c b
        → HoldEntries room place done (cs ++ c ∷ []) (bs ++ b ∷ []) }
    ensures pop_reads { (kind : Kind) (room : ℕ) (history : History) (blocks : List ℕ) (p : Layout)
        (l : Entries) (m : ℕ) (cs : List Command) (n : ℕ)
        → IsOpenWith kind room history blocks p l (pop m ∷ cs) 0 n → n < freed_by l (pop m)
        → block (current history.base history.journal)
        (get_or blocks (ring_place room p.says.start n) 0) ≡ at p.stored n }
    ensures read_more { (stored : List (List ℕ)) (n : ℕ) (b b2 : List ℕ) → HasRead stored n b
        → take (512 * suc n) b2 ≡ take (512 * n) b ++ at stored n → HasRead stored (suc n) b2 }
    ensures popped { (kind : Kind) (room : ℕ) (p : Layout) (l : Entries) (x : List ℕ)
        (xs : List (List ℕ)) (b : List ℕ) → l.payloads ≡ x ∷ xs
        → LiesInRing kind room p.header p.says p.stored l
        → HasRead p.stored (entry_blocks (length x)) b
        → slice_range (take (512 * entry_blocks (length x)) b) 20 (20 + length x) ≡ x }
{}
