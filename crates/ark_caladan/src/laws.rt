// Laws of the definitions, each the contract of a function that does nothing.
ghost use Rattle.std.specs.Prelude.{◌<◌, Bool, Some, None, ◌≡◌, ◌≤◌, ◌⊎◌, ◌∷◌, drop, ◌+◌, ◌-◌, ◌*◌, ◌%◌, ℕ, suc, List, length, take, Contains};
ghost use Rattle.ark_base.specs.declared.kind.Kind.{Kind};
ghost use Rattle.ark_media.specs.Journal.{zero_block};
ghost use Rattle.ark_entry.specs.Header.{Header, header_of};
ghost use Rattle.ark_entry.specs.Reading.{reading};
ghost use Rattle.ark_entry.specs.Repair.{used_by, blocks_read};
ghost use Rattle.ark_entry.specs.Entry.{entry_blocks};
ghost use Rattle.ark_entry.specs.Found.{Entries, Found, found, damaged, found_of};
ghost use Rattle.ark_entry.specs.Writing.{at, zeroed};
ghost use Rattle.ark_caladan.specs.Chain.{Command, append, trim, pop, after_command, after_all, next_number, blocks_of, phases_of, moves_of, Log, in_progress, lists, stored};
ghost use Rattle.ark_caladan.specs.Numbers.{CanFollow, AllFit, GoesOn, payload_of};
ghost use Rattle.ark_caladan.specs.Leaves.{LiesInRing, AreRingBlocks, RingHolds, HasRoom, with_draft, with_entry, dropped_by, freed_by, HeaderAfter, Repairs};
ghost use Rattle.ark_caladan.specs.Views.{view_of};

/// An append adds its payload behind the list and drops nothing. A trim drops the entries below its number, a pop the first one,
/// and neither adds one. After any commands the numbers have only gone on, and an entry that is still there is the same.
pub fn command_laws()
    ensures append_adds { (l : Entries) (n : ℕ) (payload : List ℕ) → CanFollow l (append n payload)
        → let m = after_command l (append n payload) in (m.first ≡ l.first) × (next_number m ≡ n + 1)
        × (payload_of m n ≡ payload) }
    ensures trim_drops { (l : Entries) (n : ℕ) → CanFollow l (trim n)
        → let m = after_command l (trim n) in (m.first ≡ n) × (next_number m ≡ next_number l) }
    ensures pop_drops { (l : Entries) (n : ℕ) → CanFollow l (pop n)
        → let m = after_command l (pop n) in (m.first ≡ n + 1) × (next_number m ≡ next_number l) }
    ensures all_go_on { (l : Entries) (cs : List Command) → AllFit l cs
        → GoesOn l (after_all l cs) }
{}

/// How many moves of its card's ring each command takes.
pub fn move_laws()
    ensures append_moves { (l : Entries) (n : ℕ) (payload : List ℕ)
        → moves_of (phases_of l (append n payload)) ≡ entry_blocks (length payload) + 3 }
    ensures trim_moves { (l : Entries) (n : ℕ)
        → moves_of (phases_of l (trim n)) ≡ blocks_of (take (n - l.first) l.payloads) + 3 }
    ensures pop_moves { (l : Entries) (n : ℕ)
        → moves_of (phases_of l (pop n)) ≡ 2 * blocks_of (take 1 l.payloads) + 3 }
{}

/// What a stop may leave of a log holds its acknowledged list, and what an opening would find. While a command is in progress it is
/// that list or the list after the command, and nothing else; with no command, or where the log is damaged, what is acknowledged alone.
pub fn list_laws()
    ensures acknowledged_is_listed { (g : Log) → Contains (lists g) g.list }
    ensures stored_is_listed { (g : Log) → Contains (lists g) (stored g) }
    ensures only_listed { (g : Log) (l : Entries) (c : Command × Bool) → g.list ≡ found l
        → in_progress g ≡ Some c → (m : Found) → Contains (lists g) m
        → (m ≡ found l) ⊎ (m ≡ found (after_command l c.0)) }
    ensures none_else { (g : Log) → in_progress g ≡ None → (m : Found) → Contains (lists g) m
        → m ≡ g.list }
    ensures damaged_alone { (g : Log) (n : ℕ) → g.list ≡ damaged n → (m : Found)
        → Contains (lists g) m → m ≡ damaged n }
{}

/// What is found in a ring while an append is carried out, whichever of its writes are there: the list, or, from the write of the
/// marker on, the list after the append. Afterwards that list lies in the ring.
pub fn append_leaves()
    ensures rest_is_found { (kind : Kind) (header : List ℕ) (h : Header)
        (ring stored : List (List ℕ)) (l : Entries) → AreRingBlocks ring
        → LiesInRing kind (length ring) header h stored l
        → RingHolds ring h stored stored → found_of kind (header ∷ ring) ≡ found l }
    ensures draft_is_found { (kind : Kind) (header : List ℕ) (h : Header)
        (ring stored : List (List ℕ)) (l : Entries) → AreRingBlocks ring
        → LiesInRing kind (length ring) header h stored l
        → (payload : List ℕ) → HasRoom (length ring) stored l payload
        → RingHolds ring h stored (with_draft (length ring) h stored l payload)
        → found_of kind (header ∷ ring) ≡ found l }
    ensures marker_is_found { (kind : Kind) (header : List ℕ) (h : Header)
        (ring stored : List (List ℕ)) (l : Entries) → AreRingBlocks ring
        → LiesInRing kind (length ring) header h stored l
        → (payload : List ℕ) → HasRoom (length ring) stored l payload
        → RingHolds ring h (with_draft (length ring) h stored l payload)
        (with_entry (length ring) h stored l payload)
        → (found_of kind (header ∷ ring) ≡ found l)
        ⊎ (found_of kind (header ∷ ring) ≡ found (after_command l (append (next_number l) payload))) }
    ensures entry_lies { (kind : Kind) (room : ℕ) (header : List ℕ) (h : Header)
        (stored : List (List ℕ)) (l : Entries) → LiesInRing kind room header h stored l
        → (payload : List ℕ) → HasRoom room stored l payload
        → LiesInRing kind room header h (with_entry room h stored l payload)
        (after_command l (append (next_number l) payload)) }
{}

/// What is found in a ring once the header of a trim or a pop is written, whichever of the freed blocks are zero by then: the list
/// after it. Afterwards that list lies in the ring, with zeros behind it.
pub fn drop_leaves()
    ensures dropped_is_found { (kind : Kind) (header new_header : List ℕ) (h new : Header)
        (ring stored : List (List ℕ)) (l : Entries) (c : Command) → AreRingBlocks ring
        → LiesInRing kind (length ring) header h stored l
        → CanFollow l c → 1 ≤ dropped_by l c → HeaderAfter kind (length ring) new_header h l c new
        → RingHolds ring h stored (zeroed (freed_by l c) stored)
        → found_of kind (new_header ∷ ring) ≡ found (after_command l c) }
    ensures rest_lies { (kind : Kind) (room : ℕ) (header new_header : List ℕ) (h new : Header)
        (stored : List (List ℕ)) (l : Entries) (c : Command)
        → LiesInRing kind room header h stored l
        → CanFollow l c → 1 ≤ dropped_by l c → HeaderAfter kind room new_header h l c new
        → LiesInRing kind room new_header new (drop (freed_by l c) stored) (after_command l c) }
    ensures rest_holds { (kind : Kind) (header new_header : List ℕ) (h new : Header)
        (ring stored : List (List ℕ)) (l : Entries) (c : Command) → AreRingBlocks ring
        → LiesInRing kind (length ring) header h stored l
        → CanFollow l c → 1 ≤ dropped_by l c → HeaderAfter kind (length ring) new_header h l c new
        → RingHolds ring h (zeroed (freed_by l c) stored) (zeroed (freed_by l c) stored)
        → RingHolds ring new (drop (freed_by l c) stored) (drop (freed_by l c) stored) }
{}

/// At each moment of an opening that found a list, also inside its repair, that list is found. Afterwards it lies in the ring, with
/// zeros behind it.
pub fn opening_leaves()
    ensures repaired_is_found { (kind : Kind) (header : List ℕ) (h : Header) (ring : List (List ℕ))
        (l : Entries) → AreRingBlocks ring → header_of kind (length ring) header ≡ Some h
        → found_of kind (header ∷ ring) ≡ found l
        → (new_header : List ℕ) (new : Header) (new_ring : List (List ℕ)) → AreRingBlocks new_ring
        → Repairs kind header h ring l new_header new new_ring
        → found_of kind (new_header ∷ new_ring) ≡ found l }
    ensures repaired_lies { (kind : Kind) (header : List ℕ) (h : Header) (ring : List (List ℕ))
        (l : Entries) → AreRingBlocks ring → header_of kind (length ring) header ≡ Some h
        → found_of kind (header ∷ ring) ≡ found l
        → (new_header : List ℕ) (new : Header) (new_ring : List (List ℕ)) → AreRingBlocks new_ring
        → Repairs kind header h ring l new_header new new_ring
        → LiesInRing kind (length new_ring) new_header new
        (blocks_read (reading new_ring new.start) 0 (used_by l.payloads)) l }
    ensures repaired_holds { (kind : Kind) (header : List ℕ) (h : Header) (ring : List (List ℕ))
        (l : Entries) → AreRingBlocks ring → header_of kind (length ring) header ≡ Some h
        → found_of kind (header ∷ ring) ≡ found l
        → (new_header : List ℕ) (new : Header) (new_ring : List (List ℕ)) → AreRingBlocks new_ring
        → Repairs kind header h ring l new_header new new_ring
        → ((v : ℕ) → used_by l.payloads ≤ v → v < length new_ring
        → reading new_ring new.start v ≡ zero_block)
        → RingHolds new_ring new (blocks_read (reading new_ring new.start) 0 (used_by l.payloads))
        (blocks_read (reading new_ring new.start) 0 (used_by l.payloads)) }
{}

/// Where the view of a ring has its blocks, and that a ring whose first blocks became zero is the ring of what is left.
pub fn view_laws()
    ensures view_at { (room : ℕ) (header : List ℕ) (start : ℕ) (stored : List (List ℕ)) (u : ℕ)
        → start < room → u < room
        → view_of room header start stored (suc ((start + u) % room)) ≡ at stored u }
    ensures zeroed_view { (room : ℕ) (header : List ℕ) (start : ℕ) (stored : List (List ℕ))
        (z k : ℕ) → start < room → z ≤ length stored → length stored ≤ room → k < suc room
        → view_of room header start (zeroed z stored) k
        ≡ view_of room header ((start + z) % room) (drop z stored) k }
{}
