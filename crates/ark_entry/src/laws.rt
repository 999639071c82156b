// Laws of the definitions, each the contract of a function that does nothing.
ghost use Rattle.std.specs.Prelude.{◌++◌, ◌≡◌, ◌<◌, ◌≤◌, ◌^◌, ◌⊎◌, ◌%◌, ◌+◌, ℕ, List, ◌∷◌, [], Some, true, length};
ghost use Rattle.ark_base.specs.declared.kind.Kind.{Kind};
ghost use Rattle.ark_media.specs.Journal.{block, zero_block};
ghost use Rattle.ark_entry.specs.Header.{Header, IsHeader, header_of, bytes_of, is_zero, empty};
ghost use Rattle.ark_entry.specs.Entry.{AreWhole, entry_blocks, entry_bytes, marked, ring_bytes, entry_at};
ghost use Rattle.ark_entry.specs.Found.{Entries, found, damaged, found_of};
ghost use Rattle.ark_entry.specs.Reading.{reading, Finds, Stands, HasList, IsDamaged};
ghost use Rattle.ark_entry.specs.Repair.{used_by, blocks_read, Zeroes};
ghost use Rattle.ark_entry.specs.Writing.{at, Between, Appends, drafted, finished, zeroed};

/// A right header is read again as what was written. A block that is read as a header is zeros, or the one spelling of a right
/// header.
pub fn header_laws()
    ensures written_is_read { (kind : Kind) (ring : ℕ) (h : Header) → ring < 2 ^ 32
        → IsHeader ring h → header_of kind ring (bytes_of kind h) ≡ Some h }
    ensures read_was_written { (kind : Kind) (ring : ℕ) (block : List ℕ) (h : Header)
        → header_of kind ring block ≡ Some h
        → ((is_zero block ≡ true) × (h ≡ empty)) ⊎ (IsHeader ring h × (block ≡ bytes_of kind h)) }
{}

/// An entry that is written with its marker is found at its place, also where its blocks go on at the start of the ring.
pub fn entry_laws()
    ensures written_is_found { (ring : List (List ℕ)) (p number : ℕ) (payload : List ℕ)
        → AreWhole ring → p < length ring → length ring < 2 ^ 32
        → length payload ≤ 32768 → entry_blocks (length payload) ≤ length ring → number ≤ 2 ^ 62
        → ring_bytes ring p (entry_blocks (length payload))
        ≡ marked (entry_bytes number ((p + entry_blocks (length payload)) % length ring) payload)
        → entry_at ring p number ≡ Some payload }
{}

/// Where the header is zeros, and the first block of the ring too, the list is empty, and its first number is 1.
pub fn empty_laws()
    ensures zeros_are_empty { (kind : Kind) (ring : List (List ℕ))
        → (0 < length ring → block ring 0 ≡ zero_block)
        → found_of kind (zero_block ∷ ring) ≡ found (record { first = 1; payloads = [] }) }
{}

/// What is found is the list that stands in the ring, and there is no other; where it is damaged, the header is wrong, or counts
/// more entries than stand there.
pub fn found_laws()
    ensures found_stands { (kind : Kind) (header : List ℕ) (ring : List (List ℕ)) → AreWhole ring
        → 0 < length ring → (l : Entries)
        → found_of kind (header ∷ ring) ≡ found l → HasList kind header ring l }
    ensures stands_is_list { (kind : Kind) (header : List ℕ) (ring : List (List ℕ))
        → AreWhole ring → 0 < length ring → (l : Entries)
        → HasList kind header ring l → found_of kind (header ∷ ring) ≡ found l }
    ensures damaged_means { (kind : Kind) (header : List ℕ) (ring : List (List ℕ)) → AreWhole ring
        → 0 < length ring → (n : ℕ)
        → found_of kind (header ∷ ring) ≡ damaged n → IsDamaged kind header ring n }
{}

/// What is found in a ring, place by place one of two rings. While an entry is written behind a list, it is the list; while its
/// marker is written, the list or that with the entry; and afterwards that stands there.
pub fn append_laws()
    ensures idle_finds { (room start : ℕ) (stored : List (List ℕ)) (first : ℕ)
        (acked : List (List ℕ)) → Stands room start (at stored) 0 first acked (length stored)
        → length stored ≤ room → (r : ℕ → List ℕ) → Between room stored stored r
        → Finds room start r 0 first acked }
    ensures body_finds { (room start : ℕ) (stored : List (List ℕ)) (first : ℕ)
        (acked : List (List ℕ)) (payload : List ℕ) → Appends room start stored first acked payload
        → (r : ℕ → List ℕ) → Between room stored (drafted room start stored first acked payload) r
        → Finds room start r 0 first acked }
    ensures marking_finds { (room start : ℕ) (stored : List (List ℕ)) (first : ℕ)
        (acked : List (List ℕ)) (payload : List ℕ) → Appends room start stored first acked payload
        → (r : ℕ → List ℕ) → Between room (drafted room start stored first acked payload)
        (finished room start stored first acked payload) r
        → Finds room start r 0 first acked ⊎ Finds room start r 0 first (acked ++ payload ∷ []) }
    ensures more_stands { (room start : ℕ) (stored : List (List ℕ)) (first : ℕ)
        (acked : List (List ℕ)) (payload : List ℕ) → Appends room start stored first acked payload
        → Stands room start (at (finished room start stored first acked payload)) 0 first (acked
        ++ payload ∷ []) (length (finished room start stored first acked payload)) }
{}

/// After the first entries of a list are dropped, the others are found from the place behind them on, also while the blocks of the
/// dropped ones are made zero one by one, and also in a ring that is full.
pub fn drop_laws()
    ensures dropping_finds { (ring : List (List ℕ)) (start : ℕ) (stored : List (List ℕ))
        (first : ℕ) (dropped kept : List (List ℕ))
        → Stands (length ring) start (at stored) 0 first (dropped ++ kept) (length stored)
        → 1 ≤ length dropped → length stored ≤ length ring
        → (z : ℕ) → Stands (length ring) start (at stored) 0 first dropped z
        → Between (length ring) stored (zeroed z stored) (reading ring start)
        → Finds (length ring) ((start + z) % length ring)
        (reading ring ((start + z) % length ring)) 0 (first + length dropped) kept }
{}

/// The list that is found stays while blocks outside it are made zero one by one, whatever stood in them. It stands in its blocks.
pub fn repair_laws()
    ensures repair_finds { (room start : ℕ) (r s : ℕ → List ℕ) (number : ℕ) (xs : List (List ℕ))
        → ((v : ℕ) → v < room → length (r v) ≡ 512)
        → Zeroes room (used_by xs) r s → Finds room start r 0 number xs
        → Finds room start s 0 number xs }
    ensures read_stands { (room start : ℕ) (r : ℕ → List ℕ) (number : ℕ) (xs : List (List ℕ))
        → Finds room start r 0 number xs
        → Stands room start (at (blocks_read r 0 (used_by xs))) 0 number xs
        (length (blocks_read r 0 (used_by xs))) }
{}
