// Laws of the definitions, each the contract of a function that does nothing.
ghost use Rattle.std.specs.Prelude.{◌≡◌, ◌<◌, ◌≤◌, ◌+◌, ◌^◌, ℕ, List, set, Bool, true, false, length, count_by, Option, Some, None, Ok, Err, [], replicate};
ghost use Rattle.ark_media.specs.Journal.{Event, History, block, zero_block, fresh};
ghost use Rattle.ark_media.specs.Calls.{Makes};
ghost use Rattle.ark_media.specs.Stops.{Whole, MayLeave};
ghost use Rattle.ark_media.specs.Standing.{after};
ghost use Rattle.ark_table.specs.Superblock.{superblock, format_calls};
ghost use Rattle.ark_table.specs.Area.{Area, area_in, area_bytes, is_area, is_free, is_used};
ghost use Rattle.ark_table.specs.Slots.{Slot, slot_at, slot_bytes, slots_of, IsRight};
ghost use Rattle.ark_table.specs.Table.{Together, area_at, is_of, HasTable, HasSlots, slots_in};
ghost use Rattle.ark_table.specs.Plans.{create_calls, remove_calls};
ghost use Rattle.ark_table.specs.Standing.{Table, IsTableOf, SlotChange, IsEither, IsTried, IsUnsettled, Spare, GoesThrough, CanCreate, CanGrow, creates, grows, removes, grow_calls};

/// The block that is written for a slot is one block, which isn't free. It keeps the rules by itself and is read as that slot, for
/// every slot that keeps them.
pub fn slot_laws()
    ensures is_block { (size : ℕ) (s : Slot) → IsRight size s → length (slot_bytes s) ≡ 512 }
    ensures is_not_free { (s : Slot) → is_free (slot_bytes s) ≡ false }
    ensures is_kept { (size : ℕ) (s : Slot) → size < 2 ^ 32 → IsRight size s →
        is_used size (slot_bytes s) ≡ true }
    ensures is_read { (size : ℕ) (s : Slot) → size < 2 ^ 32 → IsRight size s →
        slot_at s.index (area_in (slot_bytes s)) ≡ s }
{}

/// The slots that are read of an image are those of its table, and it has one exactly where they are read.
pub fn table_laws()
    ensures table_is_read { (table : List (Option Area)) (image : List (List ℕ)) →
        HasTable table image → slots_of image ≡ Ok (slots_in 1 table) }
    ensures read_has_table { (image : List (List ℕ)) (slots : List Slot) →
        slots_of image ≡ Ok slots → HasSlots image slots }
{}

/// What becomes of an image's table: nothing where other blocks change; a slot more, fewer or grown where one slot's block does.
pub fn change_laws()
    ensures same_table { (table : List (Option Area)) (image other : List (List ℕ)) →
        HasTable table image → length other ≡ length image
        → ((n : ℕ) → n < 129 → block other n ≡ block image n) → HasTable table other }
    ensures removed_table { (table : List (Option Area)) (image : List (List ℕ)) (i : ℕ) →
        HasTable table image → i < 128 →
        HasTable (set table i None) (set image (i + 1) zero_block) }
    ensures added_table { (table : List (Option Area)) (image : List (List ℕ)) (i : ℕ) →
        HasTable table image → i < 128 → (a : Area) → area_at table i ≡ None →
        is_area (length image) a ≡ true →
        ((k : ℕ) (b : Area) → area_at table k ≡ Some b → Together a b) →
        count_by (is_of a.app) table + 1 ≤ 8 →
        HasTable (set table i (Some a)) (set image (i + 1) (area_bytes a)) }
    ensures grown_table { (table : List (Option Area)) (image : List (List ℕ)) (i : ℕ) →
        HasTable table image → i < 128 → (old a : Area) → area_at table i ≡ Some old →
        a.app ≡ old.app → is_area (length image) a ≡ true →
        ((k : ℕ) (b : Area) → (k ≡ i → ⊥) → area_at table k ≡ Some b → Together a b) →
        HasTable (set table i (Some a)) (set image (i + 1) (area_bytes a)) }
{}

/// A formatted device has no slot in use. One whose blocks are all zero is damaged at block 0.
pub fn fresh_laws()
    ensures fresh_is_empty { (n : ℕ) → 130 ≤ n → n ≤ 1048576 →
        slots_of (set (replicate n zero_block) 0 (superblock n)) ≡ Ok [] }
    ensures zeros_are_damaged { (n : ℕ) → slots_of (replicate n zero_block) ≡ Err 0 }
{}

/// What a table that stands for its disk is good for: a stop leaves an image that has it, or, after a change of one slot that failed, that
/// has it as it was or as it was to be. Other calls leave that so. It stands over a device as it was found, and over one that was formatted.
pub fn standing_laws()
    ensures stands { (h : History) (table : Table) (image : List (List ℕ)) → IsTableOf h table
        → MayLeave Whole h.base h.journal image → HasTable table image }
    ensures either { (h : History) (table : Table) (c : SlotChange) (image : List (List ℕ))
        → IsTried h table c → MayLeave Whole h.base h.journal image → IsEither table c image }
    ensures stays { (h : History) (table : Table) (es : List Event) → IsTableOf h table
        → Spare [] es → IsTableOf (after h es) table }
    ensures stays_unsettled { (h : History) (table : Table) (c : SlotChange) (es : List Event)
        → IsUnsettled h table c → Spare c.added es → IsUnsettled (after h es) table c }
    ensures attached { (image : List (List ℕ)) (table : Table) → HasTable table image
        → IsTableOf (record { base = image; journal = [] }) table }
    ensures formatted { (n : ℕ) (es : List Event) → 130 ≤ n → n ≤ 1048576
        → Makes (format_calls n) true es → IsTableOf (after (fresh n) es) (replicate 128 None) }
{}

/// What the calls of a change make of a table that stood before: at each moment, and at their end, also where one of them failed.
pub fn changing_laws()
    ensures created { (h : History) (table : Table) (i : ℕ) (a : Area) (ok : Bool) (es : List Event)
        → IsTableOf h table → CanCreate (length h.base) table i a
        → Makes (create_calls i a) ok es → GoesThrough h table (creates i a) ok es }
    ensures grown { (h : History) (table : Table) (i : ℕ) (a : Area) (more : List ℕ) (ok : Bool)
        → (es : List Event) → IsTableOf h table → CanGrow (length h.base) table i a more
        → Makes (grow_calls i a more) ok es → GoesThrough h table (grows i a more) ok es }
    ensures removed { (h : History) (table : Table) (i : ℕ) (ok : Bool) (es : List Event)
        → IsTableOf h table → 1 ≤ i → i ≤ 128 → Makes (remove_calls i) ok es
        → GoesThrough h table (removes i) ok es }
{}
