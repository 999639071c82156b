// Laws of what lines leave: those that fail, those that send, and those that write.
ghost use Rattle.std.specs.Prelude.{◌≡◌, ◌<◌, ◌⊎◌, ◌||◌, ◌++◌, ℕ, Bool, true, false, List, [], ◌∷◌, Some, Ok, Contains, bytes_eq, length, map, slice_get, slice_index_or};
ghost use Rattle.ark_base.specs.declared.kind.Kind.{Kind};
ghost use Rattle.ark_base.specs.declared.kind.Outcome.TheVariants as outcome;
ghost use Rattle.ark_base.specs.declared.refusal.Refusal.TheVariants as r;
ghost use Rattle.ark_caladan.specs.Chain.{syncing};
ghost use Rattle.ark_media.specs.Journal.{Event, onto};
ghost use Rattle.ark_media.specs.Stops.{MayHold, Whole, AnyBytes};
ghost use Rattle.ark_table.specs.Slots.{Slot, slots_of};
ghost use Rattle.ark_script.specs.Line as w;
ghost use Rattle.ark_script.specs.Line.{Line};
ghost use Rattle.ark_script.specs.declared.said.Said.TheVariants as said;
ghost use Rattle.ark_machine.specs.Bytes.{padded};
ghost use Rattle.ark_machine.specs.Objects.{Raw, Vnic, is_vsa};
ghost use Rattle.ark_machine.specs.Machine.{Machine, object_at, is_so, raw_at, vnic_at};
ghost use Rattle.ark_machine.specs.Row.{Ended, syncs, synced_by, writes};
ghost use Rattle.ark_machine.specs.Areas.{raw_written};
ghost use Rattle.ark_machine.specs.Plane.{blocks_at, slot_of};
ghost use Rattle.ark_machine.specs.Granting.{change_of, failed_change};
ghost use Rattle.ark_machine.specs.Rates.{passed};
ghost use Rattle.ark_machine.specs.Start.{start_system};
ghost use Rattle.ark_machine.specs.System.{System, fresh_system, machine_of, set_machine, owner, line_turn};
ghost use Rattle.ark_machine.specs.Confined.{AllAllowed};
ghost use Rattle.ark_machine.specs.Grants.{GrantsApart};
ghost use Rattle.ark_machine.specs.Sending.{IsLetOut, tx_pace_at};
ghost use Rattle.ark_machine.specs.Paced.{StandsPaced};
ghost use Rattle.ark_machine.specs.Refused.{is_gain, gives_up};
ghost use Rattle.ark_machine.specs.Labels.{AreLabelled};
ghost use Rattle.ark_machine.specs.Left.{left_by};
ghost use Rattle.ark_machine.specs.Frames.{LetsOut, FramesThere, IsCounted};

/// A line that is refused because a device call failed leaves the rest of the system as it was, but for what a failed change of
/// the table leaves of the plane, and for what the line leaves of its application's machine. Where the line asked for such a
/// change, the table has failed: that stays so, and no area is granted, grows or is dropped any more in this run.
pub fn failure_laws()
    ensures whole { (s : System) (a : List ℕ) (line : Line) (ends : List Ended) (memory : Bool) →
        owner line ≡ Some a → (line_turn s line ends memory).said ≡ said.Refused r.DeviceFault →
        (line_turn s line ends memory).after ≡ record {
          plane = failed_change s.plane
              (change_of s.plane (machine_of s a) line);
          now = s.now;
          machines = set_machine
              s.machines a (left_by line ends (machine_of s a));
        } }
    ensures new_area { (s : System) (a l : List ℕ) (n : ℕ) (k : Kind) (ends : List Ended)
        (memory : Bool) →
        (line_turn s (w.vsa a l n k) ends memory).said ≡ said.Refused r.DeviceFault →
        (line_turn s (w.vsa a l n k) ends memory).after.plane.failed ≡ true }
    ensures more_blocks { (s : System) (a l : List ℕ) (n : ℕ) (t : Slot) (ends : List Ended)
        (memory : Bool) →
        slot_of s.plane a l ≡ Some t →
        (line_turn s (w.grow a l n) ends memory).said ≡ said.Refused r.DeviceFault →
        (line_turn s (w.grow a l n) ends memory).after.plane.failed ≡ true }
    ensures dropped { (s : System) (a l : List ℕ) (t : Slot) (ends : List Ended) (memory : Bool) →
        slot_of s.plane a l ≡ Some t →
        (line_turn s (w.drop a l) ends memory).said ≡ said.Refused r.DeviceFault →
        (line_turn s (w.drop a l) ends memory).after.plane.failed ≡ true }
    ensures stays { (s : System) (line : Line) (ends : List Ended) (memory : Bool) →
        s.plane.failed ≡ true → (line_turn s line ends memory).after.plane.failed ≡ true }
    ensures no_new_area { (s : System) (a l : List ℕ) (n : ℕ) (k : Kind) (ends : List Ended)
        (memory : Bool) →
        s.plane.failed ≡ true → (line_turn s (w.vsa a l n k) ends memory).said ≡ said.Ok → ⊥ }
    ensures no_more_blocks { (s : System) (a l : List ℕ) (n : ℕ) (ends : List Ended)
        (memory : Bool) →
        s.plane.failed ≡ true → (line_turn s (w.grow a l n) ends memory).said ≡ said.Ok → ⊥ }
    ensures no_drop { (s : System) (a l : List ℕ) (t : Slot) (ends : List Ended) (memory : Bool) →
        slot_of s.plane a l ≡ Some t → s.plane.failed ≡ true →
        is_so is_vsa (object_at (machine_of s a) l) ≡ true →
        (line_turn s (w.drop a l) ends memory).said ≡ said.Ok → ⊥ }
{}

/// A frame that goes out is let out by a filter that its application holds. The rate of the card's transmit queue counts it at
/// the machine's tick, which is the system's, with exactly so many bytes as went out, where the frames that are posted stand whole
/// in their buffers. So they do at the start of a run, on a fresh device or a stored one, and after each line if before it.
pub fn frame_laws()
    ensures let_out { (s : System) (a v frame : List ℕ) →
        IsLetOut s (Ok (w.dev a v)) frame → LetsOut s a v frame }
    ensures tick { (s : System) (a : List ℕ) → StandsPaced s → (machine_of s a).now ≡ s.now }
    ensures counted { (s : System) (a v : List ℕ) (ends : List Ended) (memory : Bool) (x : Vnic) →
        vnic_at (machine_of s a) v ≡ Some x →
        (line_turn s (w.dev a v) ends memory).said ≡ said.Sent →
        IsCounted (machine_of s a) v x (line_turn s (w.dev a v) ends memory).bytes
        (machine_of (line_turn s (w.dev a v) ends memory).after a) }
    ensures counted_exactly { (s : System) (a v : List ℕ) (ends : List Ended) (memory : Bool)
        (x : Vnic) →
        FramesThere (machine_of s a) → vnic_at (machine_of s a) v ≡ Some x →
        (line_turn s (w.dev a v) ends memory).said ≡ said.Sent →
        tx_pace_at (machine_of (line_turn s (w.dev a v) ends memory).after a) v
        ≡ passed (machine_of s a).now (length
        (line_turn s (w.dev a v) ends memory).bytes) x.tx_pace }
    ensures posted_fresh { (size : ℕ) (a : List ℕ) →
        FramesThere (machine_of (fresh_system size) a) }
    ensures posted_stored { (image : List (List ℕ)) (slots : List Slot) (a : List ℕ) →
        FramesThere (machine_of (start_system image slots) a) }
    ensures posted_kept { (s : System) (line : Line) (ends : List Ended) (memory : Bool)
        (a : List ℕ) →
        FramesThere (machine_of s a) →
        FramesThere (machine_of (line_turn s line ends memory).after a) }
{}

/// What a stop may leave of a block of another application's area is no more after the device events of a line than before,
/// whether a block that was written is left whole or as any bytes.
pub fn stop_laws()
    ensures whole { (s : System) (line : Line) (a b l : List ℕ) (es : List Event)
        (base : List (List ℕ)) (j : List Event) (n : ℕ) (c : List ℕ) →
        GrantsApart s.plane → owner line ≡ Some a → bytes_eq a b ≡ false → AllAllowed s line es →
        Contains (blocks_at s.plane b l) n → n < length base → MayHold Whole base (onto es j) n c →
        MayHold Whole base j n c }
    ensures torn { (s : System) (line : Line) (a b l : List ℕ) (es : List Event)
        (base : List (List ℕ)) (j : List Event) (n : ℕ) (c : List ℕ) →
        GrantsApart s.plane → owner line ≡ Some a → bytes_eq a b ≡ false → AllAllowed s line es →
        Contains (blocks_at s.plane b l) n → n < length base →
        MayHold AnyBytes base (onto es j) n c → MayHold AnyBytes base j n c }
{}

/// What a machine knows of its raw areas follows what is done to them. A write that is tried adds its content to what a stop may
/// leave of its block, and stands where it took effect; every other block is as it was. A sync that succeeds leaves of each
/// block its content alone. So it is with the write of a `poke` and with that which a move of a card makes for a `put`, where
/// no label stands twice; and with a sync that a move of a card makes, with one of a line that grants, opens or drops, and with
/// each that settling a log makes.
pub fn area_laws()
    ensures tried { (off : ℕ) (block : List ℕ) (took : Bool) (r : Raw) →
        off < length r.maybe →
        slice_index_or (raw_written off block took r).maybe off []
        ≡ slice_index_or r.maybe off [] ++ block ∷ [] }
    ensures others_tried { (off k : ℕ) (block : List ℕ) (took : Bool) (r : Raw) →
        (k ≡ off → ⊥) →
        slice_index_or (raw_written off block took r).maybe k [] ≡ slice_index_or r.maybe k [] }
    ensures stands { (off : ℕ) (block : List ℕ) (r : Raw) →
        off < length r.content →
        slice_index_or (raw_written off block true r).content off [] ≡ block }
    ensures others_stand { (off k : ℕ) (block : List ℕ) (took : Bool) (r : Raw) →
        (k ≡ off → ⊥) →
        slice_index_or (raw_written off block took r).content k []
        ≡ slice_index_or r.content k [] }
    ensures not_taken { (off : ℕ) (block : List ℕ) (r : Raw) →
        (raw_written off block false r).content ≡ r.content }
    ensures synced { (m : Machine) (l : List ℕ) (x : Raw) (ends : List Ended) (e : Ended) →
        raw_at m l ≡ Some x → Contains ends e → e.ok ≡ true → e.verb ≡ syncing →
        raw_at (synced_by ends m) l ≡ Some (record x { maybe = map (λ b. b ∷ []) x.content }) }
    ensures poked { (s : System) (a l : List ℕ) (off : ℕ) (bytes : List ℕ) (e : Ended)
        (memory : Bool) (x : Raw) →
        raw_at (machine_of s a) l ≡ Some x →
        ((line_turn s (w.poke a l off bytes) (e ∷ []) memory).said ≡ said.Ok) ⊎
        ((line_turn s (w.poke a l off bytes) (e ∷ []) memory).said
        ≡ said.Refused r.DeviceFault) →
        raw_at (machine_of (line_turn s (w.poke a l off bytes) (e ∷ []) memory).after a) l
        ≡ Some (raw_written off (padded bytes) e.took x) }
    ensures flushed { (s : System) (a v l : List ℕ) (ends : List Ended) (memory : Bool) (y : Raw) →
        (line_turn s (w.dev a v) ends memory).calls ≡ syncs ∷ [] →
        (line_turn s (w.dev a v) ends memory).said ≡ said.Done outcome.Ok →
        raw_at (machine_of s a) l ≡ Some y →
        raw_at (machine_of (line_turn s (w.dev a v) ends memory).after a) l
        ≡ Some (record y { maybe = map (λ b. b ∷ []) y.content }) }
    ensures synced_line { (s : System) (a : List ℕ) (line : Line) (ends : List Ended)
        (memory : Bool) (e : Ended) →
        owner line ≡ Some a → (is_gain line || gives_up line) ≡ true →
        Contains (line_turn s line ends memory).calls syncs → Contains ends e → e.ok ≡ true →
        e.verb ≡ syncing → (l : List ℕ) (x : Raw) →
        raw_at (machine_of (line_turn s line ends memory).after a) l ≡ Some x →
        x.maybe ≡ map (λ b. b ∷ []) x.content }
    ensures put { (s : System) (a v l : List ℕ) (k : ℕ) (content : List ℕ) (e : Ended)
        (memory : Bool) (x : Raw) →
        AreLabelled (machine_of s a) → raw_at (machine_of s a) l ≡ Some x →
        (line_turn s (w.dev a v) (e ∷ []) memory).calls ≡ writes l k content ∷ [] →
        raw_at (machine_of (line_turn s (w.dev a v) (e ∷ []) memory).after a) l
        ≡ Some (raw_written k content e.took x) }
    ensures settle_synced { (s : System) (a b : List ℕ) (ends : List Ended) (memory : Bool)
        (i : ℕ) (e : Ended) →
        slice_get (line_turn s (w.settle a b) ends memory).calls i ≡ Some syncs →
        slice_get ends i ≡ Some e → e.ok ≡ true → (l : List ℕ) (x : Raw) →
        raw_at (machine_of (line_turn s (w.settle a b) ends memory).after a) l ≡ Some x →
        x.maybe ≡ map (λ b. b ∷ []) x.content }
    ensures settled { (x : Raw) (k : ℕ) →
        k < length x.content →
        slice_index_or (map (λ b. b ∷ []) x.content) k [] ≡ slice_index_or x.content k [] ∷ [] }
{}

/// No label of an application stands twice: each of its objects is the one that is found at its label. It is so at the start of a
/// run, on a fresh device or a stored one, and after each line.
pub fn label_laws()
    ensures fresh { (size : ℕ) (a : List ℕ) → AreLabelled (machine_of (fresh_system size) a) }
    ensures stored { (image : List (List ℕ)) (slots : List Slot) (a : List ℕ) →
        slots_of image ≡ Ok slots → AreLabelled (machine_of (start_system image slots) a) }
    ensures kept { (s : System) (line : Line) (ends : List Ended) (memory : Bool) (a : List ℕ) →
        AreLabelled (machine_of s a) →
        AreLabelled (machine_of (line_turn s line ends memory).after a) }
{}
