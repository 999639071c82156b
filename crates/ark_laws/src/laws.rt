// Laws of the definitions, each the contract of a function that does nothing.
ghost use Rattle.std.specs.Prelude.{◌≡◌, ◌≤◌, ◌++◌, ℕ, Bool, true, false, List, [], ◌∷◌, Some, None, Ok, Contains, bytes_eq, length, map};
ghost use Rattle.ark_base.specs.Conditions.{Conditions, first};
ghost use Rattle.ark_base.specs.declared.refusal.Refusal.{Refusal};
ghost use Rattle.ark_base.specs.declared.refusal.Refusal.TheVariants as r;
ghost use Rattle.ark_media.specs.Journal.{Event};
ghost use Rattle.ark_table.specs.Slots.{Slot, slots_of};
ghost use Rattle.ark_script.specs.Line as w;
ghost use Rattle.ark_script.specs.Line.{Line};
ghost use Rattle.ark_script.specs.Lines.{Meaning};
ghost use Rattle.ark_script.specs.Text.{text};
ghost use Rattle.ark_script.specs.declared.said.Said.TheVariants as said;
ghost use Rattle.ark_machine.specs.Machine.{Machine, unmade, at};
ghost use Rattle.ark_machine.specs.Row.{Row, Ended, answer, synced_by};
ghost use Rattle.ark_machine.specs.System.{System, fresh_system, machine_of, set_machine, owner, line_turn};
ghost use Rattle.ark_machine.specs.Sockets.{sent_reaped};
ghost use Rattle.ark_machine.specs.Start.{start_system};
ghost use Rattle.ark_machine.specs.Plane.{Plane, blocks_at, asked_blocks};
ghost use Rattle.ark_machine.specs.Built.{turn};
ghost use Rattle.ark_machine.specs.Follow.{PerformsFor};
ghost use Rattle.ark_machine.specs.Grants.{GrantsApart};
ghost use Rattle.ark_machine.specs.Replies.{Answers, EachAnswers, turn_for, system_after, Replies};
ghost use Rattle.ark_machine.specs.Sending.{IsLetOut, AllKeep, PassesWithin, SendsFront, DeliversFront};
ghost use Rattle.ark_machine.specs.Paced.{StandsPaced};
ghost use Rattle.ark_machine.specs.Confined.{AllAllowed, EndsAtFailure, Confined, readable, writable};
ghost use Rattle.ark_machine.specs.Private.{Play, after_plays, inputs_of, replies_to, private_replies, private_machine};
ghost use Rattle.ark_machine.specs.Told.{plays_of, outputs_to, text_of, own_slots, area_in, with_areas};
ghost use Rattle.ark_machine.specs.Ranks.{rank, HasCondition};
ghost use Rattle.ark_machine.specs.Refused.{is_told_late, is_of_sending, may_leave, gives_up, is_gain, is_look, labels};

/// Every line is confined. What follows its device calls touches only the blocks that the grants of its application allow it,
/// and ends at the first call that fails. A frame goes out only by a move of a card, and only where a transmit filter that is
/// assigned to the card takes it. Each queue keeps its rate after a line if it did before, with no pass in the time to come, and
/// the blocks of the line's device calls, as far as they are made, are within the rate of the storage card that it moves; at the
/// start of a run, on a fresh device or a stored one, there is no pass. So whoever answers as the machines do is confined.
/// Where the first bytes of a reply show a frame that goes out or in, it is let out or in, within the rate of its card's queue.
pub fn confinement_laws()
    ensures touches { (s : System) (line : Line) (ends : List Ended) (memory : Bool)
        (es : List Event) →
        PerformsFor s line (line_turn s line ends memory).calls es (owner line) →
        AllAllowed s line es }
    ensures passes { (s : System) (line : Line) (ends : List Ended) (memory : Bool)
        (es : List Event) →
        StandsPaced s → PerformsFor s line (line_turn s line ends memory).calls es (owner line) →
        PassesWithin s line es }
    ensures stops { (s : System) (line : Line) (ends : List Ended) (memory : Bool)
        (es : List Event) →
        PerformsFor s line (line_turn s line ends memory).calls es (owner line) →
        EndsAtFailure es }
    ensures sends { (s : System) (line : Line) (ends : List Ended) (memory : Bool) →
        (line_turn s line ends memory).said ≡ said.Sent →
        IsLetOut s (Ok line) (line_turn s line ends memory).bytes }
    ensures paced { (s : System) (line : Line) (ends : List Ended) (memory : Bool) →
        StandsPaced s → StandsPaced (line_turn s line ends memory).after }
    ensures keeps { (s : System) → StandsPaced s → AllKeep s }
    ensures fresh { (size : ℕ) → StandsPaced (fresh_system size) }
    ensures stored { (image : List (List ℕ)) (slots : List Slot) →
        StandsPaced (start_system image slots) }
    ensures confined { (s : System) (lines : List (List ℕ)) (whole : List (List Event))
        (unfinished : List Event) →
        StandsPaced s → Replies s lines whole unfinished → Confined s lines whole unfinished }
    ensures front_sends { (s : System) (m : Meaning) (ends : List Ended) (memory : Bool)
        (output more : List ℕ) →
        StandsPaced s →
        text (turn s m ends memory).said (turn s m ends memory).bytes ≡ output ++ more →
        SendsFront s m output }
    ensures front_delivers { (s : System) (m : Meaning) (ends : List Ended) (memory : Bool)
        (output more : List ℕ) →
        StandsPaced s →
        text (turn s m ends memory).said (turn s m ends memory).bytes ≡ output ++ more →
        DeliversFront s m output }
{}

/// No block is granted twice, and each that is granted is a data block: so it is of the slots that are read from an image, and
/// after a line if before it, and a new block is in no area. So a line reads and writes no block of another application's area.
pub fn grant_laws()
    ensures fresh { (size : ℕ) → GrantsApart (fresh_system size).plane }
    ensures stored { (image : List (List ℕ)) (slots : List Slot) →
        slots_of image ≡ Ok slots → GrantsApart (start_system image slots).plane }
    ensures kept { (s : System) (line : Line) (ends : List Ended) (memory : Bool) →
        GrantsApart s.plane → GrantsApart (line_turn s line ends memory).after.plane }
    ensures apart { (p : Plane) (a b l k : List ℕ) (n : ℕ) →
        GrantsApart p → bytes_eq a b ≡ false → Contains (blocks_at p a l) n →
        Contains (blocks_at p b k) n → ⊥ }
    ensures new_blocks { (p : Plane) (line : Line) (b k : List ℕ) (n : ℕ) →
        Contains (asked_blocks p line) n → Contains (blocks_at p b k) n → ⊥ }
    ensures reads { (s : System) (line : Line) (a b l : List ℕ) (n : ℕ) →
        GrantsApart s.plane → owner line ≡ Some a → bytes_eq a b ≡ false →
        Contains (readable s line) n → Contains (blocks_at s.plane b l) n → ⊥ }
    ensures writes { (s : System) (line : Line) (a b l : List ℕ) (n : ℕ) →
        GrantsApart s.plane → owner line ≡ Some a → bytes_eq a b ≡ false →
        Contains (writable s line) n → Contains (blocks_at s.plane b l) n → ⊥ }
{}

/// Applications are apart. A line of one leaves the machine of each other as it is. In a run, whatever other lines stand in it,
/// what an application is told is what its own machine answers to what came to it alone: its lines, each with what its word
/// asks of the plane, how its device calls ended and whether it found no memory, the frames at its cards, and ticks. So two
/// runs that bring the same to it tell it the same, and put out the same for it. At its start it has what is stored in its own
/// slots, wherever their blocks are; so two runs that start with the same stored for it, and bring the same to it, tell it the
/// same.
pub fn privacy_laws()
    ensures others { (s : System) (line : Line) (ends : List Ended) (memory : Bool)
        (a b : List ℕ) →
        owner line ≡ Some b → bytes_eq a b ≡ false →
        machine_of (line_turn s line ends memory).after a ≡ machine_of s a }
    ensures replies { (a : List ℕ) (s : System) (plays : List Play) →
        replies_to a s plays ≡ private_replies a (machine_of s a) (inputs_of a s plays) }
    ensures machine { (a : List ℕ) (s : System) (plays : List Play) →
        machine_of (after_plays s plays) a ≡ private_machine a (machine_of s a)
        (inputs_of a s plays) }
    ensures alike { (a : List ℕ) (s t : System) (plays others : List Play) →
        machine_of s a ≡ machine_of t a → inputs_of a s plays ≡ inputs_of a t others →
        replies_to a s plays ≡ replies_to a t others }
    ensures outputs { (a : List ℕ) (s : System) (ms : List Meaning) (parts : List (List Event)) →
        EachAnswers s ms parts →
        outputs_to a s ms parts ≡ map text_of
        (private_replies a (machine_of s a) (inputs_of a s (plays_of ms parts))) }
    ensures outputs_alike { (a : List ℕ) (s t : System) (ms ns : List Meaning)
        (parts others : List (List Event)) →
        EachAnswers s ms parts → EachAnswers t ns others → machine_of s a ≡ machine_of t a →
        inputs_of a s (plays_of ms parts) ≡ inputs_of a t (plays_of ns others) →
        outputs_to a s ms parts ≡ outputs_to a t ns others }
    ensures start { (image : List (List ℕ)) (slots : List Slot) (a : List ℕ) →
        machine_of (start_system image slots) a
        ≡ with_areas unmade (map (area_in image) (own_slots a slots)) }
    ensures start_alike { (image other : List (List ℕ)) (slots others : List Slot) (a : List ℕ)
        (plays others_plays : List Play) →
        map (area_in image) (own_slots a slots) ≡ map (area_in other) (own_slots a others) →
        inputs_of a (start_system image slots) plays
        ≡ inputs_of a (start_system other others) others_plays →
        replies_to a (start_system image slots) plays
        ≡ replies_to a (start_system other others) others_plays }
    ensures start_outputs { (image other : List (List ℕ)) (slots others : List Slot)
        (a : List ℕ) (ms ns : List Meaning) (parts other_parts : List (List Event)) →
        EachAnswers (start_system image slots) ms parts →
        EachAnswers (start_system other others) ns other_parts →
        map (area_in image) (own_slots a slots) ≡ map (area_in other) (own_slots a others) →
        inputs_of a (start_system image slots) (plays_of ms parts)
        ≡ inputs_of a (start_system other others) (plays_of ns other_parts) →
        outputs_to a (start_system image slots) ms parts
        ≡ outputs_to a (start_system other others) ns other_parts }
{}

/// A refused line leaves the system as it was, but for one whose device call failed, and for `sendto`, which reaps its ring
/// before it finds no place, and does no more. It calls no device, but for the refusals that only device calls tell. No refused
/// line gives a label, and only one that gives a label up takes one.
pub fn refusal_laws()
    ensures unchanged { (s : System) (line : Line) (ends : List Ended) (memory : Bool)
        (x : Refusal) →
        (line_turn s line ends memory).said ≡ said.Refused x → may_leave line x ≡ false →
        (line_turn s line ends memory).after ≡ s }
    ensures no_call { (s : System) (line : Line) (ends : List Ended) (memory : Bool)
        (x : Refusal) →
        (line_turn s line ends memory).said ≡ said.Refused x → is_told_late x ≡ false →
        (line_turn s line ends memory).calls ≡ [] }
    ensures reaped { (s : System) (a k ip : List ℕ) (port : ℕ) (payload : List ℕ)
        (ends : List Ended) (memory : Bool) (x : Refusal) →
        (line_turn s (w.sendto a k ip port payload) ends memory).said ≡ said.Refused x →
        is_of_sending x ≡ true →
        (line_turn s (w.sendto a k ip port payload) ends memory).after
        ≡ record s {
          machines = set_machine s.machines a
              (sent_reaped (machine_of s a) k);
        } }
    ensures no_label { (s : System) (a : List ℕ) (line : Line) (ends : List Ended)
        (memory : Bool) (x : Refusal) →
        owner line ≡ Some a → gives_up line ≡ false →
        (line_turn s line ends memory).said ≡ said.Refused x →
        labels (machine_of (line_turn s line ends memory).after a) ≡ labels (machine_of s a) }
{}

/// Where a device call failed, a line that asks for an area, for more blocks or for an open log gains nothing: its application's
/// machine is as it was, but for what a sync that succeeded made sure of, and the slots are as they were. One that gives a label
/// up takes it away all the same. One that looks at blocks or entries changes nothing of its machine. Where the list that was
/// found is damaged, the system is as it was.
pub fn fault_laws()
    ensures no_gain { (s : System) (a : List ℕ) (line : Line) (ends : List Ended) (memory : Bool) →
        owner line ≡ Some a → is_gain line ≡ true →
        (line_turn s line ends memory).said ≡ said.Refused r.DeviceFault →
        machine_of (line_turn s line ends memory).after a ≡ synced_by ends (machine_of s a) }
    ensures no_slot { (s : System) (a : List ℕ) (line : Line) (ends : List Ended)
        (memory : Bool) (x : Refusal) →
        owner line ≡ Some a → is_gain line ≡ true →
        (line_turn s line ends memory).said ≡ said.Refused x →
        (line_turn s line ends memory).after.plane.slots ≡ s.plane.slots }
    ensures given_up { (s : System) (a l : List ℕ) (ends : List Ended) (memory : Bool)
        (x : Refusal) →
        (line_turn s (w.drop a l) ends memory).said ≡ said.Refused x → is_told_late x ≡ true →
        at (machine_of (line_turn s (w.drop a l) ends memory).after a) l ≡ None }
    ensures looked { (s : System) (a : List ℕ) (line : Line) (ends : List Ended) (memory : Bool)
        (x : Refusal) →
        owner line ≡ Some a → is_look line ≡ true →
        (line_turn s line ends memory).said ≡ said.Refused x → is_told_late x ≡ true →
        machine_of (line_turn s line ends memory).after a ≡ machine_of s a }
    ensures damaged { (s : System) (line : Line) (ends : List Ended) (memory : Bool) (n : ℕ) →
        (line_turn s line ends memory).said ≡ said.Refused (r.Damaged n) →
        (line_turn s line ends memory).after ≡ s }
{}

/// A line is refused where a condition of its word holds, with the refusal of least rank, in the one order, whose condition
/// holds, and with no other; else it has its row.
pub fn order_laws()
    ensures holds { (c : Conditions) (x : Refusal) → first c ≡ Some x → HasCondition c x }
    ensures least { (c : Conditions) (x y : Refusal) →
        first c ≡ Some x → HasCondition c y → rank x ≤ rank y }
    ensures refuses { (c : Conditions) (x : Refusal) → HasCondition c x → first c ≡ None → ⊥ }
    ensures only { (c : Conditions) (x : Refusal) →
        HasCondition c x → ((y : Refusal) → HasCondition c y → rank x ≤ rank y) → first c ≡ Some x }
    ensures first_chosen { (m : Machine) (c : Conditions) (row : Row) (x : Refusal) →
        first c ≡ Some x → (answer m c row).said ≡ said.Refused x }
    ensures none_chosen { (m : Machine) (c : Conditions) (row : Row) →
        first c ≡ None → answer m c row ≡ row }
{}

/// A run goes on by one line: with a part that answers it the parts still answer their lines, and the system is the one that
/// the part leaves.
pub fn run_laws()
    ensures goes_on { (s : System) (ms : List Meaning) (parts : List (List Event)) (m : Meaning)
        (part : List Event) →
        EachAnswers s ms parts → Answers (system_after s ms parts) m part →
        EachAnswers s (ms ++ m ∷ []) (parts ++ part ∷ []) }
    ensures leaves { (s : System) (ms : List Meaning) (parts : List (List Event)) (m : Meaning)
        (part : List Event) →
        length parts ≡ length ms →
        system_after s (ms ++ m ∷ []) (parts ++ part ∷ [])
        ≡ (turn_for (system_after s ms parts) m part).after }
{}
