ghost use Rattle.std.specs.Prelude.{◌≡◌, ◌≤◌, ◌<◌, ◌-◌, ◌*◌, [], ◌∷◌, ◌++◌, ◌&&◌, leb, length, min, take, replicate, is_ok, IfOk, IfSome, OnOk, OnErr};
ghost use Rattle.ark_media.specs.Journal.{fresh, zero_block};
ghost use Rattle.ark_media.specs.Blocks.{whole_blocks};
ghost use Rattle.ark_media.specs.Calls.{attaching, making, Adds, Rests, StillTold, HasCause, Fetches, Puts, KeepsAtAttach, KeepsAtFetch, KeepsAtPut};
ghost use Rattle.ark_memory.specs.Turns.{works, counted, let_out, after_begin, after_fetch, after_put};
ghost use Rattle.ark_memory.specs.World.{TurnsOn, told_by, beside_by, turn_at};

use super::{MemoryWorld, answer};
use ark_media::{AttachFailed, Outside, SinkFailed, SourceFailed};

impl Outside for MemoryWorld {
    ghost beside = { beside_by };

    fn attach(&mut self, name: &str) -> Result<(), AttachFailed>
        ensures asked { (beside_by self.new).openings
            ≡ (beside_by self.old).openings ++ attaching name.now (is_ok result) ∷ [] }
        ensures begun { OnOk result (IfSome (told_by self.new).history (λ h. h.journal ≡ [])) }
        ensures small { OnOk result ((told_by self.new).blocks ≤ 2097152) }
        ensures not_begun { OnErr result
            (Adds (told_by self.old).history (told_by self.new).history []) }
        ensures same_size { OnErr result ((told_by self.new).blocks ≡ (told_by self.old).blocks) }
        ensures cause { HasCause (beside_by self.old).attach_faults
            (beside_by self.new).attach_faults result }
        ensures disk { (told_by self.new).faults ≡ (told_by self.old).faults }
        ensures keeps { KeepsAtAttach (beside_by self.old) (beside_by self.new) }
        ensures turns { TurnsOn self.old self.new }
        ensures planned { is_ok result
            ≡ (works (turn_at self.old) && leb (length self.old.found.items) (512 * 2097152)) }
        ensures device { self.new.device
            ≡ after_begin (turn_at self.old) (leb (length self.old.found.items) (512 * 2097152))
            (whole_blocks self.old.found.items) self.old.device }
        ensures counts { self.new.attach_faults ≡ counted (is_ok result) self.old.attach_faults }
        ensures text { self.new.text ≡ self.old.text }
    {
        let turn = self.schedule.next();
        let begun = self.device.begin_found(turn, &self.found);
        self.openings.attached(name, begun);
        answer(begun, &mut self.attach_faults, AttachFailed)
    }

    fn make(&mut self, name: &str, blocks: u32) -> Result<(), AttachFailed>
        requires low { 130 ≤ blocks }
        requires high { blocks ≤ 1048576 }
        ensures asked { (beside_by self.new).openings
            ≡ (beside_by self.old).openings ++ making name.now blocks (is_ok result) ∷ [] }
        ensures begun { OnOk result (IfSome (told_by self.new).history (λ h. h ≡ fresh blocks)) }
        ensures size { OnOk result ((told_by self.new).blocks ≡ blocks) }
        ensures not_begun { OnErr result
            (Adds (told_by self.old).history (told_by self.new).history []) }
        ensures same_size { OnErr result ((told_by self.new).blocks ≡ (told_by self.old).blocks) }
        ensures cause { HasCause (beside_by self.old).attach_faults
            (beside_by self.new).attach_faults result }
        ensures disk { (told_by self.new).faults ≡ (told_by self.old).faults }
        ensures keeps { KeepsAtAttach (beside_by self.old) (beside_by self.new) }
        ensures turns { TurnsOn self.old self.new }
        ensures planned { is_ok result ≡ (works (turn_at self.old) && leb blocks self.old.room) }
        ensures device { self.new.device
            ≡ after_begin (turn_at self.old) (leb blocks self.old.room)
            (replicate blocks zero_block) self.old.device }
        ensures counts { self.new.attach_faults ≡ counted (is_ok result) self.old.attach_faults }
        ensures text { self.new.text ≡ self.old.text }
    {
        let turn = self.schedule.next();
        let begun = self.device.begin_new(turn, blocks, self.room);
        self.openings.made(name, blocks, begun);
        answer(begun, &mut self.attach_faults, AttachFailed)
    }

    fn fetch(&mut self, out: &mut [u8]) -> Result<usize, SourceFailed>
        requires { 0 < length out.old }
        ensures bytes { IfOk result (λ count. Fetches (beside_by self.old).script
            (beside_by self.new).script count out.new) }
        ensures none { OnErr result (StillTold (beside_by self.old).script
            (beside_by self.new).script) }
        ensures cause { HasCause (beside_by self.old).source_faults
            (beside_by self.new).source_faults result }
        ensures rests { Rests [] (told_by self.old) (told_by self.new) }
        ensures keeps { KeepsAtFetch (beside_by self.old) (beside_by self.new) }
        ensures turns { TurnsOn self.old self.new }
        ensures planned { is_ok result ≡ works (turn_at self.old) }
        ensures count { IfOk result (λ count. count
            ≡ min (length out.old) (length self.old.source.left)) }
        ensures device { self.new.device ≡ after_fetch (turn_at self.old) self.old.device }
        ensures counts { self.new.source_faults ≡ counted (is_ok result) self.old.source_faults }
        ensures text { self.new.text ≡ self.old.text }
    {
        let turn = self.schedule.next();
        self.device.rest(turn);
        answer(turn.works(), &mut self.source_faults, SourceFailed)?;
        Ok(self.source.fetch(out))
    }

    fn put(&mut self, bytes: &[u8]) -> Result<(), SinkFailed>
        ensures puts { Puts (told_by self.old) (told_by self.new) bytes.now (is_ok result) }
        ensures cause { HasCause (beside_by self.old).sink_faults
            (beside_by self.new).sink_faults result }
        ensures keeps { KeepsAtPut (beside_by self.old) (beside_by self.new) }
        ensures turns { TurnsOn self.old self.new }
        ensures planned { is_ok result
            ≡ (works (turn_at self.old) && leb (length bytes.now) self.old.text) }
        ensures device { self.new.device
            ≡ after_put (turn_at self.old)
            (take (let_out (turn_at self.old) (length bytes.now) self.old.text) bytes.now)
            self.old.device }
        ensures counts { self.new.sink_faults ≡ counted (is_ok result) self.old.sink_faults }
        ensures text { self.new.text
            ≡ self.old.text - let_out (turn_at self.old) (length bytes.now) self.old.text }
    {
        let turn = self.schedule.next();
        let fits = bytes.len() <= self.text as usize;
        let part = turn.lets_out(bytes.len(), self.text as usize);
        self.text -= part as u32;
        self.device.put(turn, &bytes[..part]);
        answer(turn.works() && fits, &mut self.sink_faults, SinkFailed)
    }

    ghost goes_means = { λ v w es p. p.keeps };
}
