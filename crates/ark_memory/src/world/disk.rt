ghost use Rattle.std.specs.Prelude.{◌≡◌, ◌<◌, [], ◌∷◌, length, is_ok, OnOk, OnErr};
ghost use Rattle.ark_media.specs.Going.{moves_none, moves_then};
ghost use Rattle.ark_media.specs.Calls.{Went, Reads, Writes, Syncs, GivesBlock};
ghost use Rattle.ark_memory.specs.Size.{size_told, blocks_told};
ghost use Rattle.ark_memory.specs.Turns.{works, counted, after_read, after_write, after_sync};
ghost use Rattle.ark_memory.specs.World.{TurnsOn, told_by, beside_by, goes_by, turn_at};

use super::{MemoryWorld, answer};
use ark_media::{Disk, DiskFailed};

impl Disk for MemoryWorld {
    ghost told = { told_by };

    ghost goes = { goes_by };

    fn blocks(&self) -> u32 {
        self.device.blocks()
    }

    fn read(&mut self, n: u32, out: &mut [u8]) -> Result<(), DiskFailed>
        requires inside { n < (told_by self.old).blocks }
        requires room { length out.old ≡ 512 }
        ensures went { Went goes_by (Reads n ∷ []) (is_ok result) self.old self.new }
        ensures honest { OnOk result (GivesBlock (told_by self.new).history n out.new) }
        ensures unread { OnErr result (out.new ≡ out.old) }
        ensures turns { TurnsOn self.old self.new }
        ensures planned { is_ok result ≡ works (turn_at self.old) }
        ensures device { self.new.device ≡ after_read (turn_at self.old) n self.old.device }
        ensures counts { self.new.disk_faults ≡ counted (is_ok result) self.old.disk_faults }
        ensures text { self.new.text ≡ self.old.text }
    {
        let turn = self.schedule.next();
        self.device.read(turn, n, out);
        answer(turn.works(), &mut self.disk_faults, DiskFailed)
    }

    fn write(&mut self, n: u32, block: &[u8]) -> Result<(), DiskFailed>
        requires inside { n < (told_by self.old).blocks }
        requires room { length block.now ≡ 512 }
        ensures went { Went goes_by (Writes n block.now ∷ []) (is_ok result) self.old self.new }
        ensures turns { TurnsOn self.old self.new }
        ensures planned { is_ok result ≡ works (turn_at self.old) }
        ensures device { self.new.device
            ≡ after_write (turn_at self.old) n block.now self.old.device }
        ensures counts { self.new.disk_faults ≡ counted (is_ok result) self.old.disk_faults }
        ensures text { self.new.text ≡ self.old.text }
    {
        let turn = self.schedule.next();
        self.device.write(turn, n, block);
        answer(turn.works(), &mut self.disk_faults, DiskFailed)
    }

    fn sync(&mut self) -> Result<(), DiskFailed>
        ensures went { Went goes_by (Syncs ∷ []) (is_ok result) self.old self.new }
        ensures turns { TurnsOn self.old self.new }
        ensures planned { is_ok result ≡ works (turn_at self.old) }
        ensures device { self.new.device ≡ after_sync (turn_at self.old) self.old.device }
        ensures counts { self.new.disk_faults ≡ counted (is_ok result) self.old.disk_faults }
        ensures text { self.new.text ≡ self.old.text }
    {
        let turn = self.schedule.next();
        self.device.sync(turn);
        answer(turn.works(), &mut self.disk_faults, DiskFailed)
    }

    ghost goes_none = { λ w. moves_none (told_by w) (beside_by w) };

    ghost goes_more = { λ a b c es fs p q. moves_then es fs (told_by a) (told_by b) (told_by c)
        (beside_by a) (beside_by b) (beside_by c) p q };

    ghost goes_told = { λ a b es p. p.tells };

    ghost size_is = { λ w h is. size_told w.device h is };

    ghost blocks_are = { λ w h is. blocks_told w.device w.ready.base h is };
}
