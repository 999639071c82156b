ghost use Rattle.std.specs.Prelude.{◌≡◌, ◌≤◌, ◌+◌, ◌*◌, length, IfSome, IfNone, IfOk, IfErr, OnOk};
ghost use Rattle.ark_media.specs.Calls.{OnTold};
ghost use Rattle.ark_entry.specs.Entry as spec;
ghost use Rattle.ark_chain.specs.Single.{IsPayload};
ghost use Rattle.ark_log.specs.Refused.{length_of};
ghost use Rattle.ark_log.specs.Walked.{HasAt, IsEntryAt, IsNotRead, WentToRead, blocks_before, place_of};

use crate::chain::Chain;
use ark_chain::{Reading, read_payload};
use ark_entry::entry_blocks;
use ark_media::{Disk, DiskFailed};

/// Why an entry was not read.
#[derive(Clone, Copy, Debug, PartialEq, Eq)]
pub enum ReadAt {
    /// There is no such entry, or a command that waits drops it.
    NoEntry,
    /// A read of the device failed.
    DeviceFault,
}

impl Chain {
    // How many blocks the first entries have.
    pub(crate) fn blocks_before(&self, entries: u32) -> u32
        requires { entries ≤ length self.now.lengths }
        ensures blocks { result ≡ blocks_before self.now entries }
        ensures within { result ≤ self.now.used }
    {
        let mut blocks = 0;
        for i in 0..entries {
            let Some(len) = self.lengths.get(i as usize) else {
                unreachable!();
            };
            blocks += entry_blocks(*len);
        }
        blocks
    }

    // The length of an acknowledged entry that no command drops, and its ring as seen from the entry on; `None` exactly where there
    // is none.
    fn entry_at(&self, n: u64) -> Option<(u32, Reading)>
        ensures some { IfSome result (λ e. IsEntryAt self.now n e.0 e.1) }
        ensures none { IfNone result (¬ HasAt self.now n) }
    {
        if n < self.coming || n >= self.first + u64::from(self.count) {
            return None;
        }
        let at = (n - self.first) as u32;
        let Some(len) = self.lengths.get(at as usize) else {
            unreachable!();
        };
        let start = self.reading().index(self.blocks_before(at));
        let room = self.room;
        Some((*len, Reading { start, room }))
    }

    /// Reads an acknowledged entry that no command drops, each of its blocks once, and puts its payload to the front of `out`. The
    /// answer is the payload's length. `NoEntry` comes exactly where there is no such entry, and reads nothing; at `DeviceFault`
    /// `out` may hold any bytes.
    pub fn read_at<D: Disk>(&self, disk: &mut D, n: u64, out: &mut [u8]) -> Result<u32, ReadAt>
        requires area { self.now.room + 1 ≡ (D.told disk.old).blocks }
        requires room { 32768 ≤ length out.old }
        ensures there { OnOk result (HasAt self.now n) }
        ensures len { IfOk result (λ len. len ≡ length_of self.now n) }
        ensures short { IfOk result (λ len. len ≤ 32768) }
        ensures none { IfErr result (IsNotRead self.now n) }
        ensures went { WentToRead D.goes self.now n result disk.old disk.new }
        ensures payload { OnOk result (OnTold (D.told disk.new)
            (IsPayload self.now.room (place_of self.now n) (length_of self.now n) out.new)) }
    {
        let Some((len, from)) = self.entry_at(n) else {
            return Err(ReadAt::NoEntry);
        };
        match read_payload(disk, &from, len, out) {
            Ok(()) => Ok(len),
            Err(DiskFailed) => Err(ReadAt::DeviceFault),
        }
    }
}
