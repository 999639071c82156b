//! A disk and an outside that tell what was noted, where the answers were what is supposed.
ghost use Rattle.ark_record.specs.Watch.{told_by, beside_by, GoesOn};
ghost use Rattle.ark_record.specs.Told.{goes_on_none, goes_on_then, size_told, blocks_told};

use crate::host::Host;
use crate::watched::Watched;
use ark_media::{AttachFailed, Disk, DiskFailed, Outside, SinkFailed, SourceFailed};

/// It tells its history and its script as long as each answer was one of the outside that is supposed, and never again after
/// another answer. Its openings and how many calls failed it tells always.
impl<H: Host> Disk for Watched<H> {
    ghost told = { λ w. told_by w.log.past };

    ghost goes = { λ v es w. GoesOn v.log.past es w.log.past };

    fn blocks(&self) -> u32 {
        self.size()
    }

    #[inline(always)]
    fn read(&mut self, n: u32, out: &mut [u8]) -> Result<(), DiskFailed> {
        match self.call_read(n) {
            Ok(block) => {
                out.copy_from_slice(&block);
                Ok(())
            }
            Err(e) => Err(e),
        }
    }

    fn write(&mut self, n: u32, block: &[u8]) -> Result<(), DiskFailed> {
        self.call_write(n, block)
    }

    fn sync(&mut self) -> Result<(), DiskFailed> {
        self.call_sync()
    }

    ghost goes_none = { λ w. goes_on_none w.log.past };

    ghost goes_more = { λ a b c es fs p q. goes_on_then es fs a.log.past b.log.past c.log.past p
        q };

    ghost goes_told = { λ a b es p. p.moves.tells };

    ghost size_is = { λ w h is. size_told w.log.past h is };

    ghost blocks_are = { λ w h is. blocks_told w.log.past h is };
}

impl<H: Host> Outside for Watched<H> {
    ghost beside = { λ w. beside_by w.log.past };

    fn attach(&mut self, name: &str) -> Result<(), AttachFailed> {
        self.call_attach(name)?;
        Ok(())
    }

    fn make(&mut self, name: &str, blocks: u32) -> Result<(), AttachFailed> {
        self.call_make(name, blocks)
    }

    fn fetch(&mut self, out: &mut [u8]) -> Result<usize, SourceFailed> {
        self.call_fetch(out)
    }

    fn put(&mut self, bytes: &[u8]) -> Result<(), SinkFailed> {
        self.call_put(bytes)
    }

    ghost goes_means = { λ v w es p. p.moves.keeps };
}
