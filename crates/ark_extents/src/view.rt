ghost use Rattle.std.specs.Prelude.{◌≡◌, ◌<◌, All, length, refl};
ghost use Rattle.std.proofs.Common.{◌∙◌};
ghost use Rattle.ark_media.specs.Stops.{Whole, AnyBytes};
ghost use Rattle.ark_extents.specs.Views.{view_told, ArePlaced, GoesOver, IsLeftAlike};
ghost use Rattle.ark_extents.specs.ViewLaws.{over_more, over_told, view_size, view_blocks};

use crate::spans::Spans;
use ark_media::{Disk, DiskFailed};

/// A disk seen at the blocks of one area: block `k` of the view is the block at place `k` of the spans.
#[derive(Drop)]
pub struct VsaView<'a, D: Disk> {
    /// The blocks that are seen.
    pub spans: Spans,
    /// The disk that has them.
    pub disk: &'a mut D,
    count: u32,
    ghost inside: { All (λ n. n < (D.told disk.now).blocks) spans },
    ghost placed: { ArePlaced spans },
    ghost counted: { count ≡ length spans },
}

impl<'a, D: Disk> VsaView<'a, D> {
    /// The disk at these blocks, all of which it has.
    pub fn new(spans: &'a Spans, disk: &'a mut D) -> VsaView<'a, D>
        requires inside { All (λ n. n < (D.told disk.old).blocks) spans.now }
        ensures spans { result.spans ≡ spans.now }
        ensures disk { result.disk ≡ disk.entry }
        ensures left_whole { IsLeftAlike Whole spans.now (D.told disk.old).blocks }
        ensures left_torn { IsLeftAlike AnyBytes spans.now (D.told disk.old).blocks }
    {
        let count = spans.blocks();
        VsaView {
            spans: *spans,
            count,
            disk,
        }
    }
}

impl<'a, D: Disk> Disk for VsaView<'a, D> {
    ghost told = { λ v. view_told v.spans (D.told v.disk.now) };

    ghost goes = { λ old events new. (new.spans ≡ old.spans)
        × (new.disk.ghost_name ≡ old.disk.ghost_name)
        × GoesOver D.goes old.spans events old.disk.now new.disk.now };

    fn blocks(&self) -> u32 {
        self.count
    }

    fn read(&mut self, n: u32, out: &mut [u8]) -> Result<(), DiskFailed> {
        let Some(at) = self.spans.translate(n) else {
            unreachable!()
        };
        self.disk.read(at, out)
    }

    fn write(&mut self, n: u32, block: &[u8]) -> Result<(), DiskFailed> {
        let Some(at) = self.spans.translate(n) else {
            unreachable!()
        };
        self.disk.write(at, block)
    }

    fn sync(&mut self) -> Result<(), DiskFailed> {
        self.disk.sync()
    }

    ghost goes_none = { λ v. (
      refl,
      refl,
      record {
        within = tt;
        goes_on = D.goes_none
            v.disk.now;
      },
    ) };

    ghost goes_more = { λ old mid new es fs first rest. (
      rest.0 ∙ first.0,
      rest.1 ∙ first.1,
      over_more D.goes D.goes_more old.spans mid.spans old.disk.now mid.disk.now new.disk.now es fs
          first.0 first.2 rest.2,
    ) };

    ghost goes_told = { λ old new es went. over_told D.goes D.told D.goes_told old.spans new.spans
        old.placed old.disk.now new.disk.now es went.0 went.2 };

    ghost size_is = { λ v h is. view_size v.spans (D.told v.disk.now).history h is };

    ghost blocks_are = { λ v h is. view_blocks v.spans (D.told v.disk.now) (D.size_is v.disk.now)
        (D.blocks_are v.disk.now) v.inside h is };
}

#[cfg(test)]
mod tests;
