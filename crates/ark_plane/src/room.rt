ghost use Rattle.std.specs.Prelude.{◌≡◌, ◌≤◌, false, IfOk, IfErr, length, take};
ghost use Rattle.ark_extents.specs.Blocks.{runs_of};
ghost use Rattle.ark_plane.specs.Room.{HasNoRoom};

use crate::plane::Plane;
use ark_base::Refusal;
use ark_extents::{Spans, TakeFault};

impl Plane {
    /// The `blocks` lowest free blocks, at least 1, which the next grant takes. `TableFailed` comes exactly where a change of the
    /// table has failed, else `NoSpace` exactly where fewer blocks are free, else `Scattered` exactly where they form more than 16
    /// runs.
    pub fn room(&self, blocks: u64) -> Result<Spans, Refusal>
        requires some { 1 ≤ blocks }
        ensures lowest { IfOk result (λ s. s ≡ take blocks self.now.free) }
        ensures enough { IfOk result (λ s. blocks ≤ length self.now.free) }
        ensures compact { IfOk result (λ s. length (runs_of s) ≤ 16) }
        ensures settled { IfOk result (λ s. self.now.failed ≡ false) }
        ensures none { IfErr result (λ e. HasNoRoom self.now blocks e) }
    {
        if self.failed {
            return Err(Refusal::TableFailed);
        }
        if blocks > u64::from(self.free.free()) {
            return Err(Refusal::NoSpace);
        }
        match self.free.lowest(blocks as u32) {
            Ok(spans) => {
                // that its runs are few is what their number says
                let _ = spans.runs();
                Ok(spans)
            }
            Err(TakeFault::NoSpace) => Err(Refusal::NoSpace),
            Err(TakeFault::Scattered) => Err(Refusal::Scattered),
        }
    }
}
