ghost use Rattle.std.specs.Prelude.{◌≡◌, ◌<◌, ◌⊎◌, [], false, true, length, All, IfSome, IfErr, OnOk, OnErr};
ghost use Rattle.ark_region.specs.Frames.{LiesInRegion};
ghost use Rattle.ark_log.specs.Closed.{HasBuffersIn, LiesIn, all_given_back, given_back, space_closed};

use crate::chain::Chain;
use crate::command::Waiting;
use ark_region::{Buf, Region};
use circular_buffer::HeapCircularBuffer;

// Gives a buffer back, if there is one.
pub(crate) fn give_back(buf: Option<Buf>, region: &mut Region)
    requires { IfSome buf (LiesInRegion region.old.taken) }
    ensures space { region.new ≡ record region.old { taken = given_back region.old.taken buf } }
    ensures frames { length region.new.taken ≡ length region.old.taken }
{
    if let Some(buf) = buf {
        region.give(buf);
    }
}

// Gives the buffers of the commands that wait back.
fn give_all(mut waiting: HeapCircularBuffer<Waiting>, region: &mut Region)
    requires { All (LiesIn region.old.taken) waiting.items }
    ensures space { region.new ≡ record region.old {
      taken = all_given_back region.old.taken waiting.items;
    } }
    ensures frames { length region.new.taken ≡ length region.old.taken }
{
    while let Some(command) = waiting.pop_front() {
        give_back(command.buf, region);
    }
}

impl Chain {
    /// Closes it: its header's buffer and those of commands that wait are given back. It is handed back as it was exactly where it
    /// has not failed and commands wait.
    pub fn close(self, region: &mut Region) -> Result<(), Chain>
        requires { HasBuffersIn region.old.taken self }
        ensures closed { OnOk result ((self.failed ≡ true) ⊎ (self.waiting ≡ [])) }
        ensures space { OnOk result (region.new ≡ space_closed self region.old) }
        ensures busy { OnErr result ((self.failed ≡ false) × (0 < length self.waiting)) }
        ensures back { IfErr result (λ back. back ≡ self) }
        ensures region { OnErr result (region.new ≡ region.old) }
        ensures frames { length region.new.taken ≡ length region.old.taken }
    {
        if !self.failed && !self.waiting.is_empty() {
            return Err(self);
        }
        let Chain {
            header,
            waiting,
            ..
        } = self;
        give_back(header, region);
        give_all(waiting, region);
        Ok(())
    }
}
