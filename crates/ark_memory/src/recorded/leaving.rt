ghost use Rattle.std.specs.Prelude.{◌≡◌, ◌<◌, ◌↔◌, IsTrue, length};
ghost use Rattle.ark_media.specs.Journal.{block};
ghost use Rattle.ark_media.specs.Stops.{MayHold, Whole};
ghost use Rattle.ark_memory.specs.Leaving.{front_of, MayLeaveBytes};
ghost use Rattle.ark_memory.specs.Holding.{holding};

use super::Recorded;
use crate::holding::Holding;

impl Recorded {
    // Block `n` of the base.
    fn base_block(&self, n: u32) -> &[u8]
        requires { n < length self.now.base }
        ensures { result.now ≡ block self.now.base n }
    {
        let from = 512 * n as usize;
        &self.base[from..from + 512]
    }

    // What is known of a content at block `n` after so many events.
    fn holding(&self, front: u32, n: u32, content: &[u8]) -> Holding
        requires { n < length self.now.base }
        ensures { result ≡ holding self.now.base (front_of self.now front) n content.now }
    {
        let mut holding = Holding::first(self.base_block(n) == content);
        for i in 0..front.min(self.events()) {
            if let Some(event) = self.event(i) {
                holding = holding.after(n, content, event);
            }
        }
        holding
    }

    // Whether a stop after so many events may leave a content at block `n`.
    fn may_hold(&self, front: u32, n: u32, content: &[u8]) -> bool
        requires { n < length self.now.base }
        ensures { IsTrue result
            ↔ MayHold Whole self.now.base (front_of self.now front) n content.now }
    {
        self.holding(front, n, content).left
    }

    /// Whether a stop after so many events may leave these bytes of the device.
    pub fn may_leave(&self, front: u32, image: &[u8]) -> bool
        ensures leaves { IsTrue result ↔ MayLeaveBytes self.now front image.now }
    {
        if image.len() != 512 * self.blocks() as usize {
            return false;
        }
        for n in 0..self.blocks() {
            let from = 512 * n as usize;
            if !self.may_hold(front, n, &image[from..from + 512]) {
                return false;
            }
        }
        true
    }
}
