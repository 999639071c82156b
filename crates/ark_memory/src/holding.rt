ghost use Rattle.std.specs.Prelude.{◌≡◌};
ghost use Rattle.ark_media.specs.Journal as journal;
ghost use Rattle.ark_memory.specs.Shown.{Shows};
ghost use Rattle.ark_memory.specs.Holding as spec;

use crate::event::Event;

/// What is known of one content at one block of a device, after some events.
#[derive(Clone, Copy, Debug, PartialEq, Eq)]
pub struct Holding {
    /// Whether a stop may leave it there.
    pub left: bool,
    /// Whether it stands there.
    pub stands: bool,
}

impl Holding {
    /// Before all events, where it is the base's content or not.
    pub fn first(is_base: bool) -> Holding
        ensures { result ≡ spec.first is_base }
    {
        Holding {
            left: is_base,
            stands: is_base,
        }
    }

    // After a write of the block, of this content or of another.
    fn written(self, same: bool, took: bool) -> Holding
        ensures { result ≡ spec.written same took self }
    {
        Holding {
            left: self.left || same,
            stands: if took { same } else { self.stands },
        }
    }

    /// After one event more: a write may leave its content, and after a sync that succeeded what stands is left alone.
    pub fn after(self, n: u32, content: &[u8], event: Event<'_>) -> Holding
        ensures { (e : journal.Event) → Shows event.entry e
            → result ≡ spec.after n content.now e self }
    {
        match event {
            Event::Write {
                n: m,
                block,
                took,
                ..
            } => {
                if m == n {
                    self.written(block.0.as_slice() == content, took)
                } else {
                    self
                }
            }
            Event::Sync { ok } => {
                if ok {
                    Holding {
                        left: self.stands,
                        stands: self.stands,
                    }
                } else {
                    self
                }
            }
            Event::Read { .. } => self,
            Event::Out { .. } => self,
        }
    }
}
