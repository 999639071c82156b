ghost use Rattle.std.specs.Prelude.{◌≡◌, ◌<◌, ◌+◌, Some, slice_get, length, IfSome};
ghost use Rattle.ark_log.specs.Acked.{acknowledged, from_number, with_one_more};
ghost use Rattle.ark_log.specs.Oldest.{Adds, DropsTo};

use crate::chain::Chain;
use crate::command::Waiting;
use ark_entry::entry_blocks;

impl Chain {
    // Takes the oldest command, which appends an entry, and counts that as one of the list.
    pub(crate) fn acknowledge_append(&mut self) -> Waiting
        requires { Adds self.old }
        ensures chain { self.new ≡ with_one_more self.old }
        ensures oldest { Some result ≡ slice_get self.old.waiting 0 }
    {
        let Some(len) = self.lengths.get(self.count as usize) else {
            unreachable!();
        };
        let blocks = entry_blocks(*len);
        let Some(oldest) = self.waiting.pop_front() else {
            unreachable!();
        };
        self.count += 1;
        self.stored += blocks;
        self.done = 0;
        oldest
    }

    // Takes the oldest command, which drops the entries below this number, and lets the list begin there.
    pub(crate) fn acknowledge_drop(&mut self, n: u64) -> Waiting
        requires { DropsTo self.old n }
        ensures chain { self.new ≡ from_number self.old n }
        ensures oldest { Some result ≡ slice_get self.old.waiting 0 }
    {
        let dropped = (n - self.first) as u32;
        let freed = self.blocks_before(dropped);
        let start = self.reading().index(freed);
        let Some(oldest) = self.waiting.pop_front() else {
            unreachable!();
        };
        let left = self.lengths.len() - dropped as usize;
        self.lengths.truncate_front(left);
        self.first = n;
        self.start = start;
        self.count -= dropped;
        self.stored -= freed;
        self.used -= freed;
        self.done = 0;
        oldest
    }
}
