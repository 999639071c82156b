ghost use Rattle.std.specs.Prelude.{◌≡◌, ◌<◌, ◌+◌, ◌-◌, ◌%◌, ◌^◌};
ghost use Rattle.ark_chain.specs.Survey.{block_at};

/// A ring of `room` blocks, seen from its block `start` on.
#[derive(Clone, Copy, Debug)]
pub struct Reading {
    pub start: u32,
    pub room: u32,
}

impl Reading {
    /// The block of the ring that stands so many blocks behind the start.
    pub fn index(&self, behind: u32) -> u32
        requires some { 0 < self.now.room }
        ensures { result ≡ (self.now.start + behind) % self.now.room }
    {
        ((u64::from(self.start) + u64::from(behind)) % u64::from(self.room)) as u32
    }

    /// The same as a block of the area, whose block 0 stands before the ring.
    pub fn place(&self, behind: u32) -> u32
        requires some { 0 < self.now.room }
        requires small { self.now.room + 1 < 2 ^ 32 }
        ensures place { result ≡ block_at self.now.room self.now.start behind }
        ensures inside { result < self.now.room + 1 }
    {
        self.index(behind) + 1
    }

    /// How far behind the start block `q` of the ring stands.
    pub fn behind(&self, q: u32) -> u32
        requires start { self.now.start < self.now.room }
        ensures { result ≡ (q + self.now.room - self.now.start) % self.now.room }
    {
        let past = u64::from(q) + u64::from(self.room) - u64::from(self.start);
        (past % u64::from(self.room)) as u32
    }
}
