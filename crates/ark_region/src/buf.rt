ghost use Rattle.std.specs.Prelude.{◌≡◌, ◌*◌, ◌<◌};

use std::marker::Model;

/// A buffer of a region: the right to its bytes, given by `Region::take` and taken back by `Region::give`. It is neither
/// `Copy` nor `Clone`, so no two live buffers are the same.
#[derive(Drop, Debug)]
pub struct Buf {
    pub(crate) start: u32,
    pub(crate) len: u32,
}

impl Model for Buf {
    ghost use Rattle.std.specs.Prelude.{◌<◌};
    ghost use Rattle.ark_region.specs.Frames.{Piece};

    ghost Value = { Piece };

    ghost view = { λ b. record { start = b.start; len = b.len } };

    ghost invariant = { λ b. 0 < b.len };
}

/// Where the bytes of a buffer lie in its region.
#[derive(Clone, Copy, Debug, PartialEq, Eq)]
pub struct Place {
    /// The first byte.
    pub at: usize,
    /// How many bytes.
    pub len: usize,
}

impl Buf {
    /// The frame of the region where it starts; frames count from 0.
    pub fn start(&self) -> u32
        ensures { result ≡ self.now.start }
    {
        self.start
    }

    /// Its length in bytes.
    pub fn len(&self) -> u32
        ensures { result ≡ self.now.len }
    {
        self.len
    }

    /// Where its bytes lie in the region.
    pub fn place(&self) -> Place
        ensures at { result.at ≡ 512 * self.now.start }
        ensures len { result.len ≡ self.now.len }
        ensures some { 0 < self.now.len }
    {
        Place {
            at: 512 * self.start as usize,
            len: self.len as usize,
        }
    }
}
