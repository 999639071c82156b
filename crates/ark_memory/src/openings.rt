//! A list of openings that only clauses read.
ghost use Rattle.std.specs.Prelude.{◌≡◌, List, [], ◌∷◌, ◌++◌};
ghost use Rattle.std.specs.Borrow.{ftrue};
ghost use Rattle.ark_media.specs.Calls.{Opening, attaching, making};
ghost use Rattle.ark_memory.specs.Openings.{openings_code, opening_of};

use std::marker::{Model, PhantomData};

/// The openings that were asked for, the first one first. No memory holds them.
#[derive(Drop)]
pub struct Openings {
    marker: PhantomData<u8>,
    pub ghost asked: { List Opening } by { openings_code },
}

impl Model for Openings {
    ghost also_owns = { λ _. ftrue };
}

impl Openings {
    /// None was asked for.
    pub fn new() -> Openings
        ensures { result.asked ≡ [] }
    {
        Openings {
            marker: PhantomData,
        }
    }

    // Notes an opening by its numbers and its name.
    fn note(&mut self, _numbers: &[u64], _name: &[u8])
        ensures { self.new.asked ≡ self.old.asked ++ opening_of _numbers.now _name.now ∷ [] }
    {}

    /// A device was to be attached as it is found.
    pub fn attached(&mut self, name: &str, ok: bool)
        ensures { self.new.asked ≡ self.old.asked ++ attaching name.now ok ∷ [] }
    {
        self.note(&[0, 0, u64::from(ok)], name.as_bytes());
    }

    /// A device of so many blocks was to be made.
    pub fn made(&mut self, name: &str, blocks: u32, ok: bool)
        ensures { self.new.asked ≡ self.old.asked ++ making name.now blocks ok ∷ [] }
    {
        self.note(&[1, u64::from(blocks), u64::from(ok)], name.as_bytes());
    }
}
