ghost use Rattle.std.specs.Prelude.{◌≡◌, ◌++◌, ◌∷◌, [], List};

use std::marker::Model;

/// What a door is told of.
#[derive(Clone, Copy, Debug, PartialEq, Eq)]
pub enum Bell {
    /// A frame was received.
    Rx,
    /// A frame was sent.
    Tx,
    /// A storage descriptor ended.
    Io,
}

/// How often each bell rang. A count that reaches 2^64 - 1 stays there.
#[derive(Clone, Copy, Debug, PartialEq, Eq)]
pub struct Counts {
    pub rx: u64,
    pub tx: u64,
    pub io: u64,
}

/// A doorbell that an application watches: it counts the rings of each bell since the last look.
#[derive(Drop, Debug)]
pub struct Door {
    counts: Counts,
}

impl Model for Door {
    ghost use Rattle.ark_vic.specs.declared.door.Counts.{Counts};

    ghost Value = { Counts };

    ghost view = { λ d. d.counts };
}

impl Door {
    ghost use Rattle.ark_vic.specs.Bells.{counts_of, one_more};
    ghost use Rattle.ark_vic.specs.declared.door.Bell.{Bell};

    /// A door at which nothing rang.
    pub fn new() -> Door
        ensures { result ≡ counts_of [] }
    {
        Door {
            counts: Counts {
                rx: 0,
                tx: 0,
                io: 0,
            },
        }
    }

    /// Counts one ring.
    pub fn ring(&mut self, bell: Bell)
        ensures value { self.new ≡ one_more self.old bell }
        ensures counts { (bells : List Bell) → self.old ≡ counts_of bells
            → self.new ≡ counts_of (bells ++ bell ∷ []) }
    {
        match bell {
            Bell::Rx => self.counts.rx = self.counts.rx.saturating_add(1),
            Bell::Tx => self.counts.tx = self.counts.tx.saturating_add(1),
            Bell::Io => self.counts.io = self.counts.io.saturating_add(1),
        }
    }

    /// The rings since the last look, and starts to count anew.
    pub fn look(&mut self) -> Counts
        ensures value { result ≡ self.old }
        ensures anew { self.new ≡ counts_of [] }
    {
        let counts = self.counts;
        *self = Door::new();
        counts
    }
}
