use std::marker::Model;

/// One block of a device: 512 bytes. Contracts see the list of its bytes.
#[derive(Clone, Copy, Debug)]
pub struct Block(pub [u8; 512]);

impl Model for Block {
    ghost use Rattle.std.specs.Prelude.{List, ℕ};

    ghost Value = { List ℕ };

    ghost view = { λ b. b.0 };

    ghost inverse = { λ bytes. record { 0 = bytes } };
}

/// `len` neighbouring blocks of a device, from block `start` on.
#[derive(Clone, Copy, Debug, PartialEq, Eq)]
pub struct Span {
    pub start: u32,
    pub len: u32,
}
