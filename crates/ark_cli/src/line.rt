ghost use Rattle.std.specs.Prelude.{◌≡◌, [], ◌+◌, ◌++◌, take, drop, length, ◌≤◌, IfOk};
ghost use Rattle.ark_cli.specs.Line.{kept};

use std::alloc::{AllocError, Global};
use std::marker::Model;

// One byte more than a line may have, so that a longer one is told.
const ROOM: usize = 66_001;

/// The bytes of the line so far, up to the first that are too many. Contracts see the list of these bytes.
#[derive(Drop)]
pub struct LineBuffer {
    bytes: Vec<u8>,
    len: usize,
}

// Writes a piece at a place, over what was there.
fn put_at(bytes: &mut [u8], at: usize, piece: &[u8])
    requires fits { at + length piece.now ≤ length bytes.old }
    ensures { bytes.new ≡
        take at bytes.old ++ (piece.now ++ drop (at + length piece.now) bytes.old) }
{
    bytes[at..at + piece.len()].copy_from_slice(piece);
}

impl Model for LineBuffer {
    ghost use Rattle.std.specs.Prelude.{List, ℕ, ◌≡◌, ◌≤◌, take, length};

    ghost Value = { List ℕ };

    ghost view = { λ b. take b.len b.bytes.items };

    ghost invariant = { λ b. (length b.bytes.items ≡ 66001) × (b.len ≤ 66001) };
}

impl LineBuffer {
    /// An empty line, with room for a whole one.
    pub fn new(alloc: Global) -> Result<LineBuffer, AllocError>
        ensures { IfOk result (λ line. line ≡ []) }
    {
        Ok(LineBuffer {
            bytes: vec![in alloc; 0; ROOM]?,
            len: 0,
        })
    }

    /// The bytes that are kept.
    pub fn bytes(&self) -> &[u8]
        ensures same { result.now ≡ self.now }
        ensures room { length self.now ≤ 66001 }
    {
        &self.bytes[..self.len]
    }

    /// Begins a new line.
    pub fn clear(&mut self)
        ensures { self.new ≡ [] }
    {
        self.len = 0;
    }

    /// Adds bytes, until it is known that the line is too long.
    pub fn extend(&mut self, bytes: &[u8])
        ensures { self.new ≡ kept (self.old ++ bytes.now) }
    {
        let count = bytes.len().min(ROOM - self.len);
        put_at(&mut self.bytes, self.len, &bytes[..count]);
        self.len += count;
    }
}

/// The bytes that are kept of a line that lies whole.
pub fn kept_of(line: &[u8]) -> &[u8]
    ensures { result.now ≡ kept line.now }
{
    &line[..line.len().min(ROOM)]
}
