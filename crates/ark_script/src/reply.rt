ghost use Rattle.std.specs.Prelude.{◌≡◌, ◌≤◌, [], length, IfOk};
ghost use Rattle.std.specs.Borrow.{sem};
ghost use Rattle.ark_script.specs.Reply.{bytes_shown};
ghost use Rattle.ark_script.specs.declared.said.Said.TheVariants as said;

use crate::said::Said;
use ark_base::Memory;
use std::alloc::Global;
use std::marker::Model;

/// A reply shows at most so many bytes.
pub const MAX_SHOWN: usize = 32_768;

/// What a line is answered, with the bytes that the answer shows: the first ones of a buffer of 32,768 bytes.
#[derive(Drop)]
pub struct Reply {
    said: Said,
    len: u32,
    buffer: Vec<u8>,
}

impl Model for Reply {
    ghost use Rattle.std.specs.Prelude.{◌≡◌, ◌≤◌, length};
    ghost use Rattle.ark_script.specs.Reply.{Answer};

    ghost Value = { Answer };

    ghost view = { λ r. record { said = r.said; len = r.len; buffer = r.buffer.items } };

    ghost invariant = { λ r. (r.len ≤ 32768) × (length r.buffer.items ≡ 32768) };
}

impl Reply {
    ghost use Rattle.ark_script.specs.Lending.{LendsBuffer};

    /// A reply that says `Ok` and shows nothing. It fails for want of memory alone; no other call takes memory.
    pub fn new(alloc: Global) -> Result<Reply, Memory>
        ensures said { IfOk result (λ r. r.said ≡ said.Ok) }
        ensures len { IfOk result (λ r. r.len ≡ 0) }
        ensures shown { IfOk result (λ r. bytes_shown r ≡ []) }
    {
        match vec![in alloc; 0u8; MAX_SHOWN] {
            Ok(buffer) => Ok(Reply {
                said: Said::Ok,
                len: 0,
                buffer,
            }),
            Err(_) => Err(Memory),
        }
    }

    /// What it says.
    pub fn said(&self) -> &Said
        ensures { result.now ≡ self.now.said }
    {
        &self.said
    }

    /// The bytes that it shows.
    pub fn bytes(&self) -> &[u8]
        ensures value { result.now ≡ bytes_shown self.now }
        ensures len { length result.now ≡ self.now.len }
        ensures short { self.now.len ≤ 32768 }
    {
        &self.buffer[..self.len as usize]
    }

    /// The whole buffer, to be written. What the reply says, and how many of the bytes it shows, stay as they are.
    pub fn room(&mut self) -> &mut [u8]
        ensures* writes_back { sem 𝓛 (LendsBuffer self.entry result) }
        ensures value { result.now ≡ self.old.buffer }
        ensures len { length result.now ≡ 32768 }
    {
        self.buffer.as_mut_slice()
    }

    /// Says this, and shows so many of the buffer's first bytes. The buffer stays as it is.
    pub fn say(&mut self, said: Said, len: u32)
        requires short { len ≤ 32768 }
        ensures said { self.new.said ≡ said }
        ensures len { self.new.len ≡ len }
        ensures buffer { self.new.buffer ≡ self.old.buffer }
    {
        self.said = said;
        self.len = len;
    }
}
