ghost use Rattle.std.specs.Prelude.{◌≡◌, [], IfOk};
ghost use Rattle.ark_script.specs.Reply.{bytes_shown};
ghost use Rattle.ark_script.specs.Text.{IsSaid, text};

use ark_base::Memory;
use ark_printing::{TEXT_ROOM, print};
use ark_script::Reply;
use std::alloc::Global;
use std::marker::Model;

/// Room for one reply, and for its line.
#[derive(Drop)]
pub struct ReplyBuffer {
    pub reply: Reply,
    pub text: TextBuffer,
}

impl ReplyBuffer {
    /// Room for the longest reply. It fails for want of memory alone; no later use takes memory.
    pub fn new(alloc: Global) -> Result<ReplyBuffer, Memory>
        ensures { IfOk result (λ r. r.text ≡ []) }
    {
        Ok(ReplyBuffer {
            reply: Reply::new(alloc)?,
            text: TextBuffer::new(alloc)?,
        })
    }
}

/// The line of a reply. Contracts see the list of its bytes.
#[derive(Drop)]
pub struct TextBuffer {
    bytes: Vec<u8>,
    len: usize,
}

impl Model for TextBuffer {
    ghost use Rattle.std.specs.Prelude.{List, ℕ, ◌≡◌, ◌≤◌, take, length};

    ghost Value = { List ℕ };

    ghost view = { λ b. take b.len b.bytes.items };

    ghost invariant = { λ b. (length b.bytes.items ≡ 66000) × (b.len ≤ 66000) };
}

impl TextBuffer {
    /// An empty line, with room for the longest one.
    pub fn new(alloc: Global) -> Result<TextBuffer, Memory>
        ensures { IfOk result (λ line. line ≡ []) }
    {
        match vec![in alloc; 0; TEXT_ROOM] {
            Ok(bytes) => Ok(TextBuffer { bytes, len: 0 }),
            Err(_) => Err(Memory),
        }
    }

    /// The bytes of the line.
    pub fn bytes(&self) -> &[u8]
        ensures { result.now ≡ self.now }
    {
        &self.bytes[..self.len]
    }

    /// Begins anew with the line of this reply.
    pub fn print(&mut self, reply: &Reply)
        ensures text { self.new ≡ text reply.now.said (bytes_shown reply.now) }
        ensures named { IsSaid reply.now.said }
    {
        self.len = print(reply, &mut self.bytes);
    }
}
