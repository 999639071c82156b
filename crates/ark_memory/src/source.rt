ghost use Rattle.std.specs.Prelude.{◌≡◌, ◌<◌, [], Some, length, min, IfOk};
ghost use Rattle.ark_media.specs.Calls.{Script, Fetches};

use std::alloc::{AllocError, Global};
use std::marker::Model;

/// The bytes of a script, and how many of them were taken.
#[derive(Drop)]
pub struct Source {
    bytes: Vec<u8>,
    taken: usize,
}

impl Model for Source {
    ghost use Rattle.std.specs.Prelude.{◌≤◌, length, take, drop};
    ghost use Rattle.ark_media.specs.Calls.{Script};

    ghost Value = { Script };

    ghost view = { λ s. record {
      taken = take s.taken s.bytes.items;
      left = drop s.taken
          s.bytes.items;
    } };

    ghost invariant = { λ s. s.taken ≤ length s.bytes.items };
}

impl Source {
    /// A copy of the script, of which nothing was taken.
    pub fn new(alloc: Global, script: &[u8]) -> Result<Source, AllocError>
        ensures { IfOk result (λ s. s ≡ record { taken = []; left = script.now }) }
    {
        Ok(Source {
            bytes: Vec::from_slice(alloc, script)?,
            taken: 0,
        })
    }

    /// Takes as many bytes as `out` holds, or all that are left; the answer is their number.
    pub fn fetch(&mut self, out: &mut [u8]) -> usize
        requires { 0 < length out.old }
        ensures count { result ≡ min (length out.old) (length self.old.left) }
        ensures fetches { Fetches (Some self.old) (Some self.new) result out.new }
    {
        let count = out.len().min(self.bytes.len() - self.taken);
        out[..count].copy_from_slice(&self.bytes[self.taken..self.taken + count]);
        self.taken += count;
        count
    }
}
