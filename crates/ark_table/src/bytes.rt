ghost use Rattle.std.specs.Prelude.{◌≡◌, ◌≤◌, ◌+◌, ◌++◌, length, take, drop};

/// Writes the bytes from a place on, and gives the place after them.
pub fn put(block: &mut [u8], at: usize, bytes: &[u8]) -> usize
    requires { at + length bytes.now ≤ length block.old }
    ensures end { result ≡ at + length bytes.now }
    ensures written { block.new ≡
        take at block.old ++ (bytes.now ++ drop (at + length bytes.now) block.old) }
{
    let end = at + bytes.len();
    block[at..end].copy_from_slice(bytes);
    end
}
