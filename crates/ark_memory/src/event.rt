use ark_base::Block;

/// One call of a device or an output, and what came of it.
#[derive(Clone, Copy, Debug)]
pub enum Event<'a> {
    /// A read of block `n`.
    Read {
        n: u32,
        ok: bool,
    },
    /// A write of block `n`, which took effect or not. One that succeeded took effect.
    Write {
        n: u32,
        block: &'a Block,
        took: bool,
        ok: bool,
    },
    /// A sync: all writes before it stand, if it succeeded.
    Sync {
        ok: bool,
    },
    /// Bytes that were put out.
    Out {
        bytes: &'a [u8],
    },
}
