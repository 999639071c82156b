ghost use Rattle.std.specs.Prelude.{◌≡◌, ◌<◌, length};

use ark_media::{AttachFailed, Disk, DiskFailed, Outside, SinkFailed, SourceFailed};

/// An outside whose script comes one byte at a time, and that watches under which name a device is made.
#[derive(Drop)]
pub struct Watched<W: Outside + Drop> {
    pub inner: W,
    /// Whether the last device was made under the name `d`.
    pub made_d: bool,
}

impl<W: Outside + Drop> Disk for Watched<W> {
    ghost told = { λ w. W.told w.inner };

    ghost goes = { λ v es w. W.goes v.inner es w.inner };

    fn blocks(&self) -> u32 {
        self.inner.blocks()
    }

    fn read(&mut self, n: u32, out: &mut [u8]) -> Result<(), DiskFailed> {
        self.inner.read(n, out)
    }

    fn write(&mut self, n: u32, block: &[u8]) -> Result<(), DiskFailed> {
        self.inner.write(n, block)
    }

    fn sync(&mut self) -> Result<(), DiskFailed> {
        self.inner.sync()
    }

    ghost goes_none = { λ d. W.goes_none d.inner };

    ghost goes_more = { λ a b c es fs p q. W.goes_more a.inner b.inner c.inner es fs p q };

    ghost goes_told = { λ a b es p. W.goes_told a.inner b.inner es p };

    ghost size_is = { λ d h is. W.size_is d.inner h is };

    ghost blocks_are = { λ d h is. W.blocks_are d.inner h is };
}

impl<W: Outside + Drop> Outside for Watched<W> {
    ghost beside = { λ w. W.beside w.inner };

    fn attach(&mut self, name: &str) -> Result<(), AttachFailed> {
        self.inner.attach(name)
    }

    fn make(&mut self, name: &str, blocks: u32) -> Result<(), AttachFailed> {
        self.made_d = name == "d";
        self.inner.make(name, blocks)
    }

    fn fetch(&mut self, out: &mut [u8]) -> Result<usize, SourceFailed> {
        self.inner.fetch(&mut out[..1])
    }

    fn put(&mut self, bytes: &[u8]) -> Result<(), SinkFailed> {
        self.inner.put(bytes)
    }

    ghost goes_means = { λ v w es p. W.goes_means v.inner w.inner es p };
}
