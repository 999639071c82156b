ghost use Rattle.std.specs.Prelude.{None};
ghost use Rattle.std.proofs.Common.{⊎_elim, ap, refl, le_refl};
ghost use Rattle.std.proofs.lemmas.Bool.{false≢true};
ghost use Rattle.std.specs.Option.{is_some};
ghost use Rattle.ark_media.specs.Journal.{HasFailed};
ghost use Rattle.ark_media.specs.Going.{failed_append};

use super::VsaView;
use crate::spans::Spans;
use ark_base::Span;
use ark_media::{Disk, DiskFailed};

/// A disk of 1,000 blocks that never fails, tells nothing, and remembers the last block that it wrote.
#[derive(Drop)]
struct LastWritten {
    block: u32,
}

impl Disk for LastWritten {
    ghost told = { λ _. record { history = None; blocks = 1000; faults = 0 } };

    ghost goes = { λ _ events _. HasFailed events → ⊥ };

    fn blocks(&self) -> u32 {
        1000
    }

    fn read(&mut self, _n: u32, _out: &mut [u8]) -> Result<(), DiskFailed> {
        Ok(())
    }

    fn write(&mut self, n: u32, _block: &[u8]) -> Result<(), DiskFailed> {
        self.block = n;
        Ok(())
    }

    fn sync(&mut self) -> Result<(), DiskFailed> {
        Ok(())
    }

    ghost goes_none = { λ _ failed. failed };

    ghost goes_more = { λ _ _ _ es fs first rest failed.
        ⊎_elim first rest (failed_append es fs failed) };

    ghost goes_told = { λ _ _ es went. record {
      adds = record { told = λ h is. absurd (false≢true (ap is_some is)) };
      blocks = refl;
      later = le_refl 0;
      cause = λ failed. absurd (went failed);
    } };

    ghost size_is = { λ _ h is. absurd (false≢true (ap is_some is)) };

    ghost blocks_are = { λ _ h is. absurd (false≢true (ap is_some is)) };
}

#[test]
fn writes_the_block_at_its_place(rt: HostRuntime) {
    let runs = [Span { start: 200, len: 2 }, Span { start: 150, len: 3 }];
    let spans = Spans::of(&runs).expect(&rt, "spans");
    let mut disk = LastWritten { block: 0 };
    let mut view = VsaView::new(&spans, &mut disk);

    assert_eq!(rt; view.blocks(), 5);
    assert_eq!(rt; view.write(3, &[0; 512]), Ok(()));
    assert_eq!(rt; view.sync(), Ok(()));
    let mut block = [0; 512];
    assert_eq!(rt; view.read(4, &mut block), Ok(()));
    assert_eq!(rt; disk.block, 151);
}
