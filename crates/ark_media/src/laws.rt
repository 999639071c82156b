// Laws of the definitions, each the contract of a function that does nothing.
ghost use Rattle.ark_media.specs.Stops.{Whole, AnyBytes};
ghost use Rattle.ark_media.specs.StopLaws.{StopLaws};

/// What a stop may leave of a disk, by the recursion over its journal and in words, is the same, both ways. A write adds only to what
/// it may leave of the write's own block, and a sync, failed or not, adds nothing. What stands is among what it may leave, and after a
/// sync that succeeded it is all. This holds where blocks are written whole, and where a block may be torn into any bytes.
pub fn stop_laws()
    ensures whole { StopLaws Whole }
    ensures torn { StopLaws AnyBytes }
{}
