ghost use Rattle.std.specs.Prelude.{◌≡◌, ◌≤◌, ◌<◌, ℕ, List, [], ◌∷◌, ◌++◌, Some, length, is_ok, IfOk, OnOk, OnErr, IfSome};
ghost use Rattle.ark_media.specs.Journal.{Event, History, AllBlocks, fresh};
ghost use Rattle.ark_media.specs.Calls.{Told, Beside, attaching, making, Tells, Rests, Went, Reads, Writes, Syncs, Adds, StillTold, HasCause, GivesBlock, Puts, Fetches, KeepsBeside, KeepsAtAttach, KeepsAtFetch, KeepsAtPut};

/// A read, a write or a sync failed.
#[derive(Clone, Copy, Debug, PartialEq, Eq)]
pub struct DiskFailed;

/// A device could not be attached or made.
#[derive(Clone, Copy, Debug, PartialEq, Eq)]
pub struct AttachFailed;

/// The script could not be read on.
#[derive(Clone, Copy, Debug, PartialEq, Eq)]
pub struct SourceFailed;

/// Bytes could not be put out.
#[derive(Clone, Copy, Debug, PartialEq, Eq)]
pub struct SinkFailed;

/// A device of numbered blocks of 512 bytes.
///
/// A disk may tell its history: a base image and the events since. Each call adds its one event and nothing else, and a
/// failed call raises the count of failures; this is `Went` with the law `goes_told`. A count at 2^64 - 1 stays there.
pub trait Disk {
    /// What it tells of itself.
    ghost told: { Self → Told };

    /// From the one to the other by these events, in this order, and by nothing else. What was told may be told no more.
    ghost goes: { Self → List Event → Self → Type 0 };

    /// The number of blocks.
    fn blocks(&self) -> u32
        ensures { result ≡ (told self.now).blocks };

    /// Reads block `n` into `out`, which has 512 bytes. A failed read leaves `out` as it was.
    fn read(&mut self, n: u32, out: &mut [u8]) -> Result<(), DiskFailed>
        requires inside { n < (told self.old).blocks }
        requires room { length out.old ≡ 512 }
        ensures went { Went goes (Reads n ∷ []) (is_ok result) self.old self.new }
        ensures honest { OnOk result (GivesBlock (told self.new).history n out.new) }
        ensures unread { OnErr result (out.new ≡ out.old) };

    /// Writes block `n`, 512 bytes. A failed write may have taken effect or not.
    fn write(&mut self, n: u32, block: &[u8]) -> Result<(), DiskFailed>
        requires inside { n < (told self.old).blocks }
        requires room { length block.now ≡ 512 }
        ensures went { Went goes (Writes n block.now ∷ []) (is_ok result) self.old self.new };

    /// Waits until all writes so far stand, whatever stop comes.
    fn sync(&mut self) -> Result<(), DiskFailed>
        ensures went { Went goes (Syncs ∷ []) (is_ok result) self.old self.new };

    ghost goes_none: { (d : Self) → goes d [] d };

    ghost goes_more: { (a b c : Self) (es fs : List Event) → goes a es b → goes b fs c
        → goes a (es ++ fs) c };

    /// What is told goes on by the events; a call fails only where the count of failures rose.
    ghost goes_told: { (a b : Self) (es : List Event) → goes a es b → Tells es (told a) (told b) };

    /// The told base has the disk's number of blocks.
    ghost size_is: { (d : Self) (h : History) → (told d).history ≡ Some h
        → length h.base ≡ (told d).blocks };

    /// Each block of the told base has 512 bytes.
    ghost blocks_are: { (d : Self) (h : History) → (told d).history ≡ Some h → AllBlocks h.base };
}

/// A disk with a source of script bytes and a sink of output.
pub trait Outside: Disk {
    /// What it tells beside its disk. A call that succeeds raises no count of failures.
    ghost beside: { Self → Beside };

    /// Attaches the device of this name as it is found, in whole blocks, at most 2,097,152. Its journal is empty then.
    fn attach(&mut self, name: &str) -> Result<(), AttachFailed>
        ensures asked { (beside self.new).openings
            ≡ (beside self.old).openings ++ attaching name.now (is_ok result) ∷ [] }
        ensures begun { OnOk result (IfSome (Self.told self.new).history (λ h. h.journal ≡ [])) }
        ensures small { OnOk result ((Self.told self.new).blocks ≤ 2097152) }
        ensures not_begun { OnErr result
            (Adds (Self.told self.old).history (Self.told self.new).history []) }
        ensures same_size { OnErr result ((Self.told self.new).blocks
            ≡ (Self.told self.old).blocks) }
        ensures cause { HasCause (beside self.old).attach_faults
            (beside self.new).attach_faults result }
        ensures disk { (Self.told self.new).faults ≡ (Self.told self.old).faults }
        ensures keeps { KeepsAtAttach (beside self.old) (beside self.new) };

    /// Makes a device of this name with so many zero blocks, in place of one that was there. Its journal is empty then.
    fn make(&mut self, name: &str, blocks: u32) -> Result<(), AttachFailed>
        requires low { 130 ≤ blocks }
        requires high { blocks ≤ 1048576 }
        ensures asked { (beside self.new).openings
            ≡ (beside self.old).openings ++ making name.now blocks (is_ok result) ∷ [] }
        ensures begun { OnOk result (IfSome (Self.told self.new).history (λ h. h ≡ fresh blocks)) }
        ensures size { OnOk result ((Self.told self.new).blocks ≡ blocks) }
        ensures not_begun { OnErr result
            (Adds (Self.told self.old).history (Self.told self.new).history []) }
        ensures same_size { OnErr result ((Self.told self.new).blocks
            ≡ (Self.told self.old).blocks) }
        ensures cause { HasCause (beside self.old).attach_faults
            (beside self.new).attach_faults result }
        ensures disk { (Self.told self.new).faults ≡ (Self.told self.old).faults }
        ensures keeps { KeepsAtAttach (beside self.old) (beside self.new) };

    /// Takes the next bytes of the script, 1 or more, into the front of `out`; the answer is their number, 0 at the end.
    fn fetch(&mut self, out: &mut [u8]) -> Result<usize, SourceFailed>
        requires { 0 < length out.old }
        ensures bytes { IfOk result (λ count. Fetches (beside self.old).script
            (beside self.new).script count out.new) }
        ensures none { OnErr result (StillTold (beside self.old).script (beside self.new).script) }
        ensures cause { HasCause (beside self.old).source_faults
            (beside self.new).source_faults result }
        ensures rests { Rests [] (Self.told self.old) (Self.told self.new) }
        ensures keeps { KeepsAtFetch (beside self.old) (beside self.new) };

    /// Puts the bytes out: all of them, or where it fails a prefix.
    fn put(&mut self, bytes: &[u8]) -> Result<(), SinkFailed>
        ensures puts { Puts (Self.told self.old) (Self.told self.new) bytes.now (is_ok result) }
        ensures cause { HasCause (beside self.old).sink_faults
            (beside self.new).sink_faults result }
        ensures keeps { KeepsAtPut (beside self.old) (beside self.new) };

    /// A call that is given the disk alone leaves all else.
    ghost goes_means: { (v w : Self) (es : List Event) → Self.goes v es w
        → KeepsBeside (beside v) (beside w) };
}
