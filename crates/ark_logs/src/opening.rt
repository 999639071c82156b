ghost use Rattle.std.specs.Prelude.{◌≡◌, ◌<◌, true, false, [], All, IfErr, IfOk, IsSome, is_some, nat_eq};
ghost use Rattle.std.specs.Map.{lookup};
ghost use Rattle.ark_media.specs.Calls.{GoesBy};
ghost use Rattle.ark_region.specs.Frames.{Apart, LiesInRegion, Piece, bytes_of};
ghost use Rattle.ark_script.specs.Text.{IsSaid, wants_memory};
ghost use Rattle.ark_objects.specs.Held.{at};
ghost use Rattle.ark_vic.specs.Queue.{members};
ghost use Rattle.ark_machine.specs.Logs as logs;
ghost use Rattle.ark_log.specs.Open.{IsRight};
ghost use Rattle.ark_held.specs.Does.{Acts};
ghost use Rattle.ark_held.specs.Idle.{IsUnused};
ghost use Rattle.ark_held.specs.Inside.{AreasInside};
ghost use Rattle.ark_logs.specs.Opening.{IsLoad, IsOpening, refused_by};

use crate::areas::{LogArea, area_and_card};
use ark_base::{Kind, Label, Refusal};
use ark_extents::VsaView;
use ark_held::App;
use ark_log::{Chain, LoadFault};
use ark_media::Disk;
use ark_region::{Buf, Region};
use ark_running::loading_laws;
use ark_script::Said;
use ark_vic::Ring;
use std::alloc::Global;

/// Why a log or queue was not opened.
#[derive(Clone, Copy, Debug, PartialEq, Eq)]
pub enum OpenFault {
    /// The memory has no place for its header.
    NoBuffer,
    /// It was not loaded from its area.
    Load(LoadFault),
}

// Loads the log or queue of an area. Fewer than two blocks have no header and no ring.
fn load<D: Disk>(
    alloc: Global,
    disk: &mut D,
    kind: Kind,
    area: &LogArea,
    header: Buf,
    region: &mut Region,
) -> Result<Chain, (LoadFault, Buf)>
    requires inside { All (λ n. n < (D.told disk.old).blocks) area.now.spans }
    requires whole { header.len ≡ 512 }
    requires lies { LiesInRegion region.old.taken header }
    ensures went { GoesBy D.goes disk.old disk.new (IsLoad (D.told disk.new) kind area.now.grant
        area.now.spans header result region.old region.new) }
    ensures right { IfOk result (λ chain. IsRight chain) }
    ensures back { IfErr result (λ e. e.1 ≡ header) }
    ensures kept { region.new.taken ≡ region.old.taken }
    ensures others { (p : Piece) → Apart header p → bytes_of region.new p ≡ bytes_of region.old p }
{
    if area.spans.blocks() < 2 {
        return Err((LoadFault::Damaged(0), header));
    }
    let mut view = VsaView::new(&area.spans, disk);
    Chain::load(alloc, &mut view, kind, area.grant, header, region)
}

// Opens the log or queue of an area on the card of a key, which may use the area from then on. Gives the number of its first
// entry, and how many it has.
fn open_on_card<D: Disk>(
    app: &mut App,
    alloc: Global,
    disk: &mut D,
    kind: Kind,
    area: &LogArea,
    key: u32,
) -> Result<(u64, u32), OpenFault>
    requires inside { All (λ n. n < (D.told disk.old).blocks) area.now.spans }
    requires there { IsSome (at app.old.devices.cards key) }
    requires unused { IsUnused app.old.devices.cards key }
    requires held { is_some (lookup (nat_eq area.now.grant) app.old.areas) ≡ true }
    ensures went { GoesBy D.goes disk.old disk.new (IsOpening (D.told disk.new) kind area.now.grant
        area.now.spans key result app.old app.new) }
    ensures areas { app.new.areas ≡ app.old.areas }
{
    let Some(header) = app.store.region.take(512) else {
        return Err(OpenFault::NoBuffer);
    };
    match load(alloc, disk, kind, area, header, &mut app.store.region) {
        Err((fault, header)) => {
            app.store.region.give(header);
            Err(OpenFault::Load(fault))
        }
        Ok(chain) => {
            let list = (chain.first(), chain.count());
            app.devices.open(key, chain);
            app.bind(key, area.grant);
            Ok(list)
        }
    }
}

// Whether a descriptor or a completion is in a ring.
fn is_used(ring: &Ring) -> bool
    ensures some { result ≡ true → 0 < members ring.now }
    ensures none { result ≡ false → members ring.now ≡ 0 }
{
    ring.posted() > 0 || ring.unreaped() > 0
}

// What a word answers for it.
fn refusal_of(fault: OpenFault) -> Refusal
    ensures refusal { result ≡ refused_by fault }
{
    match fault {
        OpenFault::NoBuffer => Refusal::NoBuffer,
        OpenFault::Load(LoadFault::Memory) => Refusal::NoMemory,
        OpenFault::Load(LoadFault::DeviceFault) => Refusal::DeviceFault,
        OpenFault::Load(LoadFault::Damaged(n)) => Refusal::Damaged(n),
    }
}

/// The words `log` and `queue`: opens the log or queue under a label on the card under another. `NoMemory` comes only for want
/// of memory.
pub fn open<D: Disk>(
    app: &mut App,
    kind: Kind,
    area: &Label,
    card: &Label,
    alloc: Global,
    disk: &mut D,
) -> Said
    requires inside { AreasInside (D.told disk.old).blocks app.old.areas }
    ensures acts { GoesBy D.goes disk.old disk.new
        (λ es. Acts (D.told disk.new) app.old app.new (λ m g. logs.open_row kind m area.now card.now
        (record g { no_memory = wants_memory result })) es result []) }
    ensures areas { app.new.areas ≡ app.old.areas }
    ensures said { IsSaid result }
{
    let (area, key) = match area_and_card(app, kind, area, card) {
        Err(refusal) => return Said::Refused(refusal),
        Ok(keys) => keys,
    };
    // A card's label has its card.
    let Some(one) = app.devices.cards.at(key) else {
        return Said::Refused(Refusal::WrongKind);
    };
    if one.log.is_some() {
        return Said::Refused(Refusal::Busy);
    }
    if is_used(one.vsic.ring()) {
        return Said::Refused(Refusal::Busy);
    }
    if app.open_on(area.grant).is_some() {
        return Said::Refused(Refusal::Busy);
    }
    match open_on_card(app, alloc, disk, kind, &area, key) {
        Err(fault) => Said::Refused(refusal_of(fault)),
        Ok((first, count)) => {
            loading_laws();
            Said::Pair(first, u64::from(count))
        }
    }
}
