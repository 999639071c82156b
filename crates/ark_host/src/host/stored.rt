ghost use Rattle.std.specs.Prelude.{◌≡◌, ℕ, [], take};
ghost use Rattle.ark_table.specs.Stated.{stated};
ghost use Rattle.ark_held.specs.Inside.{AreasInside};
ghost use Rattle.ark_host.specs.Given.{GivesSlot, HasGiven};
ghost use Rattle.ark_plane.specs.Shared.{TableInside};

use ark_held::{App, Area};
use ark_table::{GrantTable, Slot};

// So many slots has a device's table.
pub const SLOTS: u16 = 128;

// Gives an application the area of slot `i` under its label, if it is its own. The slots of one application have labels of their
// own and are no more than 8, so each of them finds room.
fn give_slot(app: &mut App, i: u16, slot: &Slot)
    ensures gives { GivesSlot i (stated slot.now) app.old app.new }
{
    if !app.name.same(&slot.app) || app.refuses(&slot.label).is_some() {
        return;
    }
    let area = Area {
        kind: slot.kind,
        slot: i,
        spans: slot.spans,
    };
    app.add_area(slot.label, u64::from(i), area);
}

/// Gives an application that holds nothing the areas that the table has for it, in the order of the slots.
pub fn give_stored(app: &mut App, table: &GrantTable)
    requires labels { app.old.labels ≡ [] }
    requires areas { app.old.areas ≡ [] }
    ensures name { app.new.name ≡ app.old.name }
    ensures region { app.new.store.region ≡ app.old.store.region }
    ensures given { HasGiven app.old.name (take 128 table.now) app.new }
    ensures inside { (size : ℕ) → TableInside size table.now → AreasInside size app.new.areas }
{
    for place in 0..SLOTS {
        if let Some(slot) = table.slot(place + 1) {
            give_slot(app, place + 1, slot);
        }
    }
}
