ghost use Rattle.std.specs.Prelude.{◌≡◌, true, false, [], ℕ};
ghost use Rattle.ark_caps.specs.Labels.{value_at};
ghost use Rattle.ark_media.specs.Calls.{GoesBy, Told};
ghost use Rattle.ark_script.specs.Text.{IsSaid, wants_memory};
ghost use Rattle.ark_machine.specs.Devices as devices;
ghost use Rattle.ark_held.specs.Does.{Acts, ActsAt};
ghost use Rattle.ark_held.specs.Held.{is_net};
ghost use Rattle.ark_held.specs.Inside.{AreasInside};
ghost use Rattle.ark_held.specs.Moving as spec;

use crate::keys::{key_of_card, key_of_net};
use ark_base::{Label, Refusal};
use ark_held::App;
use ark_media::Disk;
use ark_script::Said;
use ark_vsic::Moved;

// What a move is answered.
fn said_of(moved: Moved) -> Said
    ensures answer { result ≡ spec.said_of moved }
    ensures said { IsSaid result }
    ensures enough { wants_memory result ≡ false }
{
    match moved {
        Moved::Idle => Said::Idle,
        Moved::Held => Said::Held,
        Moved::Block => Said::Moved,
        Moved::Done(outcome) => Said::Done(outcome),
    }
}

// The word `dev`, of a network card: so far nothing is posted to send.
fn dev_net(app: &App, label: &Label) -> Said
    requires net { is_net (value_at app.now.labels label.now) ≡ true }
    ensures acts { (t : Told) →
        Acts t app.now app.now (λ m g. devices.dev m label.now g) [] result [] }
    ensures said { IsSaid result }
    ensures enough { wants_memory result ≡ false }
{
    let key = match key_of_net(app, label) {
        Err(refusal) => return Said::Refused(refusal),
        Ok(key) => key,
    };
    // A card's label has its card.
    if app.devices.nets.cards.at(key).is_none() {
        return Said::Refused(Refusal::WrongKind);
    }
    Said::Idle
}

/// The word `dev` at tick `now`.
pub fn dev<D: Disk>(app: &mut App, label: &Label, disk: &mut D, now: u64) -> Said
    requires inside { AreasInside (D.told disk.old).blocks app.old.areas }
    ensures acts { GoesBy D.goes disk.old disk.new
        (λ es. ActsAt now (D.told disk.new) app.old app.new (λ m g. devices.dev m label.now g)
        es result []) }
    ensures areas { app.new.areas ≡ app.old.areas }
    ensures said { IsSaid result }
    ensures enough { wants_memory result ≡ false }
{
    if app.has_net(label) {
        return dev_net(app, label);
    }
    let key = match key_of_card(app, label) {
        Err(refusal) => return Said::Refused(refusal),
        Ok(key) => key,
    };
    // A card's label has its card.
    if app.devices.cards.at(key).is_none() {
        return Said::Refused(Refusal::WrongKind);
    }
    let region = &mut app.store.region;
    let moved = app.devices.move_card(key, &app.areas, region, disk, now);
    said_of(moved)
}
