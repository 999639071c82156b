// Doors that watch a side of a network card, and rates that pace one.
ghost use Rattle.std.specs.Prelude.{◌≡◌, false, []};
ghost use Rattle.ark_media.specs.Calls.{Told};
ghost use Rattle.ark_script.specs.Text.{IsSaid, wants_memory};
ghost use Rattle.ark_machine.specs.Rates as rates;
ghost use Rattle.ark_held.specs.Does.{Acts, ActsAt};
ghost use Rattle.ark_own.specs.Sides.{side_of};

use crate::keys::{net_keys_to_pace, net_keys_to_watch};
use ark_base::{Label, Refusal};
use ark_filters::Direction;
use ark_held::App;
use ark_script::Said;
use ark_vic::Rate;

/// The word `watch`, of a network card.
pub fn watch_net(app: &mut App, label: &Label, door: &Option<Label>, at: Direction) -> Said
    ensures acts { (t : Told) → Acts t app.old app.new
        (λ m g. rates.watch m label.now door.now (side_of at) g) [] result [] }
    ensures areas { app.new.areas ≡ app.old.areas }
    ensures said { IsSaid result }
    ensures enough { wants_memory result ≡ false }
{
    let (card, door) = match net_keys_to_watch(app, label, door) {
        Err(refusal) => return Said::Refused(refusal),
        Ok(keys) => keys,
    };
    // A card's label has its card.
    if app.devices.nets.cards.at(card).is_none() {
        return Said::Refused(Refusal::WrongKind);
    }
    app.devices.nets.watch(card, at, door);
    Said::Ok
}

/// The word `pace` at tick `now`, of a network card.
pub fn pace_net(app: &mut App, label: &Label, rate: &Option<Label>, at: Direction, now: u64) -> Said
    ensures acts { (t : Told) → ActsAt now t app.old app.new
        (λ m g. rates.pace m label.now rate.now (side_of at) g) [] result [] }
    ensures areas { app.new.areas ≡ app.old.areas }
    ensures said { IsSaid result }
    ensures enough { wants_memory result ≡ false }
{
    let (card, given) = match net_keys_to_pace(app, label, rate) {
        Err(refusal) => return Said::Refused(refusal),
        Ok(keys) => keys,
    };
    // A card's label has its card.
    if app.devices.nets.cards.at(card).is_none() {
        return Said::Refused(Refusal::WrongKind);
    }
    let Some(key) = given else {
        app.devices.nets.pace(card, at, 0, None);
        return Said::Ok;
    };
    // A rate's label has its rate.
    let Some(allowance) = app.devices.rates.at(key) else {
        return Said::Refused(Refusal::WrongKind);
    };
    let pace = Rate::new(allowance.per_tick, allowance.burst, now);
    app.devices.nets.pace(card, at, key, Some(pace));
    Said::Ok
}
