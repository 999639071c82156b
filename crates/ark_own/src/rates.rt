ghost use Rattle.std.specs.Prelude.{◌≡◌, false, []};
ghost use Rattle.ark_media.specs.Calls.{Told};
ghost use Rattle.ark_script.specs.Text.{IsSaid, wants_memory};
ghost use Rattle.ark_script.specs.declared.step.Side.TheVariants as side;
ghost use Rattle.ark_machine.specs.Rates as rates;
ghost use Rattle.ark_held.specs.Does.{Acts, ActsAt, Grants};

use crate::keys::{key_of_door, keys_to_pace, keys_to_watch};
use crate::net_sides::{pace_net, watch_net};
use ark_base::{Label, Refusal};
use ark_caps::{CapKind, Capability, LABELS};
use ark_filters::Direction;
use ark_held::{Allowance, App};
use ark_script::{Said, Side};
use ark_vic::{Door, Rate};

/// The word `door`.
pub fn door(app: &mut App, label: &Label, grant: u64) -> Said
    ensures acts { (t : Told) →
        Grants t app.old app.new (λ m g. rates.door m label.now g) [] result [] grant }
    ensures areas { app.new.areas ≡ app.old.areas }
    ensures said { IsSaid result }
    ensures enough { wants_memory result ≡ false }
{
    if app.labels.get(label).is_some() {
        return Said::Refused(Refusal::NameTaken);
    }
    if app.labels.len() >= LABELS {
        return Said::Refused(Refusal::Limit);
    }
    let key = app.devices.doors.put(Door::new());
    let cap = Capability {
        kind: CapKind::Door,
        grant,
        key,
    };
    match app.labels.add(*label, cap) {
        Ok(()) => Said::Ok,
        Err(_) => unreachable!(),
    }
}

/// The word `look`.
pub fn look(app: &mut App, label: &Label) -> Said
    ensures acts { (t : Told) →
        Acts t app.old app.new (λ m g. rates.look m label.now g) [] result [] }
    ensures areas { app.new.areas ≡ app.old.areas }
    ensures said { IsSaid result }
    ensures enough { wants_memory result ≡ false }
{
    let key = match key_of_door(app, label) {
        Err(refusal) => return Said::Refused(refusal),
        Ok(key) => key,
    };
    // A door's label has its door.
    let Some(counts) = app.devices.look(key) else {
        return Said::Refused(Refusal::WrongKind);
    };
    Said::Rings(counts.rx, counts.tx, counts.io)
}

// The word `watch`, of a storage card.
fn watch_card(app: &mut App, label: &Label, door: &Option<Label>) -> Said
    ensures acts { (t : Told) →
        Acts t app.old app.new (λ m g. rates.watch m label.now door.now side.Io g) [] result [] }
    ensures areas { app.new.areas ≡ app.old.areas }
    ensures said { IsSaid result }
    ensures enough { wants_memory result ≡ false }
{
    let (card, door) = match keys_to_watch(app, label, door) {
        Err(refusal) => return Said::Refused(refusal),
        Ok(keys) => keys,
    };
    // A card's label has its card.
    if app.devices.cards.at(card).is_none() {
        return Said::Refused(Refusal::WrongKind);
    }
    app.devices.watch(card, door);
    Said::Ok
}

/// The word `watch`.
pub fn watch(app: &mut App, label: &Label, door: &Option<Label>, side: Side) -> Said
    ensures acts { (t : Told) →
        Acts t app.old app.new (λ m g. rates.watch m label.now door.now side g) [] result [] }
    ensures areas { app.new.areas ≡ app.old.areas }
    ensures said { IsSaid result }
    ensures enough { wants_memory result ≡ false }
{
    match side {
        Side::Rx => watch_net(app, label, door, Direction::Rx),
        Side::Tx => watch_net(app, label, door, Direction::Tx),
        Side::Io => watch_card(app, label, door),
    }
}

/// The word `rate`.
pub fn rate(app: &mut App, label: &Label, per_tick: u64, burst: u64, grant: u64) -> Said
    ensures acts { (t : Told) → Grants t app.old app.new
        (λ m g. rates.rate m label.now per_tick burst g) [] result [] grant }
    ensures areas { app.new.areas ≡ app.old.areas }
    ensures said { IsSaid result }
    ensures enough { wants_memory result ≡ false }
{
    if app.labels.get(label).is_some() {
        return Said::Refused(Refusal::NameTaken);
    }
    if app.labels.len() >= LABELS {
        return Said::Refused(Refusal::Limit);
    }
    let key = app.devices.rates.put(Allowance { per_tick, burst });
    let cap = Capability {
        kind: CapKind::Rate,
        grant,
        key,
    };
    match app.labels.add(*label, cap) {
        Ok(()) => Said::Ok,
        Err(_) => unreachable!(),
    }
}

// The word `pace` at tick `now`, of a storage card.
fn pace_card(app: &mut App, label: &Label, rate: &Option<Label>, now: u64) -> Said
    ensures acts { (t : Told) → ActsAt now t app.old app.new
        (λ m g. rates.pace m label.now rate.now side.Io g) [] result [] }
    ensures areas { app.new.areas ≡ app.old.areas }
    ensures said { IsSaid result }
    ensures enough { wants_memory result ≡ false }
{
    let (card, given) = match keys_to_pace(app, label, rate) {
        Err(refusal) => return Said::Refused(refusal),
        Ok(keys) => keys,
    };
    // A card's label has its card.
    if app.devices.cards.at(card).is_none() {
        return Said::Refused(Refusal::WrongKind);
    }
    let Some(key) = given else {
        app.devices.unpace(card);
        return Said::Ok;
    };
    // A rate's label has its rate.
    let Some(allowance) = app.devices.rates.at(key) else {
        return Said::Refused(Refusal::WrongKind);
    };
    let pace = Rate::new(allowance.per_tick, allowance.burst, now);
    app.devices.pace(card, key, pace);
    Said::Ok
}

/// The word `pace` at tick `now`.
pub fn pace(app: &mut App, label: &Label, rate: &Option<Label>, side: Side, now: u64) -> Said
    ensures acts { (t : Told) → ActsAt now t app.old app.new
        (λ m g. rates.pace m label.now rate.now side g) [] result [] }
    ensures areas { app.new.areas ≡ app.old.areas }
    ensures said { IsSaid result }
    ensures enough { wants_memory result ≡ false }
{
    match side {
        Side::Rx => pace_net(app, label, rate, Direction::Rx, now),
        Side::Tx => pace_net(app, label, rate, Direction::Tx, now),
        Side::Io => pace_card(app, label, rate, now),
    }
}
