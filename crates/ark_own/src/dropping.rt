ghost use Rattle.std.specs.Prelude.{◌≡◌, Some, true, false, []};
ghost use Rattle.ark_caps.specs.Labels.{value_at};
ghost use Rattle.ark_caps.specs.declared.capability.CapKind.TheVariants as cap_kind;
ghost use Rattle.ark_media.specs.Calls.{Told};
ghost use Rattle.ark_script.specs.Text.{IsSaid, wants_memory};
ghost use Rattle.ark_machine.specs.Control as control;
ghost use Rattle.ark_held.specs.Does.{Acts, GivesUpNet};
ghost use Rattle.ark_held.specs.Held.{is_net, is_shared};

use crate::keys::cap_of;
use ark_base::{Label, Refusal};
use ark_caps::{CapKind, Capability};
use ark_held::App;
use ark_script::Said;

// The word `drop`, of a storage card.
fn drop_card(app: &mut App, label: &Label, cap: Capability) -> Said
    requires labelled { value_at app.old.labels label.now ≡ Some cap }
    requires card { cap.kind ≡ cap_kind.Vsic }
    ensures acts { (t : Told) →
        Acts t app.old app.new (λ m g. control.drop m label.now g) [] result [] }
    ensures areas { app.new.areas ≡ app.old.areas }
    ensures said { IsSaid result }
    ensures enough { wants_memory result ≡ false }
{
    // A card's label has its card.
    let Some(card) = app.devices.cards.at(cap.key) else {
        return Said::Refused(Refusal::WrongKind);
    };
    if card.log.is_some() {
        return Said::Refused(Refusal::Busy);
    }
    if card.vsic.ring().posted() > 0 {
        return Said::Refused(Refusal::Busy);
    }
    if card.vsic.ring().unreaped() > 0 {
        return Said::Refused(Refusal::Busy);
    }
    app.remove_card(label, cap.key, cap.grant);
    Said::Ok
}

/// The word `drop`, of a network card.
pub fn drop_net(app: &mut App, label: &Label) -> Said
    requires net { is_net (value_at app.old.labels label.now) ≡ true }
    ensures acts { GivesUpNet app.old app.new (λ m g. control.drop m label.now g) result }
    ensures areas { app.new.areas ≡ app.old.areas }
    ensures said { IsSaid result }
    ensures enough { wants_memory result ≡ false }
{
    let cap = match cap_of(app, label) {
        Err(refusal) => return Said::Refused(refusal),
        Ok(cap) => cap,
    };
    // A card's label has its card.
    let Some(card) = app.devices.nets.cards.at(cap.key) else {
        return Said::Refused(Refusal::WrongKind);
    };
    if card.vnic.rx().posted() > 0 {
        return Said::Refused(Refusal::Busy);
    }
    if card.vnic.rx().unreaped() > 0 {
        return Said::Refused(Refusal::Busy);
    }
    // So far nothing is posted to send.
    app.remove_net(label, cap.key, cap.grant);
    Said::Ok
}

// The word `drop`, of a door.
fn drop_door(app: &mut App, label: &Label, cap: Capability) -> Said
    requires labelled { value_at app.old.labels label.now ≡ Some cap }
    requires door { cap.kind ≡ cap_kind.Door }
    ensures acts { (t : Told) →
        Acts t app.old app.new (λ m g. control.drop m label.now g) [] result [] }
    ensures areas { app.new.areas ≡ app.old.areas }
    ensures said { IsSaid result }
    ensures enough { wants_memory result ≡ false }
{
    // A door's label has its door.
    if app.devices.doors.at(cap.key).is_none() {
        return Said::Refused(Refusal::WrongKind);
    }
    if app.watches(cap.key) {
        return Said::Refused(Refusal::Busy);
    }
    app.remove_door(label, cap.key, cap.grant);
    Said::Ok
}

// The word `drop`, of a rate.
fn drop_rate(app: &mut App, label: &Label, cap: Capability) -> Said
    requires labelled { value_at app.old.labels label.now ≡ Some cap }
    requires rate { cap.kind ≡ cap_kind.Rate }
    ensures acts { (t : Told) →
        Acts t app.old app.new (λ m g. control.drop m label.now g) [] result [] }
    ensures areas { app.new.areas ≡ app.old.areas }
    ensures said { IsSaid result }
    ensures enough { wants_memory result ≡ false }
{
    // A rate's label has its rate.
    if app.devices.rates.at(cap.key).is_none() {
        return Said::Refused(Refusal::WrongKind);
    }
    if app.paces(cap.key) {
        return Said::Refused(Refusal::Busy);
    }
    app.remove_rate(label, cap.key, cap.grant);
    Said::Ok
}

/// The word `drop`, of what the plane does not know of, network cards excepted: a storage card, a door or a rate
/// goes, unless it is in use, and a buffer does not.
pub fn drop_device(app: &mut App, label: &Label) -> Said
    requires other { is_shared (value_at app.old.labels label.now) ≡ false }
    requires no_net { is_net (value_at app.old.labels label.now) ≡ false }
    ensures acts { (t : Told) →
        Acts t app.old app.new (λ m g. control.drop m label.now g) [] result [] }
    ensures areas { app.new.areas ≡ app.old.areas }
    ensures said { IsSaid result }
    ensures enough { wants_memory result ≡ false }
{
    let cap = match cap_of(app, label) {
        Err(refusal) => return Said::Refused(refusal),
        Ok(cap) => cap,
    };
    match cap.kind {
        CapKind::Vsic => drop_card(app, label, cap),
        CapKind::Door => drop_door(app, label, cap),
        CapKind::Rate => drop_rate(app, label, cap),
        _ => Said::Refused(Refusal::WrongKind),
    }
}
