ghost use Rattle.std.specs.Prelude.{◌≡◌, ◌≤◌, ◌<◌, false, [], length};
ghost use Rattle.ark_media.specs.Calls.{Told};
ghost use Rattle.ark_script.specs.Text.{IsSaid, wants_memory};
ghost use Rattle.ark_machine.specs.Cards as cards;
ghost use Rattle.ark_held.specs.Does.{Acts, Grants};
ghost use Rattle.ark_held.specs.Held.{card_labels};

use crate::keys::key_of_card;
use ark_base::{Label, Refusal};
use ark_caps::{CapKind, CapTable, Capability, LABELS};
use ark_held::App;
use ark_script::Said;
use ark_vic::{Descriptor, Job};
use ark_vsic::Vsic;
use std::alloc::Global;

/// The most cards of an application, of both kinds together.
pub const CARDS: usize = 8;

/// How many cards there are under these labels.
pub fn count_cards(labels: &CapTable) -> usize
    requires { length labels.now ≤ 64 }
    ensures { result ≡ length (card_labels labels.now) }
{
    labels.count(CapKind::Vsic) + labels.count(CapKind::Vnic)
}

/// The word `vsic`. `NoMemory` comes only for want of memory.
pub fn vsic(app: &mut App, label: &Label, size: u64, grant: u64, alloc: Global) -> Said
    requires some { 0 < size }
    requires small { size ≤ 256 }
    ensures acts { (t : Told) → Grants t app.old app.new
        (λ m g. cards.vsic m label.now size (record g { no_memory = wants_memory result }))
        [] result [] grant }
    ensures areas { app.new.areas ≡ app.old.areas }
    ensures said { IsSaid result }
{
    if app.labels.get(label).is_some() {
        return Said::Refused(Refusal::NameTaken);
    }
    if app.labels.len() >= LABELS {
        return Said::Refused(Refusal::Limit);
    }
    if count_cards(&app.labels) >= CARDS {
        return Said::Refused(Refusal::Limit);
    }
    let Ok(vsic) = Vsic::new(alloc, size as u32) else {
        return Said::Refused(Refusal::NoMemory);
    };
    let key = app.devices.add_card(vsic);
    let cap = Capability {
        kind: CapKind::Vsic,
        grant,
        key,
    };
    match app.labels.add(*label, cap) {
        Ok(()) => Said::Ok,
        Err(_) => unreachable!(),
    }
}

/// The word `flush`.
pub fn flush(app: &mut App, label: &Label) -> Said
    ensures acts { (t : Told) →
        Acts t app.old app.new (λ m g. cards.flush_card m label.now g) [] result [] }
    ensures areas { app.new.areas ≡ app.old.areas }
    ensures said { IsSaid result }
    ensures enough { wants_memory result ≡ false }
{
    let key = match key_of_card(app, label) {
        Err(refusal) => return Said::Refused(refusal),
        Ok(key) => key,
    };
    // A card's label has its card.
    let Some(card) = app.devices.cards.at(key) else {
        return Said::Refused(Refusal::WrongKind);
    };
    if card.log.is_some() {
        return Said::Refused(Refusal::Busy);
    }
    if card.vsic.ring().is_full() {
        return Said::Refused(Refusal::RingFull);
    }
    let sync = Descriptor {
        job: Job::Sync,
        grant: 0,
        first: 0,
        count: 0,
        wrap: 0,
        from: 0,
        len: 0,
        tag: 0,
        buf: None,
    };
    app.devices.post(key, sync);
    Said::Ok
}
