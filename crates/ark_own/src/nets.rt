ghost use Rattle.std.specs.Prelude.{◌≡◌, ◌≤◌, not, false, []};
ghost use Rattle.ark_filters.specs.declared.filter.Direction.TheVariants as direction;
ghost use Rattle.ark_media.specs.Calls.{Told};
ghost use Rattle.ark_script.specs.Text.{IsSaid, wants_memory};
ghost use Rattle.ark_machine.specs.Network as network;
ghost use Rattle.ark_held.specs.Does.{Acts, Grants};
ghost use Rattle.ark_own.specs.Transfers as spec;

use crate::cards::{CARDS, count_cards};
use crate::keys::{key_of_net, keys_to_receive, label_of_buffer};
use ark_base::{Label, Refusal};
use ark_caps::{CapKind, Capability, LABELS};
use ark_filters::Direction;
use ark_held::App;
use ark_region::Buf;
use ark_script::Said;
use ark_vic::{Descriptor, Job};
use ark_vnic::Vnic;
use std::alloc::Global;

/// The word `vnic`, where this end has its addresses or not. `NoMemory` comes only for want of memory.
pub fn vnic(
    app: &mut App,
    label: &Label,
    rx: u64,
    tx: u64,
    has_nic: bool,
    grant: u64,
    alloc: Global,
) -> Said
    requires rx { rx ≤ 256 }
    requires tx { tx ≤ 256 }
    ensures acts { (t : Told) → Grants t app.old app.new (λ m g. network.vnic m label.now rx tx
        (record g { no_nic = not has_nic; no_memory = wants_memory result })) [] result [] grant }
    ensures areas { app.new.areas ≡ app.old.areas }
    ensures said { IsSaid result }
{
    if app.labels.get(label).is_some() {
        return Said::Refused(Refusal::NameTaken);
    }
    if app.labels.len() >= LABELS {
        return Said::Refused(Refusal::Limit);
    }
    if count_cards(&app.labels) >= CARDS {
        return Said::Refused(Refusal::Limit);
    }
    if !has_nic {
        return Said::Refused(Refusal::NoNic);
    }
    let Ok(vnic) = Vnic::new(alloc, grant, rx as u32, tx as u32) else {
        return Said::Refused(Refusal::NoMemory);
    };
    let key = app.devices.nets.add(vnic);
    let cap = Capability {
        kind: CapKind::Vnic,
        grant,
        key,
    };
    match app.labels.add(*label, cap) {
        Ok(()) => Said::Ok,
        Err(_) => unreachable!(),
    }
}

// A descriptor that receives into the buffer of a key, to which it takes the right.
fn receiving(buffer: u32, right: Option<Buf>) -> Descriptor
    ensures { result ≡ spec.receiving buffer right }
{
    Descriptor {
        job: Job::Receive,
        grant: 0,
        first: 0,
        count: 0,
        wrap: 0,
        from: 0,
        len: 0,
        tag: buffer,
        buf: right,
    }
}

/// The word `post`.
pub fn post(app: &mut App, label: &Label, buffer: &Label) -> Said
    ensures acts { (t : Told) → Acts t app.old app.new
        (λ m g. network.post_rx m label.now buffer.now g) [] result [] }
    ensures areas { app.new.areas ≡ app.old.areas }
    ensures said { IsSaid result }
    ensures enough { wants_memory result ≡ false }
{
    let (card, buffer) = match keys_to_receive(app, label, buffer) {
        Err(refusal) => return Said::Refused(refusal),
        Ok(keys) => keys,
    };
    // A buffer's label has its buffer, and a card's its card.
    let Some(lent) = app.store.buffers.at(buffer) else {
        return Said::Refused(Refusal::WrongKind);
    };
    let is_lent = lent.buf.is_none();
    let Some(one) = app.devices.nets.cards.at(card) else {
        return Said::Refused(Refusal::WrongKind);
    };
    if is_lent {
        return Said::Refused(Refusal::Lent);
    }
    if one.vnic.rx().is_full() {
        return Said::Refused(Refusal::RingFull);
    }
    let right = app.store.lend(buffer);
    app.devices.nets.post(card, receiving(buffer, right));
    Said::Ok
}

// The word `take`, of the receive ring.
fn take_received(app: &mut App, label: &Label) -> Said
    ensures acts { (t : Told) → Acts t app.old app.new
        (λ m g. network.take_frame m label.now direction.Rx g) [] result [] }
    ensures areas { app.new.areas ≡ app.old.areas }
    ensures said { IsSaid result }
    ensures enough { wants_memory result ≡ false }
{
    let key = match key_of_net(app, label) {
        Err(refusal) => return Said::Refused(refusal),
        Ok(key) => key,
    };
    // A card's label has its card.
    let Some(card) = app.devices.nets.cards.at(key) else {
        return Said::Refused(Refusal::WrongKind);
    };
    if card.vnic.rx().unreaped() == 0 {
        return Said::Nothing;
    }
    let done = app.devices.nets.take(key);
    // A received frame stands in a buffer, which has a label.
    let buf = done.buf;
    let Some(right) = buf else {
        return Said::Nothing;
    };
    let Some(buffer) = label_of_buffer(&app.labels, done.tag) else {
        return Said::Nothing;
    };
    app.store.restore(done.tag, right);
    Said::TakenRx(buffer, done.len)
}

// The word `take`, of the transmit ring: so far nothing is posted there.
fn take_sent(app: &App, label: &Label) -> Said
    ensures acts { (t : Told) → Acts t app.now app.now
        (λ m g. network.take_frame m label.now direction.Tx g) [] result [] }
    ensures said { IsSaid result }
    ensures enough { wants_memory result ≡ false }
{
    let key = match key_of_net(app, label) {
        Err(refusal) => return Said::Refused(refusal),
        Ok(key) => key,
    };
    // A card's label has its card.
    if app.devices.nets.cards.at(key).is_none() {
        return Said::Refused(Refusal::WrongKind);
    }
    Said::Nothing
}

/// The word `take`.
pub fn take(app: &mut App, label: &Label, ring: Direction) -> Said
    ensures acts { (t : Told) → Acts t app.old app.new
        (λ m g. network.take_frame m label.now ring g) [] result [] }
    ensures areas { app.new.areas ≡ app.old.areas }
    ensures said { IsSaid result }
    ensures enough { wants_memory result ≡ false }
{
    match ring {
        Direction::Rx => take_received(app, label),
        Direction::Tx => take_sent(app, label),
    }
}
