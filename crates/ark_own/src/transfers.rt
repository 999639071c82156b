ghost use Rattle.std.specs.Prelude.{◌≡◌, ◌≤◌, ◌<◌, ◌^◌, true, false, []};
ghost use Rattle.ark_media.specs.Calls.{Told};
ghost use Rattle.ark_script.specs.Text.{IsSaid, wants_memory};
ghost use Rattle.ark_machine.specs.Cards as cards;
ghost use Rattle.ark_held.specs.Does.{Acts};
ghost use Rattle.ark_own.specs.Transfers as spec;

use crate::keys::{key_of_card, keys_to_transfer, label_of_buffer};
use ark_base::{Label, Outcome, Refusal};
use ark_held::App;
use ark_region::Buf;
use ark_script::Said;
use ark_vic::{Descriptor, Job};

const BLOCK: u64 = 512;

// A put writes the area, and a get reads it.
fn job_of(put: bool) -> Job
    ensures { result ≡ spec.job_of put }
{
    if put { Job::Write } else { Job::Read }
}

// Neighbouring blocks of an area, which has this grant.
#[derive(Clone, Copy, Debug)]
struct Blocks {
    area: u64,
    first: u32,
    count: u32,
}

// A transfer of blocks from or to the front of the buffer of a key, to which it takes the right.
fn transfer(job: Job, blocks: Blocks, buffer: u32, right: Option<Buf>) -> Descriptor
    ensures { result ≡ spec.transfer job blocks buffer right }
{
    Descriptor {
        job,
        grant: blocks.area,
        first: blocks.first,
        count: blocks.count,
        wrap: 0,
        from: 0,
        len: 0,
        tag: buffer,
        buf: right,
    }
}

// Posts a transfer of `count` blocks from block `off` of an area on, with a buffer.
fn post(
    app: &mut App,
    put: bool,
    card: &Label,
    area: &Label,
    off: u64,
    count: u64,
    buffer: &Label,
) -> Said
    requires far { off < 2 ^ 32 }
    requires some { 1 ≤ count }
    requires few { count ≤ 128 }
    ensures acts { (t : Told) → Acts t app.old app.new
        (λ m g. cards.post put m card.now area.now off count buffer.now g) [] result [] }
    ensures areas { app.new.areas ≡ app.old.areas }
    ensures said { IsSaid result }
    ensures enough { wants_memory result ≡ false }
{
    let ((card, area), buffer) = match keys_to_transfer(app, card, area, buffer) {
        Err(refusal) => return Said::Refused(refusal),
        Ok(keys) => keys,
    };
    // A buffer's label has its buffer, and a card's its card.
    let Some(lent) = app.store.buffers.at(buffer) else {
        return Said::Refused(Refusal::WrongKind);
    };
    let len = lent.len;
    let is_lent = lent.buf.is_none();
    let Some(one) = app.devices.cards.at(card) else {
        return Said::Refused(Refusal::WrongKind);
    };
    if off + count > u64::from(area.blocks) {
        return Said::Refused(Refusal::OutOfRange);
    }
    if BLOCK * count > u64::from(len) {
        return Said::Refused(Refusal::OutOfRange);
    }
    if one.log.is_some() {
        return Said::Refused(Refusal::Busy);
    }
    if is_lent {
        return Said::Refused(Refusal::Lent);
    }
    if one.vsic.ring().is_full() {
        return Said::Refused(Refusal::RingFull);
    }
    let blocks = Blocks {
        area: area.grant,
        first: off as u32,
        count: count as u32,
    };
    let right = app.store.lend(buffer);
    app.devices
        .post(card, transfer(job_of(put), blocks, buffer, right));
    Said::Ok
}

/// The word `get`.
pub fn get(app: &mut App, card: &Label, area: &Label, off: u64, count: u64, buffer: &Label) -> Said
    requires far { off < 2 ^ 32 }
    requires some { 1 ≤ count }
    requires few { count ≤ 128 }
    ensures acts { (t : Told) → Acts t app.old app.new
        (λ m g. cards.post false m card.now area.now off count buffer.now g) [] result [] }
    ensures areas { app.new.areas ≡ app.old.areas }
    ensures said { IsSaid result }
    ensures enough { wants_memory result ≡ false }
{
    post(app, false, card, area, off, count, buffer)
}

/// The word `put`.
pub fn put(app: &mut App, card: &Label, area: &Label, off: u64, count: u64, buffer: &Label) -> Said
    requires far { off < 2 ^ 32 }
    requires some { 1 ≤ count }
    requires few { count ≤ 128 }
    ensures acts { (t : Told) → Acts t app.old app.new
        (λ m g. cards.post true m card.now area.now off count buffer.now g) [] result [] }
    ensures areas { app.new.areas ≡ app.old.areas }
    ensures said { IsSaid result }
    ensures enough { wants_memory result ≡ false }
{
    post(app, true, card, area, off, count, buffer)
}

// What is said of a transfer that has ended.
fn said_of(job: Job, buffer: Label, outcome: Outcome) -> Said
    ensures answer { result ≡ spec.said_of job buffer outcome }
    ensures said { IsSaid result }
    ensures enough { wants_memory result ≡ false }
{
    match job {
        Job::Write => Said::Put(buffer, outcome),
        _ => Said::Got(buffer, outcome),
    }
}

/// The word `reap`.
pub fn reap(app: &mut App, label: &Label) -> Said
    ensures acts { (t : Told) →
        Acts t app.old app.new (λ m g. cards.reap m label.now g) [] result [] }
    ensures areas { app.new.areas ≡ app.old.areas }
    ensures said { IsSaid result }
    ensures enough { wants_memory result ≡ false }
{
    let key = match key_of_card(app, label) {
        Err(refusal) => return Said::Refused(refusal),
        Ok(key) => key,
    };
    // A card's label has its card.
    let Some(card) = app.devices.cards.at(key) else {
        return Said::Refused(Refusal::WrongKind);
    };
    if card.log.is_some() {
        return Said::Refused(Refusal::Busy);
    }
    let Some(done) = app.devices.reap(key) else {
        return Said::Nothing;
    };
    let buf = done.buf;
    let Some(right) = buf else {
        return Said::Flushed(done.outcome);
    };
    // A transfer's tag is the key of its buffer, which has a label.
    let Some(buffer) = label_of_buffer(&app.labels, done.tag) else {
        return Said::Nothing;
    };
    app.store.restore(done.tag, right);
    said_of(done.job, buffer, done.outcome)
}
