ghost use Rattle.std.specs.Prelude.{◌≡◌, count_by};
ghost use Rattle.std.specs.List.{list_all};
ghost use Rattle.ark_extents.specs.Blocks.{runs_of};
ghost use Rattle.ark_table.specs.Slots as spec;
ghost use Rattle.ark_table.specs.Table.{held_in};
ghost use Rattle.ark_table.specs.Table as table;
ghost use Rattle.ark_table.specs.Stated.{stated, stated_if, areas};
ghost use Rattle.ark_table.specs.Loading as beside;

use crate::slot::Slot;
use ark_base::Name;
use ark_extents::{Spans, is_apart_from_all};

// So many slots may one application have.
const AREAS: usize = 8;

fn share_no_block(spans: &Spans, others: &Spans) -> bool
    ensures { result ≡ spec.share_no_block (runs_of spans.now) (runs_of others.now) }
{
    let others = others.as_slice();
    spans
        .as_slice()
        .iter()
        .all(|run| is_apart_from_all(*run, others))
}

fn is_same(slot: &Slot, other: &Slot) -> bool
    ensures { result ≡ spec.is_same (stated slot.now) (stated other.now) }
{
    slot.app.same(&other.app) && slot.label.same(&other.label)
}

// Whether a slot may stand beside another, if that is in use.
fn goes_beside(slot: &Slot, other: &Option<Slot>) -> bool
    ensures { result ≡ beside.goes_beside (stated slot.now) (stated_if other.now) }
{
    match other {
        None => true,
        Some(other) => share_no_block(&slot.spans, &other.spans) && !is_same(slot, other),
    }
}

// Whether the slot is in use by this application.
fn is_of(app: &Name, slot: &Option<Slot>) -> bool
    ensures { result ≡ table.is_of app.now (stated_if slot.now) }
{
    match slot {
        None => false,
        Some(slot) => app.same(&slot.app),
    }
}

fn goes_beside_all(slot: &Slot, slots: &[Option<Slot>]) -> bool
    ensures { result ≡ list_all (λ o. beside.goes_beside (stated slot.now) (stated_if o))
        slots.now }
{
    slots.iter().all(|other| goes_beside(slot, other))
}

fn count_of(app: &Name, slots: &[Option<Slot>]) -> usize
    ensures { result ≡ count_by (λ o. table.is_of app.now (stated_if o)) slots.now }
{
    slots.iter().filter(|slot| is_of(app, slot)).count()
}

/// Whether a slot keeps the rules against these.
pub fn goes_into(slot: &Slot, slots: &[Option<Slot>]) -> bool
    ensures { result ≡ spec.goes_with (held_in 1 (areas slots.now)) (stated slot.now) }
{
    goes_beside_all(slot, slots) && count_of(&slot.app, slots) < AREAS
}
