ghost use Rattle.std.specs.Prelude.{◌≡◌, ◌≤◌, ◌<◌, ◌+◌, ◌↔◌, [], ◌∷◌, ◌++◌, None, length, slice_get, Some, IsOk, IfOk, OnOk, OnErr, OnSome, filter, not, count_by};
ghost use Rattle.indexmap.specs.IndexMap.{spare};
ghost use Rattle.std.specs.Map.{keys_of, values_of};
ghost use Rattle.std.specs.List.{IsDistinct};
ghost use Rattle.std.specs.Str.{bytes_eq};
ghost use Rattle.ark_caps.specs.Labels.{value_at, others, HasLabel};
ghost use Rattle.ark_caps.specs.declared.capability.Capability.{Capability};

use crate::capability::{CapKind, Capability};
use ark_base::{Label, Memory};
use indexmap::IndexMap;
use std::alloc::Global;
use std::marker::Model;
use std::mem;

/// The most labels that a table holds.
pub const LABELS: usize = 64;

/// Why a label was not added.
#[derive(Clone, Copy, Debug, PartialEq, Eq)]
pub enum AddFault {
    /// The label is there already.
    Taken,
    /// The table is full, at 64 labels.
    Limit,
}

type Pairs = IndexMap<Label, Capability>;

/// The labels of an application and what they stand for. Contracts see the list of its pairs, in the order of adding.
#[derive(Drop)]
pub struct CapTable {
    pairs: Pairs,
    /// Empty. A removal copies the pairs that stay into it, since no removal from a map gives its place back.
    spare: Pairs,
}

impl Model for CapTable {
    ghost use Rattle.std.specs.Prelude.{◌≡◌, ◌≤◌, ◌+◌, List, ℕ, [], length};
    ghost use Rattle.ark_caps.specs.declared.capability.Capability.{Capability};
    ghost use Rattle.indexmap.specs.IndexMap as map;

    ghost Value = { List (List ℕ × Capability) };

    ghost view = { λ t. t.pairs.entries };

    ghost invariant = { λ t. (length t.pairs.entries ≤ 64)
        × (64 ≤ length t.pairs.entries + map.spare t.pairs) × (t.spare.entries ≡ [])
        × (64 ≤ map.spare t.spare) };
}

/// Puts each pair of `from` but the one under `label` into `to`, in order.
fn copy_without(from: &Pairs, label: &Label, to: &mut Pairs)
    requires within { length from.now.entries ≤ 64 }
    requires empty { to.old.entries ≡ [] }
    requires room { 64 ≤ spare to.old }
    ensures entries { to.new.entries ≡ filter (λ e. not (bytes_eq label.now e.0)) from.now.entries }
    ensures within { length to.new.entries ≤ 64 }
    ensures room { 64 ≤ length to.new.entries + spare to.new }
    ensures one { (cap : Capability) → value_at from.now.entries label.now ≡ Some cap
        → length to.new.entries + 1 ≡ length from.now.entries }
{
    for i in 0..from.len() {
        if let Some((name, cap)) = from.get_index(i) {
            if label != name {
                match to.insert(*name, *cap) {
                    Ok(_) => {}
                    Err(_) => unreachable!(),
                }
            }
        }
    }
}

impl CapTable {
    /// An empty table, with room for 64 labels. `Memory` comes only for want of memory.
    pub fn new(alloc: Global) -> Result<CapTable, Memory>
        ensures empty { IfOk result (λ t. t ≡ []) }
    {
        let Ok(pairs) = IndexMap::with_capacity(alloc, LABELS) else {
            return Err(Memory);
        };
        let Ok(spare) = IndexMap::with_capacity(alloc, LABELS) else {
            return Err(Memory);
        };
        Ok(CapTable { pairs, spare })
    }

    /// Adds the label at the end. `Taken` comes exactly where the label is there, else `Limit` exactly where 64 labels
    /// are there; the table stays as it was then. It takes no memory.
    pub fn add(&mut self, label: Label, cap: Capability) -> Result<(), AddFault>
        ensures ok { OnOk result (self.new ≡ self.old ++ (label, cap) ∷ []) }
        ensures err { OnErr result (self.new ≡ self.old) }
        ensures fits { value_at self.old label ≡ None → length self.old < 64 → IsOk result }
        ensures taken { (result ≡ Err AddFault.Taken) ↔ HasLabel self.old label }
        ensures limit { (result ≡ Err AddFault.Limit)
            ↔ ((¬ HasLabel self.old label) × (length self.old ≡ 64)) }
    {
        if self.pairs.contains_key(&label) {
            return Err(AddFault::Taken);
        }
        if self.pairs.len() >= LABELS {
            return Err(AddFault::Limit);
        }
        match self.pairs.insert(label, cap) {
            Ok(_) => Ok(()),
            Err(_) => unreachable!(),
        }
    }

    /// What the label stands for; `None` where it is not there.
    pub fn get(&self, label: &Label) -> Option<Capability>
        ensures value { result ≡ value_at self.now label.now }
    {
        self.pairs.get(label).copied()
    }

    /// Takes the label out, and those behind it move up; `None` where it is not there. It takes no memory.
    pub fn remove(&mut self, label: &Label) -> Option<Capability>
        ensures value { result ≡ value_at self.old label.now }
        ensures rest { self.new ≡ others label.now self.old }
        ensures one { OnSome result (length self.new + 1 ≡ length self.old) }
    {
        let cap = self.pairs.get(label).copied()?;
        copy_without(&self.pairs, label, &mut self.spare);
        self.pairs.clear();
        mem::swap(&mut self.pairs, &mut self.spare);
        Some(cap)
    }

    /// The number of labels.
    pub fn len(&self) -> usize
        ensures len { result ≡ length self.now }
        ensures within { length self.now ≤ 64 }
        ensures distinct { IsDistinct bytes_eq (keys_of self.now) }
    {
        self.pairs.len()
    }

    /// The pair at place `i` in the order of adding; `None` where `i` is at least `len()`.
    pub fn at(&self, i: usize) -> Option<(Label, Capability)>
        ensures pair { result ≡ slice_get self.now i }
    {
        let (label, cap) = self.pairs.get_index(i)?;
        Some((*label, *cap))
    }

    /// The number of labels of this kind.
    pub fn count(&self, kind: CapKind) -> usize
        ensures count { result ≡ count_by (λ cap. ⟦<CapKind as PartialEq>⟧.eq cap.kind kind)
            (values_of self.now) }
    {
        self.pairs.values().filter(|cap| cap.kind == kind).count()
    }
}

#[cfg(test)]
mod tests;
