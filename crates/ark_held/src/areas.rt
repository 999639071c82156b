ghost use Rattle.std.specs.Prelude.{◌≡◌, ◌<◌, ◌≤◌, [], None, length, nat_eq, option_copied, IfOk};
ghost use Rattle.std.specs.List.{position};
ghost use Rattle.std.specs.Map.{lookup};
ghost use Rattle.ark_held.specs.Words.{with_area, with_spans, without_area};

use ark_base::{Kind, Memory};
use ark_extents::Spans;
use std::alloc::Global;
use std::marker::Model;

/// The most areas that an application holds.
pub const AREAS: usize = 8;

/// An area of blocks: what it is for, the slot of the device's table that names it, and its blocks.
#[derive(Clone, Copy, Debug)]
pub struct Area {
    pub kind: Kind,
    pub slot: u16,
    pub spans: Spans,
}

/// The areas of an application by the numbers of their grants, at most 8. Contracts see the list of pairs of a number
/// and the area, in the order of adding.
///
/// They are looked through from the front: there are so few that a look-up by hash would cost more.
#[derive(Drop)]
pub struct Areas {
    areas: Vec<(u64, Area)>,
}

impl Model for Areas {
    ghost use Rattle.std.specs.Prelude.{◌≡◌, ◌≤◌, true, List, ℕ, length, vec_capacity};
    ghost use Rattle.ark_held.specs.Words.{are_once};
    ghost use Rattle.ark_held.specs.declared.areas.Area.{Area};

    ghost Value = { List (ℕ × Area) };

    ghost view = { λ a. a.areas.items };

    ghost invariant = { λ a. (length a.areas.items ≤ 8) × (8 ≤ vec_capacity a.areas)
        × (are_once a.areas.items ≡ true) };
}

// The first area of this grant.
fn find(areas: &[(u64, Area)], grant: u64) -> Option<&Area>
    ensures found { option_copied result ≡ lookup (nat_eq grant) areas.now }
{
    for area in areas {
        if area.0 == grant {
            return Some(&area.1);
        }
    }
    None
}

// The place of the first area of this grant.
fn place_of(areas: &[(u64, Area)], grant: u64) -> Option<usize>
    ensures place { result ≡ position (λ a. nat_eq a.0 grant) areas.now }
{
    areas.iter().position(|area| area.0 == grant)
}

impl Areas {
    /// No areas, with room for 8. `Memory` comes only for want of memory.
    pub fn new(alloc: Global) -> Result<Areas, Memory>
        ensures empty { IfOk result (λ a. a ≡ []) }
    {
        match Vec::with_capacity(alloc, AREAS) {
            Ok(areas) => Ok(Areas { areas }),
            Err(_) => Err(Memory),
        }
    }

    /// The number of areas.
    pub fn len(&self) -> usize
        ensures len { result ≡ length self.now }
        ensures within { length self.now ≤ 8 }
    {
        self.areas.len()
    }

    /// The area of this grant; `None` where there is none.
    pub fn get(&self, grant: u64) -> Option<&Area>
        ensures area { option_copied result ≡ lookup (nat_eq grant) self.now }
    {
        find(&self.areas, grant)
    }

    /// Adds an area at the end, unless there is one of this grant. It takes no memory.
    pub fn add(&mut self, grant: u64, area: Area)
        requires room { length self.old < 8 }
        ensures added { self.new ≡ with_area self.old grant area }
    {
        if self.get(grant).is_some() {
            return;
        }
        match self.areas.push((grant, area)) {
            Ok(()) => {}
            Err(_) => unreachable!(),
        }
    }

    /// Takes the area of this grant out, if there is one; those behind it move up.
    pub fn remove(&mut self, grant: u64)
        ensures rest { self.new ≡ without_area self.old grant }
        ensures gone { lookup (nat_eq grant) self.new ≡ None }
    {
        if let Some(place) = place_of(&self.areas, grant) {
            self.areas.remove(place);
        }
    }

    /// Puts these blocks in place of those of the first area of this grant, if there is one.
    pub fn set_spans(&mut self, grant: u64, spans: Spans)
        ensures set { self.new ≡ with_spans self.old grant spans }
    {
        if let Some(place) = place_of(&self.areas, grant) {
            self.areas[place].1.spans = spans;
        }
    }
}
