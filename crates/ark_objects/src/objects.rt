ghost use Rattle.std.specs.Prelude.{◌≡◌, ◌<◌, ◌≤◌, ◌+◌, ℕ, None, Some, IfOk, IfErr, IfNone, OnSome, IsSome, IsOk, ◌↔◌, IsTrue};
ghost use Rattle.std.specs.Option.{option_copied};
ghost use Rattle.std.specs.Borrow.{sem};
ghost use Rattle.ark_objects.specs.Held.{held, at, Changes};

use ark_base::Memory;
use slab::Slab;
use std::alloc::Global;
use std::marker::Model;

/// How many objects there may be: as many as an application may have labels.
pub const ROOM: usize = 64;

/// Objects of one kind, at most 64, each under a key of its own. All of their room is made by `new`. A key that was given
/// back may be given again.
#[derive(Drop)]
pub struct Objects<T> {
    slots: Slab<T>,
}

impl<T> Model for Objects<T> {
    ghost use Rattle.std.specs.Prelude.{◌≤◌, List, Option};
    ghost use Rattle.slab.specs.Slab.{slab_len};

    ghost Value = { List (Option T) };

    ghost view = { λ b. b.slots.slots };

    ghost invariant = { λ b. (64 ≤ b.slots.capacity) × (b.slots.capacity ≤ 4096)
        × (slab_len b.slots ≤ 64) };
}

impl<T> Objects<T> {
    ghost use Rattle.ark_objects.specs.Lending.{LendsObject};

    /// No objects, with room for 64. `Memory` comes for want of memory, and where the slab comes with more than 4,096 slots,
    /// whose keys might not fit.
    pub fn new(alloc: Global) -> Result<Objects<T>, Memory>
    where
        T: Drop,
        ensures vacant { IfOk result (λ r. (key : ℕ) → at r key ≡ None) }
        ensures len { IfOk result (λ r. held r ≡ 0) }
    {
        let Ok(slots) = Slab::with_capacity(alloc, ROOM) else {
            return Err(Memory);
        };
        if slots.capacity() > 4096 {
            return Err(Memory);
        }
        Ok(Objects { slots })
    }

    /// How many objects there are.
    pub fn len(&self) -> usize
        ensures { result ≡ held self.now }
    {
        self.slots.len()
    }

    /// Whether there is room for no more.
    pub fn is_full(&self) -> bool
        ensures { IsTrue result ↔ (64 ≤ held self.now) }
    {
        self.slots.len() >= ROOM
    }

    /// The keys end here: no object has this one or a greater one.
    pub fn end(&self) -> u32
        ensures few { result ≤ 4096 }
        ensures past { (key : ℕ) → result ≤ key → at self.now key ≡ None }
    {
        self.slots.capacity() as u32
    }

    /// Keeps an object, and tells its key.
    pub fn put(&mut self, object: T) -> u32
        requires { held self.old < 64 }
        ensures vacant { at self.old result ≡ None }
        ensures changes { Changes self.old self.new result (Some object) }
        ensures len { held self.new ≡ held self.old + 1 }
    {
        self.slots.insert_reserved(object) as u32
    }

    /// Keeps an object, and tells its key. It hands it back, and the others stay as they are, exactly where there are 64.
    pub fn insert(&mut self, object: T) -> Result<u32, T>
        ensures fits { IsOk result ↔ (held self.old < 64) }
        ensures vacant { IfOk result (λ key. at self.old key ≡ None) }
        ensures changes { IfOk result (λ key. Changes self.old self.new key (Some object)) }
        ensures len { IfOk result (λ key. held self.new ≡ held self.old + 1) }
        ensures back { IfErr result (λ back. back ≡ object) }
        ensures same { IfErr result (λ back. self.new ≡ self.old) }
    {
        if self.is_full() {
            return Err(object);
        }
        Ok(self.put(object))
    }

    /// The object at a key; `None` exactly where there is none.
    pub fn at(&self, key: u32) -> Option<&T>
        ensures { option_copied result ≡ at self.now key }
    {
        self.slots.get(key as usize)
    }

    /// The object at an occupied key, to be changed. All others stay as they are.
    pub fn at_mut(&mut self, key: u32) -> &mut T
        requires { IsSome (at self.old key) }
        ensures* writes_back { sem 𝓛 (LendsObject T.row self.entry key result) }
        ensures value { Some result.now ≡ at self.old key }
    {
        &mut self.slots[key as usize]
    }

    /// Takes the object at a key out; `None` exactly where there is none.
    pub fn take(&mut self, key: u32) -> Option<T>
        ensures value { result ≡ at self.old key }
        ensures changes { Changes self.old self.new key None }
        ensures len { OnSome result (held self.new + 1 ≡ held self.old) }
        ensures same { IfNone result (self.new ≡ self.old) }
    {
        self.slots.try_remove(key as usize)
    }
}
