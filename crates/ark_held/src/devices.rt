ghost use Rattle.std.specs.Prelude.{◌≡◌, ◌<◌, ◌+◌, ℕ, Bool, List, [], None, Some, IfOk, IfSome, IsSome, length, option_map, slice_get};
ghost use Rattle.ark_objects.specs.Held.{Changes, at, held};
ghost use Rattle.ark_vic.specs.Bells.{counts_of};
ghost use Rattle.ark_vsic.specs.Moves.{CanMove};
ghost use Rattle.ark_held.specs.Bound.{HasRoomToBind, with_bound};
ghost use Rattle.ark_held.specs.Idle.{IsShut};
ghost use Rattle.ark_held.specs.LogBuffers.{AllLie};
ghost use Rattle.ark_held.specs.LogRings.{AreLogRings};
ghost use Rattle.ark_held.specs.Rings.{AreSound, ChangesCard, HasRoomFor, new_card, no_ring, unbound, with_posted, with_reaped};

use crate::allowance::Allowance;
use crate::card::StorageCard;
use crate::nets::Nets;
use ark_base::Memory;
use ark_objects::Objects;
use ark_vic::{Completion, Counts, Descriptor, Door};
use ark_vsic::Vsic;
use std::alloc::Global;

/// The cards, the doors and the rates of an application, by key.
#[derive(Drop)]
pub struct Devices {
    pub cards: Objects<StorageCard>,
    pub doors: Objects<Door>,
    pub rates: Objects<Allowance>,
    pub nets: Nets,
    /// The frames of the memory in which the buffers of descriptors lie.
    pub frames: u32,
    pub ghost sound: { ∥ AreSound frames cards ∥₁ },
    /// The buffers of open logs lie in the memory.
    pub ghost lie: { ∥ AllLie frames cards ∥₁ },
    /// In the ring of a card on which a log is open there is the log's descriptor alone, or its completion.
    pub ghost logs: { ∥ AreLogRings frames cards ∥₁ },
}

impl Devices {
    /// No card, no door and no rate, beside a memory of so many frames. `Memory` comes for want of
    /// memory; of the other calls only a new card takes any.
    pub fn new(alloc: Global, frames: u32) -> Result<Devices, Memory>
        ensures cards { IfOk result (λ d. held d.cards ≡ 0) }
        ensures vacant { IfOk result (λ d. (key : ℕ) → at d.cards key ≡ None) }
        ensures doors { IfOk result (λ d. held d.doors ≡ 0) }
        ensures rates { IfOk result (λ d. held d.rates ≡ 0) }
        ensures nets { IfOk result (λ d. held d.nets.cards ≡ 0) }
        ensures frames { IfOk result (λ d. d.frames ≡ frames) }
        ensures net_frames { IfOk result (λ d. d.nets.frames ≡ frames) }
    {
        let cards = Objects::new(alloc)?;
        let doors = Objects::new(alloc)?;
        let rates = Objects::new(alloc)?;
        let nets = Nets::new(alloc, frames)?;
        Ok(Devices {
            cards,
            doors,
            rates,
            nets,
            frames,
        })
    }

    /// Keeps a card with an empty ring; its key.
    pub fn add_card(&mut self, vsic: Vsic) -> u32
        requires room { held self.old.cards < 64 }
        requires empty { vsic.ring ≡ no_ring vsic.ring.size }
        requires some { 0 < vsic.ring.size }
        ensures vacant { at self.old.cards result ≡ None }
        ensures changes { Changes self.old.cards self.new.cards result (Some (new_card vsic)) }
        ensures more { held self.new.cards ≡ held self.old.cards + 1 }
        ensures doors { self.new.doors ≡ self.old.doors }
        ensures rates { self.new.rates ≡ self.old.rates }
        ensures nets { self.new.nets ≡ self.old.nets }
        ensures frames { self.new.frames ≡ self.old.frames }
    {
        self.cards.put(StorageCard {
            vsic,
            rate: 0,
            door: None,
            log: None,
        })
    }

    /// The rings of the door of a key since the last look, which starts to count anew; `None` exactly where there is no such
    /// door.
    pub fn look(&mut self, key: u32) -> Option<Counts>
        ensures counts { result ≡ at self.old.doors key }
        ensures anew { IfSome result
            (λ counts. Changes self.old.doors self.new.doors key (Some (counts_of []))) }
        ensures held { held self.new.doors ≡ held self.old.doors }
        ensures cards { self.new.cards ≡ self.old.cards }
        ensures rates { self.new.rates ≡ self.old.rates }
        ensures nets { self.new.nets ≡ self.old.nets }
        ensures frames { self.new.frames ≡ self.old.frames }
    {
        self.doors.at(key)?;
        Some(self.doors.at_mut(key).look())
    }

    /// A door watches the card of a key from now on, or none.
    pub fn watch(&mut self, key: u32, door: Option<u32>)
        requires there { IsSome (at self.old.cards key) }
        ensures changes { ChangesCard self.old.cards self.new.cards key
            (λ c. record c { door = door }) }
        ensures held { held self.new.cards ≡ held self.old.cards }
        ensures doors { self.new.doors ≡ self.old.doors }
        ensures rates { self.new.rates ≡ self.old.rates }
        ensures nets { self.new.nets ≡ self.old.nets }
        ensures frames { self.new.frames ≡ self.old.frames }
    {
        self.cards.at_mut(key).door = door;
    }

    /// Descriptors of the card of a key may use the area of a grant from now on.
    pub fn bind(&mut self, key: u32, grant: u64)
        requires room { HasRoomToBind self.old.cards key grant }
        ensures changes { ChangesCard self.old.cards self.new.cards key (with_bound grant) }
        ensures held { held self.new.cards ≡ held self.old.cards }
        ensures doors { self.new.doors ≡ self.old.doors }
        ensures rates { self.new.rates ≡ self.old.rates }
        ensures nets { self.new.nets ≡ self.old.nets }
        ensures frames { self.new.frames ≡ self.old.frames }
    {
        self.cards.at_mut(key).vsic.bind(grant);
    }

    /// Descriptors of the card of a key may use the area of a grant no more.
    pub fn unbind(&mut self, key: u32, grant: u64)
        requires there { IsSome (at self.old.cards key) }
        ensures changes { ChangesCard self.old.cards self.new.cards key (unbound grant) }
        ensures held { held self.new.cards ≡ held self.old.cards }
        ensures doors { self.new.doors ≡ self.old.doors }
        ensures rates { self.new.rates ≡ self.old.rates }
        ensures nets { self.new.nets ≡ self.old.nets }
        ensures frames { self.new.frames ≡ self.old.frames }
    {
        self.cards.at_mut(key).vsic.unbind(grant);
    }

    /// Posts a descriptor on the card of a key, on which no log is open, behind all that are posted.
    pub fn post(&mut self, key: u32, descriptor: Descriptor)
        requires room { HasRoomFor self.old.cards key }
        requires shut { IsShut self.old.cards key }
        requires sound { (taken : List Bool) → length taken ≡ self.old.frames →
            CanMove taken 0 descriptor }
        ensures changes { ChangesCard self.old.cards self.new.cards key (with_posted descriptor) }
        ensures held { held self.new.cards ≡ held self.old.cards }
        ensures doors { self.new.doors ≡ self.old.doors }
        ensures rates { self.new.rates ≡ self.old.rates }
        ensures nets { self.new.nets ≡ self.old.nets }
        ensures frames { self.new.frames ≡ self.old.frames }
    {
        match self.cards.at_mut(key).vsic.ring_mut().post(descriptor) {
            Ok(()) => {}
            Err(_) => unreachable!(),
        }
    }

    /// Takes the oldest completion of the card of a key, on which no log is open; `None` exactly where there is none.
    pub fn reap(&mut self, key: u32) -> Option<Completion>
        requires there { IsSome (at self.old.cards key) }
        requires shut { IsShut self.old.cards key }
        ensures oldest { (one : StorageCard) → at self.old.cards key ≡ Some one →
            result ≡ slice_get one.vsic.ring.unreaped 0 }
        ensures changes { ChangesCard self.old.cards self.new.cards key with_reaped }
        ensures held { held self.new.cards ≡ held self.old.cards }
        ensures doors { self.new.doors ≡ self.old.doors }
        ensures rates { self.new.rates ≡ self.old.rates }
        ensures nets { self.new.nets ≡ self.old.nets }
        ensures frames { self.new.frames ≡ self.old.frames }
    {
        self.cards.at_mut(key).vsic.ring_mut().reap()
    }

    // The card of a key, if there is one, has the area of this grant bound no more.
    fn unbind_card(&mut self, key: u32, grant: u64)
        ensures changes { Changes self.old.cards self.new.cards key
            (option_map (unbound grant) (at self.old.cards key)) }
        ensures held { held self.new.cards ≡ held self.old.cards }
        ensures doors { self.new.doors ≡ self.old.doors }
        ensures rates { self.new.rates ≡ self.old.rates }
        ensures nets { self.new.nets ≡ self.old.nets }
        ensures frames { self.new.frames ≡ self.old.frames }
    {
        if self.cards.at(key).is_some() {
            self.unbind(key, grant);
        }
    }

    /// No card has the area of this grant bound any more.
    pub fn unbind_all(&mut self, grant: u64)
        ensures cards { (key : ℕ) →
            at self.new.cards key ≡ option_map (unbound grant) (at self.old.cards key) }
        ensures held { held self.new.cards ≡ held self.old.cards }
        ensures doors { self.new.doors ≡ self.old.doors }
        ensures rates { self.new.rates ≡ self.old.rates }
        ensures nets { self.new.nets ≡ self.old.nets }
        ensures frames { self.new.frames ≡ self.old.frames }
    {
        for key in 0..self.cards.end() {
            self.unbind_card(key, grant);
        }
    }

    /// Takes the card of a key out, with what stands in its ring.
    pub fn remove_card(&mut self, key: u32)
        requires there { IsSome (at self.old.cards key) }
        ensures gone { Changes self.old.cards self.new.cards key None }
        ensures fewer { held self.new.cards + 1 ≡ held self.old.cards }
        ensures doors { self.new.doors ≡ self.old.doors }
        ensures rates { self.new.rates ≡ self.old.rates }
        ensures nets { self.new.nets ≡ self.old.nets }
        ensures frames { self.new.frames ≡ self.old.frames }
    {
        let _ = self.cards.take(key);
    }
}
