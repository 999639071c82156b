ghost use Rattle.std.specs.Prelude.{◌≡◌, ◌<◌, ◌≤◌, ◌+◌, ℕ, Bool, true, List, [], None, Some, IfOk, IsSome, length, slice_get};
ghost use Rattle.ark_objects.specs.Held.{Changes, at, held};
ghost use Rattle.ark_vnic.specs.Arrivals.{HasBuffer, HoldsFrame, arrived_of};
ghost use Rattle.ark_held.specs.Nets as spec;
ghost use Rattle.ark_held.specs.Nets.{AreQuiet, AreSoundNets, ChangesNet, HasReceived, HasRoomToReceive, is_empty, new_net, with_arrival, with_receiving, with_taken};
ghost use Rattle.ark_held.specs.declared.network_card.NetworkCard.{NetworkCard};

use crate::network_card::{NetSide, NetworkCard};
use ark_base::Memory;
use ark_filters::Direction;
use ark_objects::Objects;
use ark_region::Region;
use ark_vic::{Completion, Descriptor, Rate};
use ark_vnic::{Arrived, Vnic};
use std::alloc::Global;

/// The network cards of an application, by key.
#[derive(Drop)]
pub struct Nets {
    pub cards: Objects<NetworkCard>,
    /// The frames of the memory in which the buffers of descriptors lie.
    pub frames: u32,
    /// They do lie there.
    pub ghost sound: { ∥ AreSoundNets frames cards ∥₁ },
    /// So far no word posts a frame to send.
    pub ghost quiet: { ∥ AreQuiet cards ∥₁ },
}

// A side that nothing paces or watches.
const FREE: NetSide = NetSide {
    rate: 0,
    door: None,
};

impl Nets {
    /// No card, beside a memory of so many frames. `Memory` comes for want of memory; of the other calls only `add` takes any.
    pub fn new(alloc: Global, frames: u32) -> Result<Nets, Memory>
        ensures none { IfOk result (λ n. held n.cards ≡ 0) }
        ensures frames { IfOk result (λ n. n.frames ≡ frames) }
    {
        let cards = Objects::new(alloc)?;
        Ok(Nets { cards, frames })
    }

    /// Keeps a card with nothing posted to receive and an empty transmit ring; its key.
    pub fn add(&mut self, vnic: Vnic) -> u32
        requires room { held self.old.cards < 64 }
        requires none { vnic.rx.posted ≡ [] }
        requires empty { is_empty vnic.tx ≡ true }
        ensures vacant { at self.old.cards result ≡ None }
        ensures changes { Changes self.old.cards self.new.cards result (Some (new_net vnic)) }
        ensures more { held self.new.cards ≡ held self.old.cards + 1 }
        ensures frames { self.new.frames ≡ self.old.frames }
    {
        self.cards.put(NetworkCard {
            vnic,
            rx: FREE,
            tx: FREE,
        })
    }

    /// Posts a descriptor on the receive ring of the card of a key, behind all that are posted.
    pub fn post(&mut self, key: u32, descriptor: Descriptor)
        requires room { HasRoomToReceive self.old.cards key }
        requires sound { (taken : List Bool) → length taken ≡ self.old.frames →
            HasBuffer taken descriptor }
        ensures changes { ChangesNet self.old.cards self.new.cards key (with_receiving descriptor) }
        ensures held { held self.new.cards ≡ held self.old.cards }
        ensures frames { self.new.frames ≡ self.old.frames }
    {
        match self.cards.at_mut(key).vnic.rx_mut().post(descriptor) {
            Ok(()) => {}
            Err(_) => unreachable!(),
        }
    }

    /// Takes the oldest completion of the receive ring of the card of a key.
    pub fn take(&mut self, key: u32) -> Completion
        requires some { HasReceived self.old.cards key }
        ensures oldest { (one : NetworkCard) → at self.old.cards key ≡ Some one →
            slice_get one.vnic.rx.unreaped 0 ≡ Some result }
        ensures changes { ChangesNet self.old.cards self.new.cards key with_taken }
        ensures held { held self.new.cards ≡ held self.old.cards }
        ensures frames { self.new.frames ≡ self.old.frames }
    {
        match self.cards.at_mut(key).vnic.rx_mut().reap() {
            Some(completion) => completion,
            None => unreachable!(),
        }
    }

    /// A frame of at most 1,514 bytes arrives at the card of a key at tick `now`, as `Vnic::arrive` says.
    pub fn arrive(&mut self, key: u32, frame: &[u8], region: &mut Region, now: u64) -> Arrived
        requires there { IsSome (at self.old.cards key) }
        requires size { self.old.frames ≡ length region.old.taken }
        requires at_most { length frame.now ≤ 1514 }
        ensures answer { (one : NetworkCard) → at self.old.cards key ≡ Some one →
            result ≡ arrived_of one.vnic (length frame.now) now }
        ensures changes { ChangesNet self.old.cards self.new.cards key
            (with_arrival result (length frame.now) now) }
        ensures region { (one : NetworkCard) → at self.old.cards key ≡ Some one →
            HoldsFrame one.vnic result frame.now region.old region.new }
        ensures taken { region.new.taken ≡ region.old.taken }
        ensures held { held self.new.cards ≡ held self.old.cards }
        ensures frames { self.new.frames ≡ self.old.frames }
    {
        self.cards.at_mut(key).vnic.arrive(frame, region, now)
    }

    /// A door watches one side of the card of a key from now on, or none.
    pub fn watch(&mut self, key: u32, side: Direction, door: Option<u32>)
        requires there { IsSome (at self.old.cards key) }
        ensures changes { ChangesNet self.old.cards self.new.cards key (spec.with_door side door) }
        ensures held { held self.new.cards ≡ held self.old.cards }
        ensures frames { self.new.frames ≡ self.old.frames }
    {
        let card = self.cards.at_mut(key);
        match side {
            Direction::Rx => card.rx.door = door,
            Direction::Tx => card.tx.door = door,
        }
    }

    /// A rate of this key paces one side of the card of a key from now on, and stands for no pass yet; or none does.
    pub fn pace(&mut self, key: u32, side: Direction, rate: u32, pace: Option<Rate>)
        requires there { IsSome (at self.old.cards key) }
        ensures changes { ChangesNet self.old.cards self.new.cards key
            (spec.with_pace side rate pace) }
        ensures held { held self.new.cards ≡ held self.old.cards }
        ensures frames { self.new.frames ≡ self.old.frames }
    {
        let card = self.cards.at_mut(key);
        match side {
            Direction::Rx => {
                card.vnic.pace_rx(pace);
                card.rx.rate = rate;
            }
            Direction::Tx => {
                card.vnic.pace_tx(pace);
                card.tx.rate = rate;
            }
        }
    }

    /// Takes the card of a key out, with what stands in its rings.
    pub fn remove(&mut self, key: u32)
        requires there { IsSome (at self.old.cards key) }
        ensures gone { Changes self.old.cards self.new.cards key None }
        ensures fewer { held self.new.cards + 1 ≡ held self.old.cards }
        ensures frames { self.new.frames ≡ self.old.frames }
    {
        let _ = self.cards.take(key);
    }
}
