// Areas that are bound to the cards of an application.
ghost use Rattle.std.specs.Prelude.{◌≡◌, ◌≤◌, true, IsSome, is_some, nat_eq};
ghost use Rattle.std.specs.Map.{lookup};
ghost use Rattle.ark_objects.specs.Held.{at};
ghost use Rattle.ark_held.specs.Bound.{with_bound};
ghost use Rattle.ark_held.specs.Rings.{ChangesCard, unbound};

use crate::app::App;
use crate::areas::AREAS;

impl App {
    /// Lets the descriptors of the card of a key use the area of a grant. Each area that it holds finds room.
    pub fn bind(&mut self, key: u32, grant: u64)
        requires there { IsSome (at self.old.devices.cards key) }
        requires held { is_some (lookup (nat_eq grant) self.old.areas) ≡ true }
        ensures changes { ChangesCard self.old.devices.cards self.new.devices.cards key
            (with_bound grant) }
        ensures labels { self.new.labels ≡ self.old.labels }
        ensures areas { self.new.areas ≡ self.old.areas }
        ensures store { self.new.store ≡ self.old.store }
        ensures doors { self.new.devices.doors ≡ self.old.devices.doors }
        ensures rates { self.new.devices.rates ≡ self.old.devices.rates }
        ensures nets { self.new.devices.nets ≡ self.old.devices.nets }
        ensures name { self.new.name ≡ self.old.name }
    {
        let areas = self.areas.len();
        prove!(areas <= AREAS);
        self.devices.bind(key, grant);
    }

    /// Lets them use it no more. A descriptor on it ends at its next move.
    pub fn unbind(&mut self, key: u32, grant: u64)
        requires there { IsSome (at self.old.devices.cards key) }
        ensures changes { ChangesCard self.old.devices.cards self.new.devices.cards key
            (unbound grant) }
        ensures labels { self.new.labels ≡ self.old.labels }
        ensures areas { self.new.areas ≡ self.old.areas }
        ensures store { self.new.store ≡ self.old.store }
        ensures doors { self.new.devices.doors ≡ self.old.devices.doors }
        ensures rates { self.new.devices.rates ≡ self.old.devices.rates }
        ensures nets { self.new.devices.nets ≡ self.old.devices.nets }
        ensures name { self.new.name ≡ self.old.name }
    {
        self.devices.unbind(key, grant);
    }
}
