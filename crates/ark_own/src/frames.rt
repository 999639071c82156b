// Frames that come to an application.
ghost use Rattle.std.specs.Prelude.{◌≡◌, ◌≤◌, false, [], ℕ, List, length};
ghost use Rattle.ark_media.specs.Calls.{Told};
ghost use Rattle.ark_script.specs.Text.{IsSaid, wants_memory};
ghost use Rattle.ark_machine.specs.Network as network;
ghost use Rattle.ark_held.specs.Does.{ActsAt};
ghost use Rattle.ark_held.specs.Frames as spec;
ghost use Rattle.ark_own.specs.Keys.{IsNetOf};

use crate::keys::net_of;
use ark_base::{AppName, Label};
use ark_held::App;
use ark_script::Said;
use ark_vnic::Arrived;

// What is said of a frame that came to the card under a label.
fn said_of(app: AppName, card: Label, arrived: Arrived) -> Said
    ensures answer { result ≡ spec.said_of app card arrived }
    ensures said { IsSaid result }
    ensures enough { wants_memory result ≡ false }
{
    match arrived {
        Arrived::Into => Said::Delivered(app, card),
        Arrived::NoBuffer => Said::DroppedNoBuffer(app, card),
        Arrived::TooLong => Said::DroppedTooLong(app, card),
        Arrived::Throttled => Said::DroppedThrottled(app, card),
    }
}

/// A frame of at most 1,514 bytes that a filter takes for the network card of a grant comes there at tick
/// `now`.
pub fn arrive(app: &mut App, grant: u64, frame: &[u8], now: u64) -> Said
    requires at_most { length frame.now ≤ 1514 }
    ensures acts { (t : Told) (v : List ℕ) (key : ℕ) → IsNetOf app.old.labels grant v key →
        ActsAt now t app.old app.new (λ m g. network.arrive app.old.name m v frame.now) []
        result [] }
    ensures areas { app.new.areas ≡ app.old.areas }
    ensures said { IsSaid result }
    ensures enough { wants_memory result ≡ false }
{
    // A frame is taken for a card that has a label, and a card's label has its card.
    let Some(card) = net_of(&app.labels, grant) else {
        return Said::DroppedNoFilter;
    };
    if app.devices.nets.cards.at(card.1).is_none() {
        return Said::DroppedNoFilter;
    }
    let arrived = app.arrive(card.1, frame, now);
    said_of(app.name, card.0, arrived)
}
