ghost use Rattle.std.specs.Prelude.{◌≡◌, false, []};
ghost use Rattle.ark_media.specs.Calls.{Told};
ghost use Rattle.ark_script.specs.Text.{IsSaid, wants_memory};
ghost use Rattle.ark_machine.specs.Cards as cards;
ghost use Rattle.ark_held.specs.Does.{Acts};

use crate::keys::card_and_area;
use ark_base::{Label, Refusal};
use ark_held::App;
use ark_script::Said;

/// The word `bind`.
pub fn bind(app: &mut App, card: &Label, area: &Label) -> Said
    ensures acts { (t : Told) →
        Acts t app.old app.new (λ m g. cards.bind m card.now area.now g) [] result [] }
    ensures areas { app.new.areas ≡ app.old.areas }
    ensures said { IsSaid result }
    ensures enough { wants_memory result ≡ false }
{
    let (key, area) = match card_and_area(app, card, area) {
        Err(refusal) => return Said::Refused(refusal),
        Ok(keys) => keys,
    };
    // A card's label has its card.
    let Some(one) = app.devices.cards.at(key) else {
        return Said::Refused(Refusal::WrongKind);
    };
    if one.log.is_some() {
        return Said::Refused(Refusal::Busy);
    }
    app.bind(key, area.grant);
    Said::Ok
}

/// The word `unbind`.
pub fn unbind(app: &mut App, card: &Label, area: &Label) -> Said
    ensures acts { (t : Told) →
        Acts t app.old app.new (λ m g. cards.unbind m card.now area.now g) [] result [] }
    ensures areas { app.new.areas ≡ app.old.areas }
    ensures said { IsSaid result }
    ensures enough { wants_memory result ≡ false }
{
    let (key, area) = match card_and_area(app, card, area) {
        Err(refusal) => return Said::Refused(refusal),
        Ok(keys) => keys,
    };
    // A card's label has its card.
    let Some(one) = app.devices.cards.at(key) else {
        return Said::Refused(Refusal::WrongKind);
    };
    if one.log.is_some() {
        return Said::Refused(Refusal::Busy);
    }
    app.unbind(key, area.grant);
    Said::Ok
}
