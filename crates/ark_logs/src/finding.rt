ghost use Rattle.std.specs.Prelude.{◌≡◌};
ghost use Rattle.ark_logs.specs.Finds.{open_of, open_under};

use ark_base::{Kind, Label, Refusal};
use ark_held::App;

/// An open log or queue: the grant of its area, and the key of the card on which it is open.
#[derive(Clone, Copy, Debug)]
pub struct OpenAt {
    pub grant: u64,
    pub key: u32,
}

/// Where the log or queue under a label is open. `NoGrant` comes where nothing is held under the
/// label, and `WrongKind` where that is no log or queue, or is not open.
pub fn find_open(app: &App, label: &Label) -> Result<OpenAt, Refusal>
    ensures found { result ≡ open_under app.now.labels app.now.devices.cards label.now }
{
    let Some(cap) = app.labels.get(label) else {
        return Err(Refusal::NoGrant(*label));
    };
    // A card has a log open under the grant of its area, and no other object has that.
    let Some(card) = app.open_on(cap.grant) else {
        return Err(Refusal::WrongKind);
    };
    Ok(OpenAt {
        grant: cap.grant,
        key: card.key,
    })
}

/// Where the log or queue of a kind under a label is open. `NoGrant` comes where nothing is held under the label, and
/// `WrongKind` where that is none of this kind, or is not open.
pub(crate) fn find_open_of(app: &App, kind: Kind, label: &Label) -> Result<OpenAt, Refusal>
    ensures found { result
        ≡ open_of app.now.labels app.now.areas app.now.devices.cards kind label.now }
{
    let at = match find_open(app, label) {
        Err(refusal) => return Err(refusal),
        Ok(at) => at,
    };
    let Some(area) = app.areas.get(at.grant) else {
        return Err(Refusal::WrongKind);
    };
    match (area.kind, kind) {
        (Kind::Log, Kind::Log) | (Kind::Queue, Kind::Queue) => Ok(at),
        _ => Err(Refusal::WrongKind),
    }
}
