ghost use Rattle.std.specs.Prelude.{◌≡◌, ◌<◌, ℕ, All, IfOk};
ghost use Rattle.ark_held.specs.Inside.{AreasInside};
ghost use Rattle.ark_logs.specs.Areas.{log_area};
ghost use Rattle.ark_own.specs.Keys.{both_keys, card_key};

use ark_base::{Kind, Label, Refusal};
use ark_caps::CapKind;
use ark_extents::Spans;
use ark_held::App;
use ark_own::key_of_card;

/// The area of a log or queue: its grant, and its blocks.
#[derive(Clone, Copy, Debug)]
pub struct LogArea {
    pub grant: u64,
    pub spans: Spans,
}

// The area of the log or queue of a kind under a label.
fn area_of(app: &App, kind: Kind, label: &Label) -> Result<LogArea, Refusal>
    ensures area { result ≡ log_area app.now.labels app.now.areas kind label.now }
{
    let Some(cap) = app.labels.get(label) else {
        return Err(Refusal::NoGrant(*label));
    };
    let CapKind::Vsa = cap.kind else {
        return Err(Refusal::WrongKind);
    };
    let Some(area) = app.areas.get(cap.grant) else {
        return Err(Refusal::WrongKind);
    };
    match (kind, area.kind) {
        (Kind::Log, Kind::Log) | (Kind::Queue, Kind::Queue) => Ok(LogArea {
            grant: cap.grant,
            spans: area.spans,
        }),
        _ => Err(Refusal::WrongKind),
    }
}

/// The area of the log or queue of a kind, and the key of a storage card. That a label is not there comes before that one is
/// of another kind.
pub(crate) fn area_and_card(
    app: &App,
    kind: Kind,
    area: &Label,
    card: &Label,
) -> Result<(LogArea, u32), Refusal>
    ensures keys { result ≡ both_keys (log_area app.now.labels app.now.areas kind area.now)
        (card_key app.now.labels card.now) }
{
    match (area_of(app, kind, area), key_of_card(app, card)) {
        (Ok(area), Ok(card)) => Ok((area, card)),
        (Err(Refusal::WrongKind), Err(other)) => Err(other),
        (Err(refusal), _) => Err(refusal),
        (Ok(_), Err(refusal)) => Err(refusal),
    }
}
