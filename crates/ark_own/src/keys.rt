ghost use Rattle.std.specs.Prelude.{◌≡◌, ℕ, IfSome, IfNone, List};
ghost use Rattle.ark_own.specs.Keys.{IsLabelOf, IsNetOf, both_keys, buffer_key, cap_at, card_key, door_given, door_key, net_key, rate_given, rate_key, raw_area};

use ark_base::{Kind, Label, Refusal};
use ark_caps::{CapKind, CapTable, Capability};
use ark_held::App;

/// What a label stands for.
pub fn cap_of(app: &App, label: &Label) -> Result<Capability, Refusal>
    ensures cap { result ≡ cap_at app.now.labels label.now }
{
    match app.labels.get(label) {
        Some(cap) => Ok(cap),
        None => Err(Refusal::NoGrant(*label)),
    }
}

/// A raw area that an application holds: its grant, and how many blocks it has.
#[derive(Clone, Copy, Debug)]
pub struct RawArea {
    pub grant: u64,
    pub blocks: u32,
}

/// The key of the buffer under a label.
pub fn key_of_buffer(app: &App, label: &Label) -> Result<u32, Refusal>
    ensures key { result ≡ buffer_key app.now.labels label.now }
{
    let Some(cap) = app.labels.get(label) else {
        return Err(Refusal::NoGrant(*label));
    };
    match cap.kind {
        CapKind::Buf => Ok(cap.key),
        _ => Err(Refusal::WrongKind),
    }
}

/// The label of the buffer of a key; `None` exactly where there is none.
pub fn label_of_buffer(labels: &CapTable, key: u32) -> Option<Label>
    ensures found { IfSome result (λ label. IsLabelOf labels.now key label) }
    ensures none { IfNone result ((label : List ℕ) → ¬ IsLabelOf labels.now key label) }
{
    for i in 0..labels.len() {
        if let Some((label, cap)) = labels.at(i) {
            if cap.kind == CapKind::Buf && cap.key == key {
                return Some(label);
            }
        }
    }
    None
}

/// The label and the key of the network card of a grant; `None` exactly where there is none.
pub fn net_of(labels: &CapTable, grant: u64) -> Option<(Label, u32)>
    ensures found { IfSome result (λ card. IsNetOf labels.now grant card.0 card.1) }
    ensures none { IfNone result
        ((label : List ℕ) (key : ℕ) → ¬ IsNetOf labels.now grant label key) }
{
    for i in 0..labels.len() {
        if let Some((label, cap)) = labels.at(i) {
            if cap.kind == CapKind::Vnic && cap.grant == grant {
                return Some((label, cap.key));
            }
        }
    }
    None
}

/// The key of the door under a label.
pub fn key_of_door(app: &App, label: &Label) -> Result<u32, Refusal>
    ensures key { result ≡ door_key app.now.labels label.now }
{
    let Some(cap) = app.labels.get(label) else {
        return Err(Refusal::NoGrant(*label));
    };
    match cap.kind {
        CapKind::Door => Ok(cap.key),
        _ => Err(Refusal::WrongKind),
    }
}

/// The key of the storage card under a label.
pub fn key_of_card(app: &App, label: &Label) -> Result<u32, Refusal>
    ensures key { result ≡ card_key app.now.labels label.now }
{
    let Some(cap) = app.labels.get(label) else {
        return Err(Refusal::NoGrant(*label));
    };
    match cap.kind {
        CapKind::Vsic => Ok(cap.key),
        _ => Err(Refusal::WrongKind),
    }
}

/// The key of the network card under a label.
pub fn key_of_net(app: &App, label: &Label) -> Result<u32, Refusal>
    ensures key { result ≡ net_key app.now.labels label.now }
{
    let Some(cap) = app.labels.get(label) else {
        return Err(Refusal::NoGrant(*label));
    };
    match cap.kind {
        CapKind::Vnic => Ok(cap.key),
        _ => Err(Refusal::WrongKind),
    }
}

// The key of the door that is named, if one is.
fn key_of_given(app: &App, door: &Option<Label>) -> Result<Option<u32>, Refusal>
    ensures key { result ≡ door_given app.now.labels door.now }
{
    let Some(label) = door else {
        return Ok(None);
    };
    match key_of_door(app, label) {
        Ok(key) => Ok(Some(key)),
        Err(refusal) => Err(refusal),
    }
}

/// The keys of a storage card, and of a door if one is named. That a label is not there comes before that one is of another kind.
pub fn keys_to_watch(
    app: &App,
    card: &Label,
    door: &Option<Label>,
) -> Result<(u32, Option<u32>), Refusal>
    ensures keys { result ≡ both_keys (card_key app.now.labels card.now)
        (door_given app.now.labels door.now) }
{
    match (key_of_card(app, card), key_of_given(app, door)) {
        (Ok(card), Ok(door)) => Ok((card, door)),
        (Err(Refusal::WrongKind), Err(other)) => Err(other),
        (Err(refusal), _) => Err(refusal),
        (Ok(_), Err(refusal)) => Err(refusal),
    }
}

/// The same of a network card.
pub fn net_keys_to_watch(
    app: &App,
    card: &Label,
    door: &Option<Label>,
) -> Result<(u32, Option<u32>), Refusal>
    ensures keys { result ≡ both_keys (net_key app.now.labels card.now)
        (door_given app.now.labels door.now) }
{
    match (key_of_net(app, card), key_of_given(app, door)) {
        (Ok(card), Ok(door)) => Ok((card, door)),
        (Err(Refusal::WrongKind), Err(other)) => Err(other),
        (Err(refusal), _) => Err(refusal),
        (Ok(_), Err(refusal)) => Err(refusal),
    }
}

/// The key of the rate under a label.
pub fn key_of_rate(app: &App, label: &Label) -> Result<u32, Refusal>
    ensures key { result ≡ rate_key app.now.labels label.now }
{
    let Some(cap) = app.labels.get(label) else {
        return Err(Refusal::NoGrant(*label));
    };
    match cap.kind {
        CapKind::Rate => Ok(cap.key),
        _ => Err(Refusal::WrongKind),
    }
}

// The key of the rate that is named, if one is.
fn key_of_given_rate(app: &App, rate: &Option<Label>) -> Result<Option<u32>, Refusal>
    ensures key { result ≡ rate_given app.now.labels rate.now }
{
    let Some(label) = rate else {
        return Ok(None);
    };
    match key_of_rate(app, label) {
        Ok(key) => Ok(Some(key)),
        Err(refusal) => Err(refusal),
    }
}

/// The keys of a storage card, and of a rate if one is named. That a label is not there comes before
/// that one is of another kind.
pub fn keys_to_pace(
    app: &App,
    card: &Label,
    rate: &Option<Label>,
) -> Result<(u32, Option<u32>), Refusal>
    ensures keys { result ≡ both_keys (card_key app.now.labels card.now)
        (rate_given app.now.labels rate.now) }
{
    match (key_of_card(app, card), key_of_given_rate(app, rate)) {
        (Ok(card), Ok(rate)) => Ok((card, rate)),
        (Err(Refusal::WrongKind), Err(other)) => Err(other),
        (Err(refusal), _) => Err(refusal),
        (Ok(_), Err(refusal)) => Err(refusal),
    }
}

/// The same of a network card.
pub fn net_keys_to_pace(
    app: &App,
    card: &Label,
    rate: &Option<Label>,
) -> Result<(u32, Option<u32>), Refusal>
    ensures keys { result ≡ both_keys (net_key app.now.labels card.now)
        (rate_given app.now.labels rate.now) }
{
    match (key_of_net(app, card), key_of_given_rate(app, rate)) {
        (Ok(card), Ok(rate)) => Ok((card, rate)),
        (Err(Refusal::WrongKind), Err(other)) => Err(other),
        (Err(refusal), _) => Err(refusal),
        (Ok(_), Err(refusal)) => Err(refusal),
    }
}

/// The keys of a network card and of a buffer. That a label is not there comes before that one is of
/// another kind.
pub fn keys_to_receive(app: &App, card: &Label, buffer: &Label) -> Result<(u32, u32), Refusal>
    ensures keys { result ≡ both_keys (net_key app.now.labels card.now)
        (buffer_key app.now.labels buffer.now) }
{
    match (key_of_net(app, card), key_of_buffer(app, buffer)) {
        (Ok(card), Ok(buffer)) => Ok((card, buffer)),
        (Err(Refusal::WrongKind), Err(other)) => Err(other),
        (Err(refusal), _) => Err(refusal),
        (Ok(_), Err(refusal)) => Err(refusal),
    }
}

/// The raw area under a label.
pub fn area_of(app: &App, label: &Label) -> Result<RawArea, Refusal>
    ensures area { result ≡ raw_area app.now.labels app.now.areas label.now }
{
    let Some(cap) = app.labels.get(label) else {
        return Err(Refusal::NoGrant(*label));
    };
    let CapKind::Vsa = cap.kind else {
        return Err(Refusal::WrongKind);
    };
    let Some(area) = app.areas.get(cap.grant) else {
        return Err(Refusal::WrongKind);
    };
    match area.kind {
        Kind::Raw => Ok(RawArea {
            grant: cap.grant,
            blocks: area.spans.blocks(),
        }),
        Kind::Log => Err(Refusal::WrongKind),
        Kind::Queue => Err(Refusal::WrongKind),
    }
}

/// The key of a storage card, and a raw area. That a label is not there comes before that one is of another kind.
pub fn card_and_area(app: &App, card: &Label, area: &Label) -> Result<(u32, RawArea), Refusal>
    ensures keys { result ≡ both_keys (card_key app.now.labels card.now)
        (raw_area app.now.labels app.now.areas area.now) }
{
    match (key_of_card(app, card), area_of(app, area)) {
        (Ok(card), Ok(area)) => Ok((card, area)),
        (Err(Refusal::WrongKind), Err(other)) => Err(other),
        (Err(refusal), _) => Err(refusal),
        (Ok(_), Err(refusal)) => Err(refusal),
    }
}

/// The same with the key of a buffer.
pub fn keys_to_transfer(
    app: &App,
    card: &Label,
    area: &Label,
    buffer: &Label,
) -> Result<((u32, RawArea), u32), Refusal>
    ensures keys { result ≡ both_keys
        (both_keys (card_key app.now.labels card.now)
        (raw_area app.now.labels app.now.areas area.now))
        (buffer_key app.now.labels buffer.now) }
{
    match (card_and_area(app, card, area), key_of_buffer(app, buffer)) {
        (Ok(both), Ok(buffer)) => Ok((both, buffer)),
        (Err(Refusal::WrongKind), Err(other)) => Err(other),
        (Err(refusal), _) => Err(refusal),
        (Ok(_), Err(refusal)) => Err(refusal),
    }
}
