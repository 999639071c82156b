//! What stands behind a word that has a form of its own.

ghost use Rattle.std.specs.Prelude.{◌≡◌};
ghost use Rattle.ark_script.specs.Arguments.{fewest_blocks};
ghost use Rattle.ark_script.specs.Line.{line_of};
ghost use Rattle.ark_script.specs.Words.{parts_of};
ghost use Rattle.ark_forms.specs.Reading.{Gives};
ghost use Rattle.ark_reading.specs.Shape as spec;

use crate::shape::{BILLION, MOST_BLOCKS};
use ark_base::Kind;
use ark_forms::{
    direction, five, four, hex, hex0, ip, kind, mac, name, number, one, size, three, two,
};
use ark_packet::Own;
use ark_script::Step;

// `MAC IP MAC`
#[tactic(auto, unfolding(crate::specs::Sentence::three_read, crate::specs::Shape::read_nic))]
#[inline(never)]
pub(super) fn nic(args: &[u8]) -> Option<Step<'_>>
    ensures { Gives line_of result (spec.read_nic (parts_of 32 args.now)) }
{
    let (own, address, gateway) = three(args, b' ')?;
    let own = mac(own)?;
    let address = ip(address)?;
    let gateway = mac(gateway)?;
    Some(Step::Nic(Own {
        mac: own,
        ip: address,
        gateway,
    }))
}

// `A`
#[tactic(auto, unfolding(crate::specs::Sentence::one_read, crate::specs::Shape::read_bare_app))]
fn bare_app(args: &[u8]) -> Option<Step<'_>>
    ensures { Gives line_of result (spec.read_bare_app (parts_of 32 args.now)) }
{
    let a = one(args, b' ')?;
    let a = name(a)?;
    Some(Step::App(a, None))
}

// `A F`
#[tactic(auto, unfolding(crate::specs::Sentence::two_read, crate::specs::Shape::read_sized_app))]
fn sized_app(args: &[u8]) -> Option<Step<'_>>
    ensures { Gives line_of result (spec.read_sized_app (parts_of 32 args.now)) }
{
    let (a, frames) = two(args, b' ')?;
    let a = name(a)?;
    let frames = number(frames, 4, 4_096)?;
    Some(Step::App(a, Some(frames)))
}

// `A` or `A F`
#[tactic(auto, unfolding(crate::specs::Shape::read_app))]
#[inline(never)]
pub(super) fn app(args: &[u8]) -> Option<Step<'_>>
    ensures { Gives line_of result (spec.read_app (parts_of 32 args.now)) }
{
    match bare_app(args) {
        Some(step) => Some(step),
        None => sized_app(args),
    }
}

// `A v SIZE`
#[tactic(auto, unfolding(crate::specs::Sentence::three_read, crate::specs::Shape::read_vsic))]
#[inline(never)]
pub(super) fn vsic(args: &[u8]) -> Option<Step<'_>>
    ensures { Gives line_of result (spec.read_vsic (parts_of 32 args.now)) }
{
    let (a, v, ring) = three(args, b' ')?;
    let a = name(a)?;
    let v = name(v)?;
    let ring = size(ring)?;
    Some(Step::Vsic(a, v, ring))
}

// `A v SIZE SIZE`
#[tactic(auto, unfolding(crate::specs::Sentence::four_read, crate::specs::Shape::read_vnic))]
#[inline(never)]
pub(super) fn vnic(args: &[u8]) -> Option<Step<'_>>
    ensures { Gives line_of result (spec.read_vnic (parts_of 32 args.now)) }
{
    let (a, v, rx, tx) = four(args, b' ')?;
    let a = name(a)?;
    let v = name(v)?;
    let rx = size(rx)?;
    let tx = size(tx)?;
    Some(Step::Vnic(a, v, rx, tx))
}

// The fewest blocks of an area: a log or queue has one for its head.
fn fewest_blocks(kind: Kind) -> u64
    ensures { result ≡ fewest_blocks kind }
{
    match kind {
        Kind::Raw => 1,
        Kind::Log | Kind::Queue => 2,
    }
}

// `A s N KIND`
#[tactic(auto, unfolding(crate::specs::Sentence::four_read, crate::specs::Shape::read_vsa))]
#[inline(never)]
pub(super) fn vsa(args: &[u8]) -> Option<Step<'_>>
    ensures { Gives line_of result (spec.read_vsa (parts_of 32 args.now)) }
{
    let (a, s, blocks, word) = four(args, b' ')?;
    let a = name(a)?;
    let s = name(s)?;
    let blocks = number(blocks, 1, MOST_BLOCKS)?;
    let kind = kind(word)?;
    if fewest_blocks(kind) <= blocks {
        Some(Step::Vsa(a, s, blocks, kind))
    } else {
        None
    }
}

// `A v DIR`
#[tactic(auto, unfolding(crate::specs::Sentence::three_read, crate::specs::Shape::read_take))]
#[inline(never)]
pub(super) fn take(args: &[u8]) -> Option<Step<'_>>
    ensures { Gives line_of result (spec.read_take (parts_of 32 args.now)) }
{
    let (a, v, way) = three(args, b' ')?;
    let a = name(a)?;
    let v = name(v)?;
    let way = direction(way)?;
    Some(Step::Take(a, v, way))
}

// `A k IP PORT HEX0`
#[tactic(auto, unfolding(crate::specs::Sentence::five_read, crate::specs::Shape::read_sendto))]
#[inline(never)]
pub(super) fn sendto(args: &[u8]) -> Option<Step<'_>>
    ensures { Gives line_of result (spec.read_sendto (parts_of 32 args.now)) }
{
    let (a, k, to, port, bytes) = five(args, b' ')?;
    let a = name(a)?;
    let k = name(k)?;
    let to = ip(to)?;
    let port = number(port, 0, 65_535)?;
    let bytes = hex0(bytes, 1_472)?;
    Some(Step::Sendto(a, k, to, port, bytes))
}

// `HEX`
#[tactic(auto, unfolding(crate::specs::Sentence::one_read, crate::specs::Shape::read_wire))]
#[inline(never)]
pub(super) fn wire(args: &[u8]) -> Option<Step<'_>>
    ensures { Gives line_of result (spec.read_wire (parts_of 32 args.now)) }
{
    let bytes = one(args, b' ')?;
    let bytes = hex(bytes, 14, 1_514)?;
    Some(Step::Wire(bytes))
}

// `N`
#[tactic(auto, unfolding(crate::specs::Sentence::one_read, crate::specs::Shape::read_tick))]
#[inline(never)]
pub(super) fn tick(args: &[u8]) -> Option<Step<'_>>
    ensures { Gives line_of result (spec.read_tick (parts_of 32 args.now)) }
{
    let n = one(args, b' ')?;
    let n = number(n, 1, BILLION)?;
    Some(Step::Tick(n))
}
