ghost use Rattle.std.specs.Prelude.{◌≡◌, ◌≤◌, ◌+◌, ◌↔◌, ◌&&◌, true, nat_le, drop, slice_index, slice_range, IsSome, IfSome};
ghost use Rattle.std.specs.Int.{w32, from_be_bytes};
ghost use Rattle.std.specs.List.{list_all};
ghost use Rattle.ark_base.specs.Name.{is_name};
ghost use Rattle.ark_extents.specs.Blocks.{runs_of};
ghost use Rattle.ark_extents.specs.Runs.{are_spans};
ghost use Rattle.ark_table.specs.Area as spec;
ghost use Rattle.ark_table.specs.Stated.{stated};
ghost use Rattle.ark_table.specs.Read.{IsRead};

use crate::slot::{Slot, slot_block};
use ark_base::{Kind, Name, Span};
use ark_extents::Spans;
use byteorder::{ByteOrder, NetworkEndian};

/// What the block of a slot says.
#[derive(Clone, Copy, Debug)]
pub enum Content {
    /// The slot is free.
    Free,
    /// It is in use.
    Used(Slot),
    /// The block is none of a slot that keeps the rules by itself.
    Broken,
}

fn kind_of(number: u8) -> Kind
    ensures { result ≡ spec.kind_of number }
{
    match number {
        1 => Kind::Raw,
        2 => Kind::Log,
        _ => Kind::Queue,
    }
}

// The name in the 16 bytes from a place on, if one stands there.
fn name_at(block: &[u8; 512], at: usize) -> Option<Name>
    requires { at + 16 ≤ 512 }
    ensures name { IfSome result (λ n. n ≡ spec.name_in block.now at) }
    ensures found { IsSome result ↔ (is_name (spec.name_in block.now at) ≡ true) }
{
    let field = &block[at + 1..at + 16];
    let len = usize::from(block[at]).min(15);
    Name::read(&field[..len])
}

// The run in the 8 bytes from a place on.
fn run_at(block: &[u8; 512], at: usize) -> Span
    requires { at + 8 ≤ 512 }
    ensures start { result.start ≡ from_be_bytes w32 (slice_range block.now at (at + 4)) }
    ensures len { result.len ≡ from_be_bytes w32 (slice_range block.now (at + 4) (at + 8)) }
{
    Span {
        start: NetworkEndian::read_u32(&block[at..at + 4]),
        len: NetworkEndian::read_u32(&block[at + 4..at + 8]),
    }
}

// The runs of a block, if they may be the spans of an area.
fn spans_in(block: &[u8; 512]) -> Option<Spans>
    ensures runs { IfSome result
        (λ s. runs_of s ≡ spec.runs_in (slice_index block.now 5) (drop 38 block.now)) }
    ensures found { IsSome result ↔
        (are_spans (spec.runs_in (slice_index block.now 5) (drop 38 block.now)) ≡ true) }
{
    let count = usize::from(block[5]);
    if count > 16 {
        return None;
    }
    let mut runs = [Span { start: 0, len: 0 }; 16];
    for i in 0..count {
        runs[i] = run_at(block, 38 + 8 * i);
    }
    Spans::of(&runs[..count])
}

fn is_data(size: u32, run: Span) -> bool
    ensures { result ≡ spec.is_data size run }
{
    run.start >= 129 && u64::from(run.start) + u64::from(run.len) <= u64::from(size)
}

fn are_data(size: u32, runs: &[Span]) -> bool
    ensures { result ≡ list_all (spec.is_data size) runs.now }
{
    runs.iter().all(|run| is_data(size, *run))
}

fn least_blocks(kind: Kind) -> u32
    ensures { result ≡ spec.least_blocks kind }
{
    match kind {
        Kind::Raw => 1,
        Kind::Log => 2,
        Kind::Queue => 2,
    }
}

// Whether the blocks lie in the data part, and are enough for the kind.
fn has_place(size: u32, kind: Kind, spans: &Spans) -> bool
    ensures { result ≡ list_all (spec.is_data size) (runs_of spans.now) &&
        nat_le (spec.least_blocks kind) (spec.block_total (runs_of spans.now)) }
{
    are_data(size, spans.as_slice()) && least_blocks(kind) <= spans.blocks()
}

// The slot with the fields of a block, if they keep the rules by themselves.
fn slot_in(block: &[u8; 512], size: u32) -> Option<Slot>
    ensures fields { IfSome result (λ s. stated s ≡ spec.area_in block.now) }
    ensures kept { IsSome result ↔ (spec.is_area size (spec.area_in block.now) ≡ true) }
{
    let kind = kind_of(block[4]);
    let app = name_at(block, 6)?;
    let label = name_at(block, 22)?;
    let spans = spans_in(block)?;
    if !has_place(size, kind, &spans) {
        return None;
    }
    Some(Slot {
        kind,
        app,
        label,
        spans,
    })
}

fn is_free(block: &[u8; 512]) -> bool
    ensures { result ≡ spec.is_free block.now }
{
    block.iter().all(|byte| *byte == 0)
}

/// What a block says as that of a slot, on a device of so many blocks. It is in use where it is the one spelling of its fields.
pub fn read_slot(block: &[u8; 512], size: u32) -> Content
    ensures { IsRead size block.now result }
{
    if is_free(block) {
        return Content::Free;
    }
    let Some(slot) = slot_in(block, size) else {
        return Content::Broken;
    };
    if slot_block(&slot) == *block {
        Content::Used(slot)
    } else {
        Content::Broken
    }
}
