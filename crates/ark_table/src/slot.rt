ghost use Rattle.std.specs.Prelude.{◌≡◌, ◌≤◌, ◌+◌, ◌*◌, ◌++◌, length, take, drop, flat_map};
ghost use Rattle.ark_table.specs.Area.{area_bytes, kind_number, name_bytes, run_bytes};
ghost use Rattle.ark_table.specs.Stated.{stated};

use crate::bytes::put;
use ark_base::{AppName, Kind, Label, Name, Span};
use ark_extents::Spans;
use byteorder::{ByteOrder, NetworkEndian};

/// A slot in use: the kind of its area, whose area it is and under which label, and the blocks.
#[derive(Clone, Copy, Debug)]
pub struct Slot {
    pub kind: Kind,
    pub app: AppName,
    pub label: Label,
    pub spans: Spans,
}

fn number_of(kind: Kind) -> u8
    ensures { result ≡ kind_number kind }
{
    match kind {
        Kind::Raw => 1,
        Kind::Log => 2,
        Kind::Queue => 3,
    }
}

// A name's length, the name, and zeros.
fn name_field(name: &Name) -> [u8; 16]
    ensures { result ≡ name_bytes name.now }
{
    let text = name.bytes();
    let len = text.len();
    let mut field = [0; 16];
    field[0] = len as u8;
    field[1..=len].copy_from_slice(text);
    field
}

// A run's start and its length.
fn run_field(run: Span) -> [u8; 8]
    ensures { result ≡ run_bytes run }
{
    let mut field = [0; 8];
    NetworkEndian::write_u32(&mut field, run.start);
    NetworkEndian::write_u32(&mut field[4..], run.len);
    field
}

// Writes the runs from a place on.
fn put_runs(block: &mut [u8], at: usize, runs: &[Span])
    requires { at + 8 * length runs.now ≤ length block.old }
    ensures { block.new ≡ take at block.old ++
        (flat_map run_bytes runs.now ++ drop (at + 8 * length runs.now) block.old) }
{
    let mut place = at;
    for run in runs {
        place = put(block, place, &run_field(*run));
    }
}

/// The block of a slot in use: the one spelling of its area.
pub fn slot_block(slot: &Slot) -> [u8; 512]
    ensures { result ≡ area_bytes (stated slot.now) }
{
    let runs = slot.spans.as_slice();
    let mut block = [0; 512];
    let at = put(&mut block, 0, b"VSA1");
    let at = put(&mut block, at, &[number_of(slot.kind), runs.len() as u8]);
    let at = put(&mut block, at, &name_field(&slot.app));
    let at = put(&mut block, at, &name_field(&slot.label));
    put_runs(&mut block, at, runs);
    block
}
