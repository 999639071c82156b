//! What stands behind a word, by its form.

ghost use Rattle.std.specs.Prelude.{◌≡◌};
ghost use Rattle.ark_script.specs.Line.{line_of};
ghost use Rattle.ark_script.specs.Words.{parts_of};
ghost use Rattle.ark_forms.specs.Reading.{Gives};
ghost use Rattle.ark_reading.specs.Shape as spec;

use crate::word::{
    CountWord, EntryWord, LengthWord, PairWord, QueueWord, RangeWord, TransferWord, TripleWord,
    WriteWord,
};
use ark_forms::{four, hex, hex0, name, number, optional_name, side, six, three, two};
use ark_script::Step;

// The most blocks of an area.
pub(super) const MOST_BLOCKS: u64 = 1_048_447;

pub(super) const BILLION: u64 = 1_000_000_000;

// The last place of a block, and of a byte.
const LAST_PLACE: u64 = 4_294_967_295;

// The last number of an entry.
const LAST_ENTRY: u64 = 9_223_372_036_854_775_808;

// `A x`
#[tactic(auto, unfolding(crate::specs::Sentence::two_read, crate::specs::Shape::read_pair))]
#[inline(never)]
pub(super) fn pair(word: PairWord, args: &[u8]) -> Option<Step<'_>>
    ensures { Gives line_of result (spec.read_pair word (parts_of 32 args.now)) }
{
    let (a, x) = two(args, b' ')?;
    let a = name(a)?;
    let x = name(x)?;
    match word {
        PairWord::Door => Some(Step::Door(a, x)),
        PairWord::Drop => Some(Step::Drop(a, x)),
        PairWord::Free => Some(Step::Free(a, x)),
        PairWord::Flush => Some(Step::Flush(a, x)),
        PairWord::Reap => Some(Step::Reap(a, x)),
        PairWord::Recv => Some(Step::Recv(a, x)),
        PairWord::Look => Some(Step::Look(a, x)),
        PairWord::Pop => Some(Step::Pop(a, x)),
        PairWord::Poll => Some(Step::Poll(a, x)),
        PairWord::Settle => Some(Step::Settle(a, x)),
        PairWord::Close => Some(Step::Close(a, x)),
        PairWord::Dev => Some(Step::Dev(a, x)),
    }
}

// `A x y`
#[tactic(auto, unfolding(crate::specs::Sentence::three_read, crate::specs::Shape::read_triple))]
#[inline(never)]
pub(super) fn triple(word: TripleWord, args: &[u8]) -> Option<Step<'_>>
    ensures { Gives line_of result (spec.read_triple word (parts_of 32 args.now)) }
{
    let (a, x, y) = three(args, b' ')?;
    let a = name(a)?;
    let x = name(x)?;
    let y = name(y)?;
    match word {
        TripleWord::Bind => Some(Step::Bind(a, x, y)),
        TripleWord::Unbind => Some(Step::Unbind(a, x, y)),
        TripleWord::Assign => Some(Step::Assign(a, x, y)),
        TripleWord::Post => Some(Step::Post(a, x, y)),
        TripleWord::Log => Some(Step::Log(a, x, y)),
        TripleWord::Queue => Some(Step::Queue(a, x, y)),
    }
}

// The lowest and the highest number.
fn count_range(word: CountWord) -> (u64, u64)
    ensures { result ≡ spec.count_range word }
{
    match word {
        CountWord::Grow => (1, MOST_BLOCKS),
        CountWord::Buf => (1, 65_536),
        CountWord::Peek => (0, LAST_PLACE),
        CountWord::Trim => (1, LAST_ENTRY),
        CountWord::Walk => (1, LAST_ENTRY),
    }
}

// `A x N`
#[tactic(auto, unfolding(crate::specs::Sentence::three_read, crate::specs::Shape::read_count))]
#[inline(never)]
pub(super) fn count(word: CountWord, args: &[u8]) -> Option<Step<'_>>
    ensures { Gives line_of result (spec.read_count word (parts_of 32 args.now)) }
{
    let (low, high) = count_range(word);
    let (a, x, n) = three(args, b' ')?;
    let a = name(a)?;
    let x = name(x)?;
    let n = number(n, low, high)?;
    match word {
        CountWord::Grow => Some(Step::Grow(a, x, n)),
        CountWord::Buf => Some(Step::Buf(a, x, n)),
        CountWord::Peek => Some(Step::Peek(a, x, n)),
        CountWord::Trim => Some(Step::Trim(a, x, n)),
        CountWord::Walk => Some(Step::Walk(a, x, n)),
    }
}

// The lowest and the highest number.
fn length_range(word: LengthWord) -> (u64, u64)
    ensures { result ≡ spec.length_range word }
{
    match word {
        LengthWord::Copy => (1, 65_536),
        LengthWord::Send => (14, 1_514),
        LengthWord::Sock => (0, 65_535),
    }
}

// `A x y N`
#[tactic(auto, unfolding(crate::specs::Sentence::four_read, crate::specs::Shape::read_length))]
#[inline(never)]
pub(super) fn length(word: LengthWord, args: &[u8]) -> Option<Step<'_>>
    ensures { Gives line_of result (spec.read_length word (parts_of 32 args.now)) }
{
    let (low, high) = length_range(word);
    let (a, x, y, n) = four(args, b' ')?;
    let a = name(a)?;
    let x = name(x)?;
    let y = name(y)?;
    let n = number(n, low, high)?;
    match word {
        LengthWord::Copy => Some(Step::Copy(a, x, y, n)),
        LengthWord::Send => Some(Step::Send(a, x, y, n)),
        LengthWord::Sock => Some(Step::Sock(a, x, y, n)),
    }
}

// The highest numbers.
fn range_most(word: RangeWord) -> (u64, u64)
    ensures { result ≡ spec.range_most word }
{
    match word {
        RangeWord::Rate => (BILLION, BILLION),
        RangeWord::Show => (LAST_PLACE, 1_514),
    }
}

// `A x N N`
#[tactic(auto, unfolding(crate::specs::Sentence::four_read, crate::specs::Shape::read_range))]
#[inline(never)]
pub(super) fn range(word: RangeWord, args: &[u8]) -> Option<Step<'_>>
    ensures { Gives line_of result (spec.read_range word (parts_of 32 args.now)) }
{
    let (first, second) = range_most(word);
    let (a, x, m, n) = four(args, b' ')?;
    let a = name(a)?;
    let x = name(x)?;
    let m = number(m, 0, first)?;
    let n = number(n, 1, second)?;
    match word {
        RangeWord::Rate => Some(Step::Rate(a, x, m, n)),
        RangeWord::Show => Some(Step::Show(a, x, m, n)),
    }
}

// `A v r QUEUE`
#[tactic(auto, unfolding(crate::specs::Sentence::four_read, crate::specs::Shape::read_queued))]
#[inline(never)]
pub(super) fn queued(word: QueueWord, args: &[u8]) -> Option<Step<'_>>
    ensures { Gives line_of result (spec.read_queued word (parts_of 32 args.now)) }
{
    let (a, v, r, queue) = four(args, b' ')?;
    let a = name(a)?;
    let v = name(v)?;
    let r = optional_name(r)?;
    let queue = side(queue)?;
    match word {
        QueueWord::Pace => Some(Step::Pace(a, v, r, queue)),
        QueueWord::Watch => Some(Step::Watch(a, v, r, queue)),
    }
}

// `A v s OFF COUNT b`
#[tactic(auto, unfolding(crate::specs::Sentence::six_read, crate::specs::Shape::read_transfer))]
#[inline(never)]
pub(super) fn transfer(word: TransferWord, args: &[u8]) -> Option<Step<'_>>
    ensures { Gives line_of result (spec.read_transfer word (parts_of 32 args.now)) }
{
    let (a, v, s, place, count, b) = six(args, b' ')?;
    let a = name(a)?;
    let v = name(v)?;
    let s = name(s)?;
    let place = number(place, 0, LAST_PLACE)?;
    let count = number(count, 1, 128)?;
    let b = name(b)?;
    match word {
        TransferWord::Get => Some(Step::Get(a, v, s, place, count, b)),
        TransferWord::Put => Some(Step::Put(a, v, s, place, count, b)),
    }
}

// `A s HEX0`
#[tactic(auto, unfolding(crate::specs::Sentence::three_read, crate::specs::Shape::read_entry))]
#[inline(never)]
pub(super) fn entry(word: EntryWord, args: &[u8]) -> Option<Step<'_>>
    ensures { Gives line_of result (spec.read_entry word (parts_of 32 args.now)) }
{
    let (a, s, bytes) = three(args, b' ')?;
    let a = name(a)?;
    let s = name(s)?;
    let bytes = hex0(bytes, 32_768)?;
    match word {
        EntryWord::Append => Some(Step::Append(a, s, bytes)),
        EntryWord::Push => Some(Step::Push(a, s, bytes)),
    }
}

// The highest place, and the most bytes.
fn write_most(word: WriteWord) -> (u64, usize)
    ensures { result ≡ spec.write_most word }
{
    match word {
        WriteWord::Fill => (65_535, 66_000),
        WriteWord::Poke => (LAST_PLACE, 512),
    }
}

// `A b OFF HEX`
#[tactic(auto, unfolding(crate::specs::Sentence::four_read, crate::specs::Shape::read_write))]
#[inline(never)]
pub(super) fn write(word: WriteWord, args: &[u8]) -> Option<Step<'_>>
    ensures { Gives line_of result (spec.read_write word (parts_of 32 args.now)) }
{
    let (last, most) = write_most(word);
    let (a, x, place, bytes) = four(args, b' ')?;
    let a = name(a)?;
    let x = name(x)?;
    let place = number(place, 0, last)?;
    let bytes = hex(bytes, 1, most)?;
    match word {
        WriteWord::Fill => Some(Step::Fill(a, x, place, bytes)),
        WriteWord::Poke => Some(Step::Poke(a, x, place, bytes)),
    }
}
