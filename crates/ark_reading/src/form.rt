//! A word and what stands behind it.

ghost use Rattle.std.specs.Prelude.{◌≡◌, []};
ghost use Rattle.ark_script.specs.Line.{line_of};
ghost use Rattle.ark_script.specs.Words.{parts_of, words_of};
ghost use Rattle.ark_forms.specs.Reading.{Gives};
ghost use Rattle.ark_reading.specs.Shape.{line_read};
ghost use Rattle.ark_reading.specs.Meant.{Means, meaning_of, sentence_meaning};

use crate::filter::filter;
use crate::shape::{count, entry, length, pair, queued, range, transfer, triple, write};
use crate::single::{app, nic, sendto, take, tick, vnic, vsa, vsic, wire};
use crate::word::{Word, read_word};
use ark_base::Refusal;
use ark_forms::split_once;
use ark_script::Step;

// What a word asks for with the words behind it.
fn read_arguments(word: Word, args: &[u8]) -> Option<Step<'_>>
    ensures { Gives line_of result (line_read word (parts_of 32 args.now)) }
{
    match word {
        Word::Pair(word) => pair(word, args),
        Word::Triple(word) => triple(word, args),
        Word::Count(word) => count(word, args),
        Word::Length(word) => length(word, args),
        Word::Range(word) => range(word, args),
        Word::Queue(word) => queued(word, args),
        Word::Transfer(word) => transfer(word, args),
        Word::Entry(word) => entry(word, args),
        Word::Write(word) => write(word, args),
        Word::Nic => nic(args),
        Word::App => app(args),
        Word::Vsic => vsic(args),
        Word::Vnic => vnic(args),
        Word::Vsa => vsa(args),
        Word::Filter => filter(args),
        Word::Take => take(args),
        Word::Sendto => sendto(args),
        Word::Wire => wire(args),
        Word::Tick => tick(args),
    }
}

// What a first word asks for with the words behind it, or why it is refused.
fn read_sentence<'a>(first: &[u8], args: &'a [u8]) -> Result<Step<'a>, Refusal>
    ensures { Means result (sentence_meaning first.now (parts_of 32 args.entry.now)) }
{
    match read_word(first) {
        Some(word) => match read_arguments(word, args) {
            Some(step) => Ok(step),
            None => Err(Refusal::Syntax),
        },
        None => Err(Refusal::UnknownWord),
    }
}

// Why a line of one word is refused: no word stands alone.
fn refuse_alone(word: &[u8]) -> Refusal
    ensures { sentence_meaning word.now [] ≡ Err result }
{
    match read_word(word) {
        Some(_) => Refusal::Syntax,
        None => Refusal::UnknownWord,
    }
}

// What a line asks for, or why it is refused.
pub(super) fn read(line: &[u8]) -> Result<Step<'_>, Refusal>
    ensures { Means result (meaning_of (words_of line.now)) }
{
    match split_once(line, b' ') {
        Some((first, args)) => read_sentence(first, args),
        None => Err(refuse_alone(line)),
    }
}
