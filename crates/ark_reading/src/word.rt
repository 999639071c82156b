//! The words of the language.

ghost use Rattle.std.specs.Prelude.{◌≡◌};
ghost use Rattle.ark_reading.specs.Word.{word_at};

// Words with a name and a label: `A x`.
#[derive(Clone, Copy)]
pub(super) enum PairWord {
    Door,
    Drop,
    Free,
    Flush,
    Reap,
    Recv,
    Look,
    Pop,
    Poll,
    Settle,
    Close,
    Dev,
}

// Words with a name and two labels: `A x y`.
#[derive(Clone, Copy)]
pub(super) enum TripleWord {
    Bind,
    Unbind,
    Assign,
    Post,
    Log,
    Queue,
}

// Words with a name, a label and a number: `A x N`.
#[derive(Clone, Copy)]
pub(super) enum CountWord {
    Grow,
    Buf,
    Peek,
    Trim,
    Walk,
}

// Words with a name, two labels and a number: `A x y N`.
#[derive(Clone, Copy)]
pub(super) enum LengthWord {
    Copy,
    Send,
    Sock,
}

// Words with a name, a label and two numbers: `A x N N`.
#[derive(Clone, Copy)]
pub(super) enum RangeWord {
    Rate,
    Show,
}

// Words about a queue of a card, with a label or none: `A v r QUEUE`.
#[derive(Clone, Copy)]
pub(super) enum QueueWord {
    Pace,
    Watch,
}

// Words that move blocks: `A v s OFF COUNT b`.
#[derive(Clone, Copy)]
pub(super) enum TransferWord {
    Get,
    Put,
}

// Words that append an entry: `A s HEX0`.
#[derive(Clone, Copy)]
pub(super) enum EntryWord {
    Append,
    Push,
}

// Words that write bytes at a place: `A b OFF HEX`.
#[derive(Clone, Copy)]
pub(super) enum WriteWord {
    Fill,
    Poke,
}

// A word, by the form of what stands behind it. The word `use` is `Assign`.
#[derive(Clone, Copy)]
pub(super) enum Word {
    Pair(PairWord),
    Triple(TripleWord),
    Count(CountWord),
    Length(LengthWord),
    Range(RangeWord),
    Queue(QueueWord),
    Transfer(TransferWord),
    Entry(EntryWord),
    Write(WriteWord),
    Nic,
    App,
    Vsic,
    Vnic,
    Vsa,
    Filter,
    Take,
    Sendto,
    Wire,
    Tick,
}

// The word that bytes spell.
#[tactic(auto, unfolding(crate::specs::Word::word_at))]
pub(super) fn read_word(word: &[u8]) -> Option<Word>
    ensures { word_at word.now ≡ result }
{
    match word {
        b"nic" => Some(Word::Nic),
        b"app" => Some(Word::App),
        b"vsic" => Some(Word::Vsic),
        b"vnic" => Some(Word::Vnic),
        b"vsa" => Some(Word::Vsa),
        b"grow" => Some(Word::Count(CountWord::Grow)),
        b"bind" => Some(Word::Triple(TripleWord::Bind)),
        b"unbind" => Some(Word::Triple(TripleWord::Unbind)),
        b"filter" => Some(Word::Filter),
        b"use" => Some(Word::Triple(TripleWord::Assign)),
        b"rate" => Some(Word::Range(RangeWord::Rate)),
        b"pace" => Some(Word::Queue(QueueWord::Pace)),
        b"door" => Some(Word::Pair(PairWord::Door)),
        b"watch" => Some(Word::Queue(QueueWord::Watch)),
        b"drop" => Some(Word::Pair(PairWord::Drop)),
        b"buf" => Some(Word::Count(CountWord::Buf)),
        b"fill" => Some(Word::Write(WriteWord::Fill)),
        b"show" => Some(Word::Range(RangeWord::Show)),
        b"copy" => Some(Word::Length(LengthWord::Copy)),
        b"free" => Some(Word::Pair(PairWord::Free)),
        b"peek" => Some(Word::Count(CountWord::Peek)),
        b"poke" => Some(Word::Write(WriteWord::Poke)),
        b"get" => Some(Word::Transfer(TransferWord::Get)),
        b"put" => Some(Word::Transfer(TransferWord::Put)),
        b"flush" => Some(Word::Pair(PairWord::Flush)),
        b"reap" => Some(Word::Pair(PairWord::Reap)),
        b"post" => Some(Word::Triple(TripleWord::Post)),
        b"send" => Some(Word::Length(LengthWord::Send)),
        b"take" => Some(Word::Take),
        b"sock" => Some(Word::Length(LengthWord::Sock)),
        b"sendto" => Some(Word::Sendto),
        b"recv" => Some(Word::Pair(PairWord::Recv)),
        b"look" => Some(Word::Pair(PairWord::Look)),
        b"log" => Some(Word::Triple(TripleWord::Log)),
        b"queue" => Some(Word::Triple(TripleWord::Queue)),
        b"append" => Some(Word::Entry(EntryWord::Append)),
        b"push" => Some(Word::Entry(EntryWord::Push)),
        b"trim" => Some(Word::Count(CountWord::Trim)),
        b"pop" => Some(Word::Pair(PairWord::Pop)),
        b"walk" => Some(Word::Count(CountWord::Walk)),
        b"poll" => Some(Word::Pair(PairWord::Poll)),
        b"settle" => Some(Word::Pair(PairWord::Settle)),
        b"close" => Some(Word::Pair(PairWord::Close)),
        b"dev" => Some(Word::Pair(PairWord::Dev)),
        b"wire" => Some(Word::Wire),
        b"tick" => Some(Word::Tick),
        _ => None,
    }
}
