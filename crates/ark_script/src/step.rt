ghost use Rattle.std.specs.Prelude.{◌≡◌, ◌*◌, ◌/◌, true, length};
ghost use Rattle.std.specs.List.{list_all};
ghost use Rattle.hex.specs.Hex.{is_hex_digit};

use ark_base::{AppName, Kind, Label};
use ark_filters::{Direction, Filter};
use ark_packet::Own;

/// Bytes as a line spells them: two hex digits of either case for each byte. No digits stand for no bytes.
#[derive(Clone, Copy, Debug)]
pub struct Hex<'a> {
    /// The digits, in the order of the line.
    pub digits: &'a [u8],
    ghost hex: { list_all is_hex_digit digits.now ≡ true },
    ghost even: { length digits.now ≡ 2 * (length digits.now / 2) },
}

/// A queue of a card.
#[derive(Clone, Copy, Debug, PartialEq, Eq)]
pub enum Side {
    /// Frames that come in.
    Rx,
    /// Frames that go out.
    Tx,
    /// Blocks of storage.
    Io,
}

/// What a line of a script asks for: its word, and then its arguments in the order of the word's form.
#[derive(Clone, Copy, Debug)]
pub enum Step<'a> {
    /// `nic MAC IP MAC`: the addresses of this end.
    Nic(Own),
    /// `app A` or `app A F`: makes an application, with so many frames of memory.
    App(AppName, Option<u64>),
    /// `vsic A v SIZE`: a storage card.
    Vsic(AppName, Label, u64),
    /// `vnic A v SIZE SIZE`: a network card, by the sizes of its receive and transmit rings.
    Vnic(AppName, Label, u64, u64),
    /// `vsa A s N KIND`: an area of so many blocks.
    Vsa(AppName, Label, u64, Kind),
    /// `grow A s N`: so many blocks more.
    Grow(AppName, Label, u64),
    /// `bind A v s`: the card may reach the area.
    Bind(AppName, Label, Label),
    /// `unbind A v s`: it may not any more.
    Unbind(AppName, Label, Label),
    /// `filter A f DIR PROTO PEERS SERVICES`: a filter.
    Filter(AppName, Label, Filter),
    /// `use A v f`: assigns the filter to the card.
    Assign(AppName, Label, Label),
    /// `rate A r Q B`: a rate, in bytes a tick and bytes of a burst.
    Rate(AppName, Label, u64, u64),
    /// `pace A v r QUEUE`: the rate of a queue, or none.
    Pace(AppName, Label, Option<Label>, Side),
    /// `door A d`: a doorbell.
    Door(AppName, Label),
    /// `watch A v d QUEUE`: the doorbell of a queue, or none.
    Watch(AppName, Label, Option<Label>, Side),
    /// `drop A x`: gives an object up.
    Drop(AppName, Label),
    /// `buf A b LEN`: a buffer of so many bytes.
    Buf(AppName, Label, u64),
    /// `fill A b OFF HEX`: writes bytes into a buffer.
    Fill(AppName, Label, u64, Hex<'a>),
    /// `show A b OFF LEN`: shows bytes of a buffer.
    Show(AppName, Label, u64, u64),
    /// `copy A b c LEN`: copies the first bytes of a buffer to another.
    Copy(AppName, Label, Label, u64),
    /// `free A b`: gives a buffer back.
    Free(AppName, Label),
    /// `peek A s OFF`: reads one block.
    Peek(AppName, Label, u64),
    /// `poke A s OFF HEX`: writes one block.
    Poke(AppName, Label, u64, Hex<'a>),
    /// `get A v s OFF COUNT b`: posts a read of so many blocks.
    Get(AppName, Label, Label, u64, u64, Label),
    /// `put A v s OFF COUNT b`: posts a write of so many blocks.
    Put(AppName, Label, Label, u64, u64, Label),
    /// `flush A v`: posts a sync.
    Flush(AppName, Label),
    /// `reap A v`: takes the oldest finished descriptor of a storage card.
    Reap(AppName, Label),
    /// `post A v b`: posts a buffer to receive.
    Post(AppName, Label, Label),
    /// `send A v b LEN`: posts a frame of so many bytes to transmit.
    Send(AppName, Label, Label, u64),
    /// `take A v rx` or `take A v tx`: takes the oldest finished descriptor of a network card's ring.
    Take(AppName, Label, Direction),
    /// `sock A k v PORT`: a socket.
    Sock(AppName, Label, Label, u64),
    /// `sendto A k IP PORT HEX0`: sends a datagram.
    Sendto(AppName, Label, [u8; 4], u64, Hex<'a>),
    /// `recv A k`: takes the oldest datagram of a socket.
    Recv(AppName, Label),
    /// `look A d`: the rings of a doorbell since the last look.
    Look(AppName, Label),
    /// `log A s v`: opens a log on a card.
    Log(AppName, Label, Label),
    /// `queue A s v`: opens a queue on a card.
    Queue(AppName, Label, Label),
    /// `append A s HEX0`: an entry for a log.
    Append(AppName, Label, Hex<'a>),
    /// `push A s HEX0`: an entry for a queue.
    Push(AppName, Label, Hex<'a>),
    /// `trim A s N`: drops a log's entries below a number.
    Trim(AppName, Label, u64),
    /// `pop A s`: drops a queue's first entry and gives it.
    Pop(AppName, Label),
    /// `walk A s N`: shows an entry.
    Walk(AppName, Label, u64),
    /// `poll A s`: what became of the oldest command.
    Poll(AppName, Label),
    /// `settle A s`: polls and moves until the oldest command is acknowledged.
    Settle(AppName, Label),
    /// `close A s`: closes a log or queue.
    Close(AppName, Label),
    /// `dev A v`: one move of a card.
    Dev(AppName, Label),
    /// `wire HEX`: a frame arrives.
    Wire(Hex<'a>),
    /// `tick N`: time goes on by so many ticks.
    Tick(u64),
}
