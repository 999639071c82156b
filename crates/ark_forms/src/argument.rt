//! Words as arguments.

ghost use Rattle.std.specs.Prelude.{◌≡◌};
ghost use Rattle.ark_forms.specs.Reading.{name_of, optional_of, kind_of, side_of, direction_of, proto_of};

use ark_base::{Kind, Name};
use ark_filters::{Direction, Proto};
use ark_script::Side;

/// A name.
#[tactic(auto, unfolding(crate::specs::Reading::name_of))]
pub fn name(word: &[u8]) -> Option<Name>
    ensures { name_of word.now ≡ result }
{
    Name::read(word)
}

/// A kind of area: `raw`, `log` or `queue`.
#[tactic(auto, unfolding(crate::specs::Reading::kind_of))]
pub fn kind(word: &[u8]) -> Option<Kind>
    ensures { kind_of word.now ≡ result }
{
    match word {
        b"raw" => Some(Kind::Raw),
        b"log" => Some(Kind::Log),
        b"queue" => Some(Kind::Queue),
        _ => None,
    }
}

/// A queue of a card: `rx`, `tx` or `io`.
#[tactic(auto, unfolding(crate::specs::Reading::side_of))]
pub fn side(word: &[u8]) -> Option<Side>
    ensures { side_of word.now ≡ result }
{
    match word {
        b"rx" => Some(Side::Rx),
        b"tx" => Some(Side::Tx),
        b"io" => Some(Side::Io),
        _ => None,
    }
}

/// A direction: `rx` or `tx`.
#[tactic(auto, unfolding(crate::specs::Reading::direction_of))]
pub fn direction(word: &[u8]) -> Option<Direction>
    ensures { direction_of word.now ≡ result }
{
    match word {
        b"rx" => Some(Direction::Rx),
        b"tx" => Some(Direction::Tx),
        _ => None,
    }
}

/// A protocol: `eth`, `ip`, `udp` or `tcp`.
#[tactic(auto, unfolding(crate::specs::Reading::proto_of))]
pub fn proto(word: &[u8]) -> Option<Proto>
    ensures { proto_of word.now ≡ result }
{
    match word {
        b"eth" => Some(Proto::Eth),
        b"ip" => Some(Proto::Ip),
        b"udp" => Some(Proto::Udp),
        b"tcp" => Some(Proto::Tcp),
        _ => None,
    }
}

/// A name, or `-` for none.
#[tactic(auto, unfolding(crate::specs::Reading::optional_of))]
pub fn optional_name(word: &[u8]) -> Option<Option<Name>>
    ensures { optional_of word.now ≡ result }
{
    if word == b"-".as_slice() {
        return Some(None);
    }
    let name = name(word)?;
    Some(Some(name))
}
