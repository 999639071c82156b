ghost use Rattle.std.specs.Prelude.{◌≡◌};
ghost use Rattle.ark_script.specs.Attributes.{attributes};
ghost use Rattle.ark_script.specs.Line.{line_of};

use crate::step::Step;

/// What the words of a line are about.
#[derive(Clone, Copy, Debug, PartialEq, Eq)]
pub enum Group {
    /// Applications, areas and time: `app`, `vsa`, `grow`, `drop`, `tick`.
    Control,
    /// An application's own blocks and buffers: `buf`, `fill`, `show`, `copy`, `free`, `peek`, `poke`.
    Memory,
    /// Storage cards, and a card's move: `vsic`, `bind`, `unbind`, `get`, `put`, `flush`, `reap`, `dev`.
    Cards,
    /// Logs and queues: `log`, `queue`, `append`, `push`, `trim`, `pop`, `walk`, `poll`, `settle`, `close`.
    Logs,
    /// Addresses, network cards, filters and frames: `nic`, `vnic`, `filter`, `use`, `post`, `send`, `take`, `wire`.
    Network,
    /// Rates and doorbells: `rate`, `pace`, `door`, `watch`, `look`.
    Rates,
    /// Sockets: `sock`, `sendto`, `recv`.
    Sockets,
}

impl Step<'_> {
    /// The group of its word.
    pub fn group(&self) -> Group
        ensures { result ≡ (attributes (line_of self.now)).group }
    {
        match self {
            Step::App(..) | Step::Vsa(..) | Step::Grow(..) | Step::Drop(..) | Step::Tick(..) =>
                Group::Control,
            Step::Buf(..)
            | Step::Fill(..)
            | Step::Show(..)
            | Step::Copy(..)
            | Step::Free(..)
            | Step::Peek(..)
            | Step::Poke(..) => Group::Memory,
            Step::Vsic(..)
            | Step::Bind(..)
            | Step::Unbind(..)
            | Step::Get(..)
            | Step::Put(..)
            | Step::Flush(..)
            | Step::Reap(..)
            | Step::Dev(..) => Group::Cards,
            Step::Log(..)
            | Step::Queue(..)
            | Step::Append(..)
            | Step::Push(..)
            | Step::Trim(..)
            | Step::Pop(..)
            | Step::Walk(..)
            | Step::Poll(..)
            | Step::Settle(..)
            | Step::Close(..) => Group::Logs,
            Step::Nic(..)
            | Step::Vnic(..)
            | Step::Filter(..)
            | Step::Assign(..)
            | Step::Post(..)
            | Step::Send(..)
            | Step::Take(..)
            | Step::Wire(..) => Group::Network,
            Step::Rate(..) | Step::Pace(..) | Step::Door(..) | Step::Watch(..) | Step::Look(..) =>
                Group::Rates,
            Step::Sock(..) | Step::Sendto(..) | Step::Recv(..) => Group::Sockets,
        }
    }
}
