ghost use Rattle.std.specs.Prelude.{◌≡◌};
ghost use Rattle.ark_filters.specs.Layer.{layer_of, HasPorts};

use crate::filter::Proto;

/// What a filter looks for, by what its services are numbers of.
#[derive(Clone, Copy, Debug, PartialEq, Eq)]
pub enum Layer {
    /// Types of Ethernet.
    Types,
    /// Protocols of IPv4.
    Protocols,
    /// Ports of one protocol of IPv4: its number, and how many bytes its header has at least.
    Ports { number: u8, least: usize },
}

impl Proto {
    // Its layer: UDP is protocol 17 with a header of 8 bytes, TCP protocol 6 with one of 20 bytes at least.
    pub(crate) fn layer(self) -> Layer
        ensures layer { result ≡ layer_of self }
        ensures ports { HasPorts result }
    {
        match self {
            Proto::Eth => Layer::Types,
            Proto::Ip => Layer::Protocols,
            Proto::Udp => Layer::Ports {
                number: 17,
                least: 8,
            },
            Proto::Tcp => Layer::Ports {
                number: 6,
                least: 20,
            },
        }
    }
}
