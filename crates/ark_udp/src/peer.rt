/// The other end of a datagram.
#[derive(Clone, Copy, Debug, PartialEq, Eq)]
pub struct Peer {
    /// Its IPv4 address, as octets in the order of the wire.
    pub ip: [u8; 4],
    /// Its UDP port.
    pub port: u16,
}

// Who sent a datagram that is kept, and how many bytes its payload has.
#[derive(Clone, Copy)]
pub(crate) struct Head {
    pub(crate) from: Peer,
    pub(crate) len: u32,
}
