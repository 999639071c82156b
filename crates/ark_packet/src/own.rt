/// The addresses of this end, each as its octets in the order of the wire.
#[derive(Clone, Copy, Debug, PartialEq, Eq)]
pub struct Own {
    /// The MAC address of this end's card.
    pub mac: [u8; 6],
    /// The IPv4 address of this end.
    pub ip: [u8; 4],
    /// The MAC address that every frame of this end is sent to.
    pub gateway: [u8; 6],
}
