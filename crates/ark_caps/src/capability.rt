/// What kind of object a label stands for.
#[derive(Clone, Copy, Debug, PartialEq, Eq)]
pub enum CapKind {
    /// A virtual storage card.
    Vsic,
    /// A virtual network card.
    Vnic,
    /// A storage area.
    Vsa,
    /// A filter of frames.
    Filter,
    /// A rate of commands or bytes.
    Rate,
    /// A doorbell.
    Door,
    /// A buffer in the application's memory.
    Buf,
    /// A socket.
    Sock,
}

/// The right to one object.
#[derive(Clone, Copy, Debug, PartialEq, Eq)]
pub struct Capability {
    /// What kind of object it is.
    pub kind: CapKind,
    /// The number of the grant. No other grant of the run has it.
    pub grant: u64,
    /// Where the object stands among those of its kind; 0 for an area or a filter.
    pub key: u32,
}
