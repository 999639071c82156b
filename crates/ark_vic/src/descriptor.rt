use ark_base::Outcome;
use ark_region::Buf;

/// What a descriptor asks of a card.
#[derive(Clone, Copy, Debug, PartialEq, Eq)]
pub enum Job {
    /// To read blocks of a storage area into the buffer.
    Read,
    /// To write blocks of a storage area from the buffer.
    Write,
    /// To write zeros to blocks of a storage area.
    Zero,
    /// To make what was written durable.
    Sync,
    /// To receive a frame into the buffer.
    Receive,
    /// To send the frame in the buffer.
    Send,
}

/// A piece of work that an application posts. It owns its buffer while it is posted.
#[derive(Drop, Debug)]
pub struct Descriptor {
    pub job: Job,
    /// The grant number of the storage area.
    pub grant: u64,
    /// The block of the area where the work starts.
    pub first: u32,
    /// How many blocks of 512 bytes.
    pub count: u32,
    /// The block that follows the area's last, or 0 for none.
    pub wrap: u32,
    /// The first byte of the buffer that is used.
    pub from: u32,
    /// The length of a frame in bytes.
    pub len: u32,
    /// The application's own mark, which its completion carries.
    pub tag: u32,
    pub buf: Option<Buf>,
}

/// A descriptor that has ended, with its buffer.
#[derive(Drop, Debug)]
pub struct Completion {
    pub job: Job,
    /// The mark of the descriptor.
    pub tag: u32,
    pub outcome: Outcome,
    /// The length of a frame in bytes.
    pub len: u32,
    pub buf: Option<Buf>,
}
