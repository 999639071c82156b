ghost use Rattle.std.specs.Prelude.{◌≡◌, ◌++◌, length, replicate, bytes_eq, IfOk};
ghost use Rattle.ark_entry.specs.Header as spec;
ghost use Rattle.ark_entry.specs.Stated.{stated, stated_if};

use ark_base::Kind;
use byteorder::{ByteOrder, NetworkEndian};

// The sum of a header's first number and its count is at most this.
const AFTER_LAST: u128 = (1 << 62) + 1;

/// The header of a log or queue: the number of its first entry, the entry's place in the ring, how many entries at least there
/// are, and the place behind them. Places are blocks of the ring, counted from 0.
#[derive(Clone, Copy, Debug)]
pub struct ChainHead {
    pub kind: Kind,
    pub first: u64,
    pub start: u32,
    pub count: u32,
    pub end: u32,
}

/// The block is none of a header.
#[derive(Clone, Copy, Debug)]
pub struct BadHead;

fn number_of(kind: Kind) -> u8
    ensures { result ≡ spec.kind_number kind }
{
    match kind {
        Kind::Raw => 1,
        Kind::Log => 2,
        Kind::Queue => 3,
    }
}

// The fields of a header, which zeros follow to the end of its block.
fn field_bytes(head: &ChainHead) -> [u8; 28]
    ensures { result ++ replicate 484 0 ≡ spec.bytes_of head.now.kind (stated head.now) }
{
    let mut bytes = [0; 28];
    bytes[..4].copy_from_slice(b"CAL1");
    bytes[4] = number_of(head.kind);
    NetworkEndian::write_u16(&mut bytes[6..], 512);
    NetworkEndian::write_u64(&mut bytes[8..], head.first);
    NetworkEndian::write_u32(&mut bytes[16..], head.start);
    NetworkEndian::write_u32(&mut bytes[20..], head.count);
    NetworkEndian::write_u32(&mut bytes[24..], head.end);
    bytes
}

/// Writes the block of a header: the one spelling of its fields.
pub fn write_header(out: &mut [u8], head: &ChainHead)
    requires { length out.old ≡ 512 }
    ensures { out.new ≡ spec.bytes_of head.now.kind (stated head.now) }
{
    out[..28].copy_from_slice(&field_bytes(head));
    out[28..].fill(0);
}

// The fields of a block, by their places.
fn head_in(block: &[u8; 512], kind: Kind) -> ChainHead
    ensures kind { result.kind ≡ kind }
    ensures fields { stated result ≡ spec.header_in block.now }
{
    ChainHead {
        kind,
        first: NetworkEndian::read_u64(&block[8..16]),
        start: NetworkEndian::read_u32(&block[16..20]),
        count: NetworkEndian::read_u32(&block[20..24]),
        end: NetworkEndian::read_u32(&block[24..28]),
    }
}

// Whether the fields are right for a ring of so many blocks.
fn is_right(head: &ChainHead, ring: u32) -> bool
    ensures { result ≡ spec.is_header ring (stated head.now) }
{
    let after = u128::from(head.first) + u128::from(head.count);
    head.first >= 1
        && head.start < ring
        && head.count <= ring
        && head.end < ring
        && after <= AFTER_LAST
}

/// Whether the block has zeros alone.
pub fn is_zero(block: &[u8; 512]) -> bool
    ensures { result ≡ spec.is_zero block.now }
{
    block.iter().all(|byte| *byte == 0)
}

// Whether the block is the spelling of these fields.
fn is_spelled(block: &[u8; 512], head: &ChainHead) -> bool
    ensures { result ≡ bytes_eq block.now (spec.bytes_of head.now.kind (stated head.now)) }
{
    let mut spelling = [0; 512];
    write_header(&mut spelling, head);
    *block == spelling
}

/// The header that a block says, for a kind and a ring of so many blocks. A block of zeros says that of an empty ring, from
/// number 1 on. `BadHead` comes where the block is neither zeros nor the spelling of a header that is right for the ring.
pub fn read_header(block: &[u8; 512], kind: Kind, ring: u32) -> Result<ChainHead, BadHead>
    ensures kind { IfOk result (λ head. head.kind ≡ kind) }
    ensures read { stated_if result ≡ spec.header_of kind ring block.now }
{
    if is_zero(block) {
        return Ok(ChainHead {
            kind,
            first: 1,
            start: 0,
            count: 0,
            end: 0,
        });
    }
    let head = head_in(block, kind);
    if is_right(&head, ring) && is_spelled(block, &head) {
        Ok(head)
    } else {
        Err(BadHead)
    }
}
