ghost use Rattle.std.specs.Prelude.{◌≡◌, ◌≤◌, ◌*◌, ℕ, length, IfSome};
ghost use Rattle.ark_entry.specs.Entry as spec;
ghost use Rattle.ark_entry.specs.Stated.{goes_at, HasFields};

use byteorder::{ByteOrder, NetworkEndian};

// The longest payload, in bytes, and the highest number of an entry.
const LONGEST: u32 = 32768;

const LAST: u64 = 1 << 62;

/// What the first block of an entry says: how many bytes its payload has, its number, and the place of the ring behind it.
#[derive(Clone, Copy, Debug)]
pub struct EntryHead {
    pub len: u32,
    pub number: u64,
    pub next: u32,
}

/// So many blocks an entry takes whose payload has `len` bytes.
pub fn entry_blocks(len: u32) -> u32
    ensures { result ≡ spec.entry_blocks len }
{
    ((u64::from(len) + 539) / 512) as u32
}

// The bytes before the payload.
fn head_bytes(len: u32, number: u64, next: u32) -> [u8; 20]
    ensures { result ≡ spec.head_bytes len number next }
{
    let mut bytes = [0; 20];
    bytes[..4].copy_from_slice(b"ENT1");
    NetworkEndian::write_u32(&mut bytes[4..], len);
    NetworkEndian::write_u64(&mut bytes[8..], number);
    NetworkEndian::write_u32(&mut bytes[16..], next);
    bytes
}

/// Writes an entry without its marker over all of its blocks: zeros stand behind the payload. `next` is the place of the ring
/// behind it.
pub fn write_entry(out: &mut [u8], number: u64, next: u32, payload: &[u8])
    requires short { length payload.now ≤ 32768 }
    requires room { length out.old ≡ 512 * spec.entry_blocks (length payload.now) }
    ensures { out.new ≡ spec.entry_bytes number next payload.now }
{
    let len = payload.len();
    let end = 20 + len;
    out[..20].copy_from_slice(&head_bytes(len as u32, number, next));
    out[20..end].copy_from_slice(payload);
    out[end..].fill(0);
}

/// Writes the marker as the last 8 bytes.
pub fn mark(out: &mut [u8])
    requires { 8 ≤ length out.old }
    ensures { out.new ≡ spec.marked out.old }
{
    let at = out.len() - 8;
    out[at..].copy_from_slice(b"CALADAN!");
}

/// Whether a block ends with the marker.
pub fn marked(block: &[u8; 512]) -> bool
    ensures { result ≡ spec.is_marked block.now }
{
    &block[504..] == b"CALADAN!".as_slice()
}

/// What a block says as the first of an entry, if it has the magic word, and neither its length nor its number is too high. An
/// entry may begin with it only where its blocks fit the ring and the place behind them is `next`.
pub fn read_entry_head(block: &[u8; 512]) -> Option<EntryHead>
    ensures fields { IfSome result (HasFields block.now) }
    ensures head { (room p number : ℕ)
        → spec.is_head room p number block.now ≡ goes_at room p number result }
{
    if &block[..4] != b"ENT1".as_slice() {
        return None;
    }
    let head = EntryHead {
        len: NetworkEndian::read_u32(&block[4..8]),
        number: NetworkEndian::read_u64(&block[8..16]),
        next: NetworkEndian::read_u32(&block[16..20]),
    };
    if head.len <= LONGEST && head.number <= LAST {
        Some(head)
    } else {
        None
    }
}
