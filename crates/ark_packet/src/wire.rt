ghost use Rattle.std.specs.Prelude.{◌≡◌, ◌+◌, ◌≤◌, length, slice_range};

// The six octets from a place on: a MAC address.
pub(crate) fn read_mac(bytes: &[u8], at: usize) -> [u8; 6]
    requires { at + 6 ≤ length bytes.now }
    ensures { result ≡ slice_range bytes.now at (at + 6) }
{
    let mut octets = [0; 6];
    octets.copy_from_slice(&bytes[at..at + 6]);
    octets
}

// The four octets from a place on: an IPv4 address.
pub(crate) fn read_address(bytes: &[u8], at: usize) -> [u8; 4]
    requires { at + 4 ≤ length bytes.now }
    ensures { result ≡ slice_range bytes.now at (at + 4) }
{
    let mut octets = [0; 4];
    octets.copy_from_slice(&bytes[at..at + 4]);
    octets
}
