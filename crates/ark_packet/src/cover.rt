ghost use Rattle.std.specs.Prelude.{◌≡◌, ◌++◌, length};
ghost use Rattle.ark_packet.specs.Sum.{ones_sum};
ghost use Rattle.ark_packet.specs.Udp.{covered};

use crate::sum::add_octets;

// The one's complement sum over what the checksum of a datagram covers.
pub(crate) fn covered_sum(
    from: &[u8; 4],
    to: &[u8; 4],
    protocol: u8,
    header: &[u8],
    payload: &[u8],
) -> u16
    requires { length header.now ≡ 8 }
    ensures { result ≡ ones_sum (covered from.now to.now protocol (header.now ++ payload.now)) }
{
    let sum = add_octets(0, from);
    let sum = add_octets(sum, to);
    let sum = add_octets(sum, &[0, protocol, header[4], header[5]]);
    let sum = add_octets(sum, header);
    add_octets(sum, payload)
}
