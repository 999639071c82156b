// The work of `Sockets` on its sockets as a list.
ghost use Rattle.std.specs.Prelude.{◌≡◌, ◌≤◌, length, map, nat_eq, not, option_map, slice_get, filter as select};
ghost use Rattle.std.specs.List.{list_any};
ghost use Rattle.ark_udp.specs.Received.{delivered};
ghost use Rattle.ark_udp.specs.Socket as spec;

use crate::peer::Peer;
use crate::socket::Socket;
use ark_packet::Udp;

// Whether one is at a port.
pub(crate) fn has_port(sockets: &[Socket], port: u16) -> bool
    ensures { result ≡ list_any (λ s. nat_eq s.port port) sockets.now }
{
    for socket in sockets {
        if socket.port() == port {
            return true;
        }
    }
    false
}

// Leaves out the one at a port.
pub(crate) fn remove(sockets: &mut Vec<Socket>, port: u16)
    ensures { sockets.new.items ≡ select (λ s. not (nat_eq s.port port)) sockets.old.items }
{
    sockets.retain(|socket| socket.port() != port);
}

// Gives a datagram to the one at its port, if it has room.
pub(crate) fn deliver(sockets: &mut [Socket], udp: &Udp<'_>)
    requires short { length udp.now.payload.now ≤ 1472 }
    ensures { sockets.new ≡ map (delivered udp.now.to_port (record {
      ip = udp.now.from;
      port = udp.now.from_port;
      payload = udp.now.payload.now;
    })) sockets.old }
{
    for socket in sockets {
        socket.deliver(udp);
    }
}

// Takes the oldest datagram of the one at a port.
pub(crate) fn take_oldest(sockets: &mut [Socket], port: u16, out: &mut [u8]) -> Option<(Peer, u32)>
    requires room { 1472 ≤ length out.old }
    ensures value { result ≡ option_map spec.heading
        (slice_get (spec.datagrams_at port sockets.old) 0) }
    ensures rest { sockets.new ≡ spec.without_oldest port sockets.old }
    ensures out { out.new ≡ spec.shown_before
        (slice_get (spec.datagrams_at port sockets.old) 0) out.old }
{
    for socket in sockets {
        if socket.port() == port {
            return socket.take_oldest(out);
        }
    }
    None
}
