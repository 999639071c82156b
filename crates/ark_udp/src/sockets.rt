ghost use Rattle.std.specs.Prelude.{◌≡◌, ◌≢◌, ◌≤◌, ◌<◌, ◌+◌, ◌↔◌, ◌++◌, ◌∷◌, [], true, false, not, length, map, nat_eq, option_map, slice_get, All, Err, IfOk, OnOk, OnErr, filter as select};
ghost use Rattle.std.specs.List.{list_any};
ghost use Rattle.ark_udp.specs.Socket as spec;
ghost use Rattle.ark_udp.specs.Received.{IsReceived, all_received, frame_in, posted_again};
ghost use Rattle.ark_udp.specs.Sent.{HasNoPlace, IsPosted, LiesIn, frame_from, reaped, space_reaped};

use crate::peer::Peer;
use crate::socket::Socket;
use crate::{among, receive, send};
use ark_base::Memory;
use ark_packet::Own;
use ark_region::Region;
use ark_vnic::Vnic;
use std::alloc::Global;
use std::marker::Model;

// A card has at most so many sockets.
const SOCKETS: usize = 8;

// The bytes of a datagram's frame before its payload.
const FRAME_HEAD: u32 = 42;

/// Why a socket was not made.
#[derive(Clone, Copy, Debug, PartialEq, Eq)]
pub enum BindFault {
    /// There is one at the port.
    Taken,
    /// There are 8.
    Limit,
    /// There was no memory.
    Memory,
}

/// Why a datagram was not posted to be sent.
#[derive(Clone, Copy, Debug, PartialEq, Eq)]
pub enum SendFault {
    /// The transmit ring is full.
    RingFull,
    /// There is no place for its buffer.
    NoBuffer,
}

/// The sockets of a network card, at most 8, each at a port, with the datagrams that it keeps, at most 8, oldest first. Contracts
/// see the list of them, in the order of making.
#[derive(Drop)]
pub struct Sockets {
    alloc: Global,
    sockets: Vec<Socket>,
}

impl Model for Sockets {
    ghost use Rattle.std.specs.Prelude.{List, ◌≤◌, length};
    ghost use Rattle.ark_udp.specs.Socket.{Socket};

    ghost Value = { List Socket };

    ghost view = { λ s. s.sockets.items };

    ghost invariant = { λ s. length s.sockets.items ≤ 8 };
}

impl Sockets {
    /// No sockets. It fails for want of memory alone.
    pub fn new(alloc: Global) -> Result<Sockets, Memory>
        ensures { IfOk result (λ s. s ≡ []) }
    {
        let Ok(sockets) = Vec::with_capacity(alloc, SOCKETS) else {
            return Err(Memory);
        };
        Ok(Sockets { alloc, sockets })
    }

    /// How many there are.
    pub fn count(&self) -> u32
        ensures count { result ≡ length self.now }
        ensures within { result ≤ 8 }
    {
        self.sockets.len() as u32
    }

    /// Whether there is one at a port.
    pub fn has_port(&self, port: u16) -> bool
        ensures { result ≡ list_any (λ s. nat_eq s.port port) self.now }
    {
        among::has_port(&self.sockets, port)
    }

    /// Makes a socket at a port, with room for 8 datagrams of 1,472 bytes; no other call but `new` takes memory. `Taken` comes
    /// exactly where there is one at the port, else `Limit` exactly where there are 8. The sockets stay as they were then.
    pub fn bind(&mut self, port: u16) -> Result<(), BindFault>
        ensures ok { OnOk result (self.new
            ≡ self.old ++ record { port = port; datagrams = [] } ∷ []) }
        ensures taken { (result ≡ Err BindFault.Taken)
            ↔ (list_any (λ s. nat_eq s.port port) self.old ≡ true) }
        ensures limit { (result ≡ Err BindFault.Limit)
            ↔ ((list_any (λ s. nat_eq s.port port) self.old ≡ false)
            × (length self.old ≡ 8)) }
        ensures err { OnErr result (self.new ≡ self.old) }
    {
        if among::has_port(&self.sockets, port) {
            return Err(BindFault::Taken);
        }
        if self.sockets.len() >= SOCKETS {
            return Err(BindFault::Limit);
        }
        let Ok(socket) = Socket::new(self.alloc, port) else {
            return Err(BindFault::Memory);
        };
        match self.sockets.push(socket) {
            Ok(()) => Ok(()),
            Err(_) => Err(BindFault::Memory),
        }
    }

    /// Ends the socket at a port, with the datagrams that it keeps.
    pub fn unbind(&mut self, port: u16)
        ensures { self.new ≡ select (λ s. not (nat_eq s.port port)) self.old }
    {
        among::remove(&mut self.sockets, port);
    }

    /// Posts a datagram to be sent from a port of this end. First the transmit ring is reaped to its end, and those buffers are
    /// given back; that stays done where the datagram is refused. `RingFull` comes exactly where the ring is full then, else
    /// `NoBuffer` exactly where there is no place for a buffer of 42 bytes and the payload.
    pub fn send_to(
        &self,
        vnic: &mut Vnic,
        region: &mut Region,
        own: &Own,
        from_port: u16,
        to: Peer,
        payload: &[u8],
    ) -> Result<(), SendFault>
        requires short { length payload.now ≤ 1472 }
        requires buffers { All (LiesIn region.old.taken) vnic.old.tx.unreaped }
        ensures full { (result ≡ Err SendFault.RingFull)
            ↔ (vnic.old.tx.size ≤ length vnic.old.tx.posted) }
        ensures no_buffer { (result ≡ Err SendFault.NoBuffer)
            ↔ ((length vnic.old.tx.posted < vnic.old.tx.size)
            × HasNoPlace (space_reaped vnic.old.tx region.old).taken (42 + length payload.now)) }
        ensures ok { OnOk result (IsPosted (frame_from own.now from_port to payload.now)
            (space_reaped vnic.old.tx region.old) region.new (reaped vnic.old.tx) vnic.new.tx) }
        ensures card { vnic.new ≡ record vnic.old { tx = vnic.new.tx } }
        ensures unreaped { vnic.new.tx.unreaped ≡ [] }
        ensures err_card { OnErr result (vnic.new.tx ≡ reaped vnic.old.tx) }
        ensures err_region { OnErr result (region.new ≡ space_reaped vnic.old.tx region.old) }
    {
        send::reap(vnic.tx_mut(), region);
        if vnic.tx().is_full() {
            return Err(SendFault::RingFull);
        }
        let Some(buf) = region.take(FRAME_HEAD + payload.len() as u32) else {
            return Err(SendFault::NoBuffer);
        };
        send::write_frame(&buf, region, own, from_port, to, payload);
        send::post(vnic.tx_mut(), buf);
        Ok(())
    }

    /// Takes all frames that the card has received, oldest first, and posts each buffer again. A socket keeps the datagram of a
    /// frame that can be taken where it is to the own address and the socket's port, unless it keeps 8 already; all other frames
    /// are dropped.
    pub fn pull(&mut self, vnic: &mut Vnic, region: &Region, own: &Own)
        requires { All (IsReceived region.now.taken) vnic.old.rx.unreaped }
        ensures sockets { self.new ≡ all_received own.now
            (map (frame_in region.now) vnic.old.rx.unreaped) self.old }
        ensures card { vnic.new ≡ record vnic.old { rx = posted_again vnic.old.rx } }
    {
        receive::pull(&mut self.sockets, vnic.rx_mut(), region, own);
    }

    /// Takes the oldest datagram of the socket at a port: who sent it, and the length of its payload, which stands at the front
    /// of `out`. `None` comes exactly where there is no socket, or it keeps none, and changes nothing.
    pub fn recv(&mut self, port: u16, out: &mut [u8]) -> Option<(Peer, u32)>
        requires room { 1472 ≤ length out.old }
        ensures value { result ≡ option_map spec.heading
            (slice_get (spec.datagrams_at port self.old) 0) }
        ensures rest { self.new ≡ spec.without_oldest port self.old }
        ensures out { out.new ≡ spec.shown_before
            (slice_get (spec.datagrams_at port self.old) 0) out.old }
    {
        among::take_oldest(&mut self.sockets, port, out)
    }
}
