ghost use Rattle.std.specs.Prelude.{◌≡◌, ◌≤◌, ◌<◌, ◌↔◌, ◌++◌, ◌∷◌, [], length, drop, slice_get, option_map, IfOk, IsTrue};
ghost use Rattle.ark_udp.specs.Socket.{heading, shown_before};
ghost use Rattle.ark_udp.specs.Received as spec;

use crate::peer::{Head, Peer};
use ark_base::Memory;
use ark_packet::Udp;
use circular_buffer::HeapCircularBuffer;
use std::alloc::Global;
use std::marker::Model;

// A socket keeps at most so many datagrams.
const DATAGRAMS: usize = 8;

// A datagram in a frame of 1,514 bytes has a payload of at most so many bytes.
const PAYLOAD: usize = 1472;

// A socket at a port. It keeps the payloads of its datagrams one after another, so that each is copied once on its way in, and
// once on its way out. All of its room is made by `new`.
#[derive(Drop)]
pub(crate) struct Socket {
    port: u16,
    heads: HeapCircularBuffer<Head>,
    bytes: HeapCircularBuffer<u8>,
}

impl Model for Socket {
    ghost use Rattle.std.specs.Prelude.{◌≡◌};
    ghost use Rattle.ark_udp.specs.Socket.{Socket};
    ghost use Rattle.ark_udp.specs.Kept.{IsKept, cut};

    ghost Value = { Socket };

    ghost view = { λ s. record { port = s.port; datagrams = cut s.heads.items s.bytes.items } };

    ghost invariant = { λ s. (s.heads.capacity ≡ 8) × (s.bytes.capacity ≡ 11776)
        × IsKept s.heads.items s.bytes.items };
}

impl Socket {
    // A socket that keeps nothing. It fails for want of memory alone.
    pub(crate) fn new(alloc: Global, port: u16) -> Result<Socket, Memory>
        ensures { IfOk result (λ s. s ≡ record { port = port; datagrams = [] }) }
    {
        let Ok(heads) = HeapCircularBuffer::with_capacity(alloc, DATAGRAMS) else {
            return Err(Memory);
        };
        let Ok(bytes) = HeapCircularBuffer::with_capacity(alloc, DATAGRAMS * PAYLOAD) else {
            return Err(Memory);
        };
        Ok(Socket { port, heads, bytes })
    }

    pub(crate) fn port(&self) -> u16
        ensures { result ≡ self.now.port }
    {
        self.port
    }

    // Whether it keeps as many datagrams as it may.
    fn is_full(&self) -> bool
        ensures { IsTrue result ↔ (8 ≤ length self.now.datagrams) }
    {
        self.heads.is_full()
    }

    // Keeps one datagram more.
    fn keep(&mut self, from: Peer, payload: &[u8])
        requires short { length payload.now ≤ 1472 }
        requires room { length self.old.datagrams < 8 }
        ensures { self.new ≡ record self.old {
          datagrams = self.old.datagrams ++ record {
            ip = from.ip;
            port = from.port;
            payload = payload.now;
          } ∷ [];
        } }
    {
        let head = Head {
            from,
            len: payload.len() as u32,
        };
        let Ok(()) = self.heads.try_push_back(head) else {
            unreachable!();
        };
        self.bytes.fill_from_slice(payload);
    }

    // Keeps a datagram that is for its port, if it has room.
    pub(crate) fn deliver(&mut self, udp: &Udp<'_>)
        requires short { length udp.now.payload.now ≤ 1472 }
        ensures { self.new ≡ spec.delivered udp.now.to_port (record {
          ip = udp.now.from;
          port = udp.now.from_port;
          payload = udp.now.payload.now;
        }) self.old }
    {
        if self.port == udp.to_port && !self.is_full() {
            let from = Peer {
                ip: udp.from,
                port: udp.from_port,
            };
            self.keep(from, udp.payload);
        }
    }

    // Takes the oldest datagram: who sent it, and the length of its payload, which stands at the front of `out`.
    pub(crate) fn take_oldest(&mut self, out: &mut [u8]) -> Option<(Peer, u32)>
        requires room { 1472 ≤ length out.old }
        ensures value { result ≡ option_map heading (slice_get self.old.datagrams 0) }
        ensures rest { self.new ≡ record self.old { datagrams = drop 1 self.old.datagrams } }
        ensures out { out.new ≡ shown_before (slice_get self.old.datagrams 0) out.old }
    {
        let head = self.heads.pop_front()?;
        self.bytes.read_into(&mut out[..head.len as usize]);
        Some((head.from, head.len))
    }
}
