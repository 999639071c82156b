ghost use Rattle.std.specs.Prelude.{◌≡◌, ◌≤◌, ◌<◌, [], None, true, length, is_some, IfOk, IfSome};
ghost use Rattle.std.specs.Borrow.{sem};
ghost use Rattle.ark_base.specs.declared.kind.Outcome.TheVariants as outcome;
ghost use Rattle.ark_vnic.specs.declared.sent.Sent.TheVariants as sent;
ghost use Rattle.ark_vnic.specs.declared.arrived.Arrived.TheVariants as arrived;
ghost use Rattle.ark_vnic.specs.Card.{ended, head_of, may_pass, passed};
ghost use Rattle.ark_vnic.specs.Arrivals.{HasBuffer, HoldsFrame, after_arrival, arrived_of, room_of};
ghost use Rattle.ark_vnic.specs.Sending.{HasFrame, after_sending, frame_length, out_after, sent_of};

use crate::arrived::Arrived;
use crate::frame::{frame_in, is_let_out, put_frame, room_of};
use crate::pace;
use crate::sent::Sent;
use ark_base::{Memory, Outcome};
use ark_filters::Rules;
use ark_packet::Own;
use ark_region::Region;
use ark_vic::{Rate, Ring};
use std::alloc::Global;
use std::marker::Model;

/// A network card: a receive ring of buffers for frames that arrive, and a transmit ring of frames that go out. A rate may pace
/// each. A frame stands at the front of its buffer; of a descriptor's fields only `buf` is looked at to receive, and `buf` and
/// `len` to send.
#[derive(Drop)]
pub struct Vnic {
    grant: u64,
    rx: Ring,
    tx: Ring,
    rx_pace: Option<Rate>,
    tx_pace: Option<Rate>,
}

impl Model for Vnic {
    ghost use Rattle.ark_vnic.specs.Card.{NetCard};

    ghost Value = { NetCard };

    ghost view = { λ v. record {
      grant = v.grant;
      rx = v.rx;
      tx = v.tx;
      rx_pace = v.rx_pace;
      tx_pace = v.tx_pace;
    } };
}

impl Vnic {
    ghost use Rattle.ark_vnic.specs.Lending.{LendsRx, LendsTx};

    /// A card of this grant with empty rings for `rx` and `tx` descriptors, at most 256 each, which nothing paces. It fails for
    /// want of memory alone; no other call takes memory.
    pub fn new(alloc: Global, grant: u64, rx: u32, tx: u32) -> Result<Vnic, Memory>
        requires rx { rx ≤ 256 }
        requires tx { tx ≤ 256 }
        ensures grant { IfOk result (λ v. v.grant ≡ grant) }
        ensures rx { IfOk result (λ v. v.rx
            ≡ record { posted = []; unreaped = []; moved = 0; size = rx }) }
        ensures tx { IfOk result (λ v. v.tx
            ≡ record { posted = []; unreaped = []; moved = 0; size = tx }) }
        ensures rx_pace { IfOk result (λ v. v.rx_pace ≡ None) }
        ensures tx_pace { IfOk result (λ v. v.tx_pace ≡ None) }
    {
        let rx = Ring::new(alloc, rx)?;
        let tx = Ring::new(alloc, tx)?;
        Ok(Vnic {
            grant,
            rx,
            tx,
            rx_pace: None,
            tx_pace: None,
        })
    }

    /// Its receive ring.
    pub fn rx(&self) -> &Ring
        ensures { result.now ≡ self.now.rx }
    {
        &self.rx
    }

    /// Its transmit ring.
    pub fn tx(&self) -> &Ring
        ensures { result.now ≡ self.now.tx }
    {
        &self.tx
    }

    /// Its receive ring, for buffers to be posted and completions to be reaped. All else stays as it is.
    pub fn rx_mut(&mut self) -> &mut Ring
        ensures* writes_back { sem 𝓛 (LendsRx self.entry result) }
        ensures value { result.now ≡ self.old.rx }
    {
        &mut self.rx
    }

    /// Its transmit ring, for frames to be posted and completions to be reaped. All else stays as it is.
    pub fn tx_mut(&mut self) -> &mut Ring
        ensures* writes_back { sem 𝓛 (LendsTx self.entry result) }
        ensures value { result.now ≡ self.old.tx }
    {
        &mut self.tx
    }

    /// A rate paces its receive ring from now on, or none.
    pub fn pace_rx(&mut self, rate: Option<Rate>)
        ensures { self.new ≡ record self.old { rx_pace = rate } }
    {
        self.rx_pace = rate;
    }

    /// A rate paces its transmit ring from now on, or none.
    pub fn pace_tx(&mut self, rate: Option<Rate>)
        ensures { self.new ≡ record self.old { tx_pace = rate } }
    {
        self.tx_pace = rate;
    }

    /// Whether a rate paces its receive ring.
    pub fn is_rx_paced(&self) -> bool
        ensures { result ≡ is_some self.now.rx_pace }
    {
        self.rx_pace.is_some()
    }

    /// Whether a rate paces its transmit ring.
    pub fn is_tx_paced(&self) -> bool
        ensures { result ≡ is_some self.now.tx_pace }
    {
        self.tx_pace.is_some()
    }

    /// What becomes of a frame of `len` bytes that arrives at tick `now`.
    pub fn arrives(&self, len: u32, now: u64) -> Arrived
        ensures { result ≡ arrived_of self.now len now }
    {
        let Some(head) = self.rx.head() else {
            return Arrived::NoBuffer;
        };
        if room_of(head) < len {
            return Arrived::TooLong;
        }
        if pace::may_pass(&self.rx_pace, len, now) {
            Arrived::Into
        } else {
            Arrived::Throttled
        }
    }

    /// A frame of at most 1,514 bytes arrives at tick `now`. Where it is delivered it is copied once, to the front of the oldest
    /// posted buffer, and that descriptor ends `Ok` with the frame's length. `NoBuffer`, `TooLong` and `Throttled` come
    /// exactly where they say, the first of them that holds, and change nothing.
    pub fn arrive(&mut self, frame: &[u8], region: &mut Region, now: u64) -> Arrived
        requires buffer { IfSome (head_of self.old.rx) (HasBuffer region.old.taken) }
        requires at_most { length frame.now ≤ 1514 }
        ensures answer { result ≡ arrived_of self.old (length frame.now) now }
        ensures card { self.new ≡ after_arrival self.old result (length frame.now) now }
        ensures frames { region.new.taken ≡ region.old.taken }
        ensures region { HoldsFrame self.old result frame.now region.old region.new }
    {
        let len = frame.len() as u32;
        let arrived = self.arrives(len, now);
        if arrived == Arrived::Into {
            self.receive(frame, region, now);
        }
        arrived
    }

    // Takes a frame that fits the oldest posted buffer, and may pass.
    fn receive(&mut self, frame: &[u8], region: &mut Region, now: u64)
        requires buffer { IfSome (head_of self.old.rx) (HasBuffer region.old.taken) }
        requires at_most { length frame.now ≤ 1514 }
        requires into { arrived_of self.old (length frame.now) now ≡ arrived.Into }
        ensures card { self.new ≡ after_arrival self.old arrived.Into (length frame.now) now }
        ensures frames { region.new.taken ≡ region.old.taken }
        ensures region { HoldsFrame self.old arrived.Into frame.now region.old region.new }
    {
        let Some(head) = self.rx.head() else {
            unreachable!();
        };
        let Some(buf) = &head.buf else {
            unreachable!();
        };
        put_frame(buf, frame, region);
        let len = frame.len() as u32;
        pace::pass(&mut self.rx_pace, len, now);
        self.rx.finish(Outcome::Ok, len);
    }

    /// What becomes of its oldest posted frame at tick `now`, by the live filters of all applications and the addresses of this
    /// end.
    pub fn sends(&self, rules: &Rules, own: &Own, region: &Region, now: u64) -> Sent
        requires sound { IfSome (head_of self.now.tx) (HasFrame region.now.taken) }
        ensures { result ≡ sent_of self.now rules.now own.now region.now now }
    {
        let Some(head) = self.tx.head() else {
            return Sent::Idle;
        };
        if !is_let_out(self.grant, rules, own, frame_in(head, region)) {
            return Sent::NoFilter;
        }
        pace::sent_paced(&self.tx_pace, head.len, now)
    }

    // Ends the oldest posted frame.
    fn end(&mut self, outcome: Outcome)
        requires { 0 < length self.old.tx.posted }
        ensures { self.new ≡ record self.old {
          tx = ended self.old.tx (head_of self.old.tx) outcome
              (frame_length (head_of self.old.tx));
        } }
    {
        let Some(head) = self.tx.head() else {
            unreachable!();
        };
        let len = head.len;
        self.tx.finish(outcome, len);
    }

    // Copies the oldest posted frame to the front of `out`.
    fn show(&self, region: &Region, out: &mut [u8])
        requires posted { 0 < length self.now.tx.posted }
        requires sound { IfSome (head_of self.now.tx) (HasFrame region.now.taken) }
        requires room { 1514 ≤ length out.old }
        ensures { out.new ≡ out_after self.now
            (sent.Frame (frame_length (head_of self.now.tx))) region.now out.old }
    {
        let Some(head) = self.tx.head() else {
            unreachable!();
        };
        let frame = frame_in(head, region);
        out[..frame.len()].copy_from_slice(frame);
    }

    /// Sends the oldest posted frame, or ends it unsent, at tick `now`. `Idle`, `NoFilter`, `OverBurst` and `Held` come exactly
    /// where they say, the first of them that holds. A frame that goes out stands at the front of `out`, which is else left as
    /// it was.
    pub fn move_one(
        &mut self,
        rules: &Rules,
        own: &Own,
        region: &Region,
        now: u64,
        out: &mut [u8],
    ) -> Sent
        requires sound { IfSome (head_of self.old.tx) (HasFrame region.now.taken) }
        requires room { 1514 ≤ length out.old }
        ensures answer { result ≡ sent_of self.old rules.now own.now region.now now }
        ensures card { self.new ≡ after_sending self.old result now }
        ensures out { out.new ≡ out_after self.old result region.now out.old }
    {
        let sent = self.sends(rules, own, region, now);
        match sent {
            Sent::Idle | Sent::Held => {}
            Sent::NoFilter => self.end(Outcome::NoFilter),
            Sent::OverBurst => self.end(Outcome::OverBurst),
            Sent::Frame(len) => {
                self.show(region, out);
                pace::pass(&mut self.tx_pace, len, now);
                self.end(Outcome::Ok);
            }
        }
        sent
    }
}
