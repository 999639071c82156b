ghost use Rattle.std.specs.Prelude.{◌≡◌, ◌≤◌};
ghost use Rattle.ark_filters.specs.Filter as spec;
ghost use Rattle.ark_filters.specs.Overlap.{peers_meet, ranges_meet, range_meets, services_meet};

/// Which frames a filter looks at.
#[derive(Clone, Copy, Debug, PartialEq, Eq)]
pub enum Direction {
    /// Frames that come in: their destination is the own side.
    Rx,
    /// Frames that go out: their source is the own side.
    Tx,
}

/// What a filter looks for in a frame.
#[derive(Clone, Copy, Debug, PartialEq, Eq)]
pub enum Proto {
    /// A frame of Ethernet; peers are MAC addresses, services types.
    Eth,
    /// An IPv4 part; peers are IPv4 addresses, services numbers of protocols.
    Ip,
    /// UDP (RFC 768); peers are IPv4 addresses, services ports.
    Udp,
    /// TCP; peers are IPv4 addresses, services ports.
    Tcp,
}

/// The peers of a filter: none for all, or 1 to 8.
#[derive(Clone, Copy, Debug)]
pub struct Peers {
    /// How many there are; 0 for all peers.
    pub count: u8,
    /// MAC addresses, or IPv4 addresses with two zeros after each; zeros from `count` on.
    pub items: [[u8; 6]; 8],
}

/// The services of a filter: none for all, or 1 to 8.
#[derive(Clone, Copy, Debug)]
pub struct Services {
    /// How many there are; 0 for all services.
    pub count: u8,
    /// Each from a first number to a last one; zeros from `count` on.
    pub items: [(u16, u16); 8],
}

/// A filter: which frames a card takes, or sends.
#[derive(Clone, Copy, Debug)]
pub struct Filter {
    /// Whether it looks at frames that come in or at those that go out.
    pub direction: Direction,
    /// What it looks for in a frame.
    pub proto: Proto,
    /// Which other sides it lets through.
    pub peers: Peers,
    /// Which services it lets through.
    pub services: Services,
}

impl Peers {
    // Whether a peer is one of these.
    pub(crate) fn hold(&self, peer: &[u8; 6]) -> bool
        requires count { self.now.count ≤ 8 }
        ensures held { result ≡ spec.is_peer self.now peer.now }
    {
        if self.count == 0 {
            return true;
        }
        for item in &self.items[..usize::from(self.count)] {
            if item == peer {
                return true;
            }
        }
        false
    }

    // Whether some peer is one of these and one of the others.
    pub(crate) fn meet(&self, others: &Peers) -> bool
        requires count { self.now.count ≤ 8 }
        requires others { others.now.count ≤ 8 }
        ensures met { result ≡ peers_meet self.now others.now }
    {
        if self.count == 0 {
            return true;
        }
        for item in &self.items[..usize::from(self.count)] {
            if others.hold(item) {
                return true;
            }
        }
        false
    }
}

// Whether two ranges have a number in common.
fn share(a: (u16, u16), b: (u16, u16)) -> bool
    ensures met { result ≡ ranges_meet a b }
{
    a.0 <= b.1 && b.0 <= a.1
}

impl Services {
    // Whether a number is in one of these.
    pub(crate) fn hold(&self, number: u16) -> bool
        requires count { self.now.count ≤ 8 }
        ensures held { result ≡ spec.is_service self.now number }
    {
        if self.count == 0 {
            return true;
        }
        for item in &self.items[..usize::from(self.count)] {
            if item.0 <= number && number <= item.1 {
                return true;
            }
        }
        false
    }

    // Whether some number of a range is in one of these.
    fn touch(&self, range: (u16, u16)) -> bool
        requires count { self.now.count ≤ 8 }
        ensures met { result ≡ range_meets self.now range }
    {
        if self.count == 0 {
            return true;
        }
        for item in &self.items[..usize::from(self.count)] {
            if share(*item, range) {
                return true;
            }
        }
        false
    }

    // Whether some service is in one of these and in one of the others.
    pub(crate) fn meet(&self, others: &Services) -> bool
        requires count { self.now.count ≤ 8 }
        requires others { others.now.count ≤ 8 }
        ensures met { result ≡ services_meet self.now others.now }
    {
        if self.count == 0 {
            return true;
        }
        for item in &self.items[..usize::from(self.count)] {
            if others.touch(*item) {
                return true;
            }
        }
        false
    }
}
