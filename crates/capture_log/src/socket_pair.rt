//! The two ends of a connection, by their addresses.

ghost use Rattle.std.specs.Prelude.{◌≡◌, true, false};
ghost use Rattle.capture_log.specs.SocketPair.{HaveSameAddresses, IsOfPeer, has_syn, ip_of, pair_by, pairs_at, socket_at, turned};

use capture_pcap::{Address, Segment};
use capture_tcp::Side;
use std::net::{IpAddr, Ipv4Addr, Ipv6Addr, SocketAddr};

/// The addresses and ports of the end that connected, and of the one that was connected to.
#[derive(Clone, Copy, PartialEq, Eq, Hash)]
pub struct Pair {
    pub active: SocketAddr,
    pub passive: SocketAddr,
}

impl Pair {
    /// The pair of a segment that this end sent.
    fn of(segment: &Segment, from: Side) -> Pair
        ensures { result ≡ pair_by from segment.now }
    {
        let source = end_of(segment.source, segment.source_port);
        let target = end_of(segment.target, segment.target_port);
        match from {
            Side::Active => Pair {
                active: source,
                passive: target,
            },
            Side::Passive => Pair {
                active: target,
                passive: source,
            },
        }
    }

    /// The pair of the same two ends, where the other one connected.
    pub fn turned(&self) -> Pair
        ensures { result ≡ turned self.now }
    {
        Pair {
            active: self.passive,
            passive: self.active,
        }
    }

    /// Whether an end has this address, or none is asked for.
    pub fn is_of(&self, peer: &Option<IpAddr>) -> bool
        ensures yes { result ≡ true → IsOfPeer peer.now self.now }
        ensures no { result ≡ false → IsOfPeer peer.now self.now → ⊥ }
    {
        match peer {
            Some(address) => self.active.ip() == *address || self.passive.ip() == *address,
            None => true,
        }
    }

    /// Whether both ends have the addresses of another pair's, whatever their ports.
    pub fn has_addresses_of(&self, other: &Pair) -> bool
        ensures yes { result ≡ true → HaveSameAddresses self.now other.now }
        ensures no { result ≡ false → HaveSameAddresses self.now other.now → ⊥ }
    {
        self.active.ip() == other.active.ip() && self.passive.ip() == other.passive.ip()
    }
}

// The end with this address and port.
#[tactic(auto, using(crate::proofs::Addresses::socket_is))]
fn end_of(address: Address, port: u16) -> SocketAddr
    ensures { result ≡ socket_at (ip_of address) port }
{
    SocketAddr::new(address_of(address), port)
}

#[tactic(auto, using(crate::proofs::Addresses::v4_is, crate::proofs::Addresses::v6_is))]
fn address_of(address: Address) -> IpAddr
    ensures { result ≡ ip_of address }
{
    match address {
        Address::V4(octets) => IpAddr::V4(Ipv4Addr::from(octets)),
        Address::V6(octets) => IpAddr::V6(Ipv6Addr::from(octets)),
    }
}

/// The pairs that a segment may belong to, with the end that sent it, where the passive end has this port. It belongs to
/// the second one only where the first isn't known: where both ends have the port, and it doesn't begin a connection. One
/// from an address to itself, where both ends have the port, has none.
pub fn pairs_of(segment: &Segment, port: u16) -> Option<(Pair, Side, Option<Pair>)>
    ensures { result ≡ pairs_at port segment.now }
{
    match (segment.source_port == port, segment.target_port == port) {
        (false, false) => None,
        (false, true) => Some((Pair::of(segment, Side::Active), Side::Active, None)),
        (true, false) => Some((Pair::of(segment, Side::Passive), Side::Passive, None)),
        (true, true) => pairs_of_equals(segment),
    }
}

// The same where both ends have the port.
fn pairs_of_equals(segment: &Segment) -> Option<(Pair, Side, Option<Pair>)>
    requires { segment.now.target_port ≡ segment.now.source_port }
    ensures { result ≡ pairs_at segment.now.source_port segment.now }
{
    if segment.source == segment.target {
        return None;
    }
    let as_active = Pair::of(segment, Side::Active);
    let as_passive = Pair::of(segment, Side::Passive);
    if !is_syn(segment) {
        return Some((as_active, Side::Active, Some(as_passive)));
    }
    match segment.acknowledged {
        None => Some((as_active, Side::Active, None)),
        Some(_) => Some((as_passive, Side::Passive, None)),
    }
}

fn is_syn(segment: &Segment) -> bool
    ensures { result ≡ has_syn segment.now }
{
    (segment.flags >> 1) & 1 == 1
}
