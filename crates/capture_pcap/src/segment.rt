//! The TCP segment in a packet.

ghost use Rattle.std.specs.Prelude.{◌≡◌, ◌≤◌, ◌+◌, ◌/◌, ℕ, IfSome, length, slice_index, Option};
ghost use Rattle.capture_pcap.specs.ByteOrder.{big_at};
ghost use Rattle.capture_pcap.specs.Segment.{segment_at, raw_at, framed_at, tagged_at, untagged_at, v4_at, v4_end, v6_at, v6_end, extended_at, inside_at, tcp_at, is_tag, is_extension, is_raw, is_null};

use crate::byte_order::{Order, short_at, word_at};
use crate::checksum::is_damaged;
use byteorder::{BigEndian, ByteOrder};

/// An IPv4 or IPv6 address.
#[derive(Clone, Copy, Debug, PartialEq, Eq)]
pub enum Address {
    V4(u32),
    V6(u128),
}

/// Why a packet is skipped, though it may carry a segment.
#[derive(Clone, Copy, Debug, PartialEq, Eq)]
pub enum Reason {
    /// Another link layer.
    Link,
    /// The packet ends within a header.
    Short,
    /// A fragment.
    Fragment,
    /// The capture does not have the packet in full.
    Cut,
    /// A header has an impossible value.
    Header,
    /// The checksum is wrong.
    Damaged,
}

/// A TCP segment. Its payload is in the packet from `body` to `end`.
#[derive(Clone, Copy, Debug)]
pub struct Segment {
    pub source: Address,
    pub source_port: u16,
    pub target: Address,
    pub target_port: u16,
    pub number: u32,
    pub acknowledged: Option<u32>,
    /// FIN 1, SYN 2, RST 4, PSH 8.
    pub flags: u8,
    pub body: usize,
    pub end: usize,
}

/// What a packet shows.
#[derive(Clone, Copy, Debug)]
pub enum Shown {
    Segment(Segment),
    /// It carries no TCP.
    Other,
    LeftOut(Reason),
}

/// Returns the segment in a packet of this link type.
#[tactic(auto, unfolding(crate::specs::Segment::segment_at))]
pub fn segment_of(link: u32, packet: &[u8]) -> Shown
    ensures { result ≡ segment_at link packet.now }
{
    match link {
        1 => framed(14, 12, packet),
        113 => framed(16, 14, packet),
        276 => framed(20, 0, packet),
        _ if without_header(link) => raw(0, packet),
        _ if with_family(link) => raw(4, packet),
        _ => Shown::LeftOut(Reason::Link),
    }
}

fn without_header(link: u32) -> bool
    ensures { result ≡ is_raw link }
{
    link == 12 || link == 14 || link == 101 || link == 228 || link == 229
}

fn with_family(link: u32) -> bool
    ensures { result ≡ is_null link }
{
    link == 0 || link == 108
}

fn marks_tag(protocol: u16) -> bool
    ensures { result ≡ is_tag protocol }
{
    protocol == 0x8100 || protocol == 0x88a8 || protocol == 0x9100
}

fn marks_extension(next: u8) -> bool
    ensures { result ≡ is_extension next }
{
    next == 0 || next == 43 || next == 60
}

// Reads a link layer whose header gives the protocol.
fn framed(size: usize, place: usize, packet: &[u8]) -> Shown
    requires room { place + 2 ≤ size }
    ensures { result ≡ framed_at size place packet.now }
{
    if packet.len() < size {
        return Shown::LeftOut(Reason::Short);
    }
    tagged(16, short_at(Order::Big, packet, place), packet, size)
}

// Reads a link layer without a protocol field.
fn raw(at: usize, packet: &[u8]) -> Shown
    requires small { at ≤ 4 }
    ensures { result ≡ raw_at at packet.now }
{
    if packet.len() < at + 1 {
        return Shown::LeftOut(Reason::Short);
    }
    match packet[at] / 16 {
        4 => v4(packet, at),
        6 => v6(packet, at),
        _ => Shown::Other,
    }
}

// Reads what follows VLAN tags.
#[tactic(auto, using(crate::proofs::AfterPackets::untagged_is, crate::proofs::AfterPackets::tagged_last, crate::proofs::AfterPackets::tagged_short, crate::proofs::AfterPackets::tagged_more))]
fn tagged(left: u8, protocol: u16, packet: &[u8], at: usize) -> Shown
    requires within { at ≤ length packet.now }
    ensures { result ≡ tagged_at left protocol packet.now at }
{
    if !marks_tag(protocol) {
        return untagged(protocol, packet, at);
    }
    if left == 0 {
        return Shown::LeftOut(Reason::Header);
    }
    if packet.len() - at < 4 {
        return Shown::LeftOut(Reason::Short);
    }
    tagged(
        left - 1,
        short_at(Order::Big, packet, at + 2),
        packet,
        at + 4,
    )
}

fn untagged(protocol: u16, packet: &[u8], at: usize) -> Shown
    requires within { at ≤ length packet.now }
    ensures { result ≡ untagged_at protocol packet.now at }
{
    match protocol {
        0x0800 => v4(packet, at),
        0x86dd => v6(packet, at),
        _ => Shown::Other,
    }
}

// Reads an IPv4 packet.
fn v4(packet: &[u8], at: usize) -> Shown
    requires within { at ≤ length packet.now }
    ensures { result ≡ v4_at packet.now at }
{
    if packet.len() - at < 20 {
        return Shown::LeftOut(Reason::Short);
    }
    if packet[at + 9] != 6 {
        return Shown::Other;
    }
    if short_at(Order::Big, packet, at + 6) % 0x4000 != 0 {
        return Shown::LeftOut(Reason::Fragment);
    }
    let words = packet[at] % 16;
    if words < 5 {
        return Shown::LeftOut(Reason::Header);
    }
    let source = Address::V4(word_at(Order::Big, packet, at + 12));
    let target = Address::V4(word_at(Order::Big, packet, at + 16));
    tcp(
        source,
        target,
        packet,
        at + usize::from(words) * 4,
        end_of_v4(packet, at),
    )
}

fn end_of_v4(packet: &[u8], at: usize) -> usize
    requires within { at + 20 ≤ length packet.now }
    ensures end { result ≡ v4_end packet.now at }
    ensures bound { result ≤ length packet.now + 65536 }
{
    let size = short_at(Order::Big, packet, at + 2);
    if size == 0 {
        return packet.len();
    }
    at + usize::from(size)
}

// Reads an IPv6 packet.
fn v6(packet: &[u8], at: usize) -> Shown
    requires within { at ≤ length packet.now }
    ensures { result ≡ v6_at packet.now at }
{
    if packet.len() - at < 40 {
        return Shown::LeftOut(Reason::Short);
    }
    let source = Address::V6(wide_at(packet, at + 8));
    let target = Address::V6(wide_at(packet, at + 24));
    extended(
        8,
        source,
        target,
        packet[at + 6],
        packet,
        at + 40,
        end_of_v6(packet, at),
    )
}

fn wide_at(packet: &[u8], at: usize) -> u128
    requires { at + 16 ≤ length packet.now }
    ensures { result ≡ big_at 16 at packet.now }
{
    let (_, rest) = packet.split_at(at);
    BigEndian::read_u128(rest)
}

fn end_of_v6(packet: &[u8], at: usize) -> usize
    requires within { at + 40 ≤ length packet.now }
    ensures end { result ≡ v6_end packet.now at }
{
    let size = short_at(Order::Big, packet, at + 4);
    if size == 0 {
        return packet.len();
    }
    at + 40 + usize::from(size)
}

// Reads what follows extension headers.
#[tactic(auto, using(crate::proofs::AfterPackets::inside_is, crate::proofs::AfterPackets::extended_last, crate::proofs::AfterPackets::extended_short, crate::proofs::AfterPackets::extended_more))]
fn extended(
    left: u8,
    source: Address,
    target: Address,
    next: u8,
    packet: &[u8],
    from: usize,
    end: usize,
) -> Shown
    requires near { from ≤ length packet.now + 4096 }
    ensures { result ≡ extended_at left source target next packet.now from end }
{
    if !marks_extension(next) {
        return inside(source, target, next, packet, from, end);
    }
    if left == 0 {
        return Shown::LeftOut(Reason::Header);
    }
    if packet.len() < from + 8 {
        return Shown::LeftOut(Reason::Short);
    }
    let subsequent = from + 8 + 8 * usize::from(packet[from + 1]);
    extended(
        left - 1,
        source,
        target,
        packet[from],
        packet,
        subsequent,
        end,
    )
}

fn inside(
    source: Address,
    target: Address,
    next: u8,
    packet: &[u8],
    from: usize,
    end: usize,
) -> Shown
    requires near { from ≤ length packet.now + 4096 }
    ensures { result ≡ inside_at source target next packet.now from end }
{
    match next {
        6 => tcp(source, target, packet, from, end),
        44 => Shown::LeftOut(Reason::Fragment),
        _ => Shown::Other,
    }
}

// Reads a TCP segment.
fn tcp(source: Address, target: Address, packet: &[u8], from: usize, end: usize) -> Shown
    requires near { from ≤ length packet.now + 4096 }
    ensures { result ≡ tcp_at source target packet.now from end }
{
    if packet.len() < end {
        return Shown::LeftOut(Reason::Cut);
    }
    if end < from + 20 {
        return Shown::LeftOut(Reason::Header);
    }
    let words = packet[from + 12] / 16;
    if words < 5 {
        return Shown::LeftOut(Reason::Header);
    }
    let body = from + usize::from(words) * 4;
    if end < body {
        return Shown::LeftOut(Reason::Header);
    }
    let (_, rest) = packet.split_at(from);
    let (segment, _) = rest.split_at(end - from);
    if is_damaged(source, target, segment) {
        return Shown::LeftOut(Reason::Damaged);
    }
    let bits = packet[from + 13];
    let number = word_at(Order::Big, packet, from + 8);
    let acknowledged = (bits / 16 % 2 != 0).then_some(number);
    Shown::Segment(Segment {
        source,
        source_port: short_at(Order::Big, packet, from),
        target,
        target_port: short_at(Order::Big, packet, from + 2),
        number: word_at(Order::Big, packet, from + 4),
        acknowledged,
        flags: bits % 16,
        body,
        end,
    })
}
