//! Numbers in either byte order.

ghost use Rattle.std.specs.Prelude.{◌≡◌, ◌≤◌, ◌+◌, length, drop};
ghost use Rattle.capture_pcap.specs.ByteOrder.{number_in};

use byteorder::{BigEndian, ByteOrder, LittleEndian};

/// The byte order of a number.
#[derive(Clone, Copy, Debug, PartialEq, Eq)]
pub enum Order {
    /// Big endian: the highest byte first.
    Big,
    /// Little endian: the lowest byte first.
    Little,
}

/// Returns the number in the two bytes at `at`.
#[inline(always)]
pub fn short_at(order: Order, octets: &[u8], at: usize) -> u16
    requires { at + 2 ≤ length octets.now }
    ensures { result ≡ number_in order 2 (drop at octets.now) }
{
    let (_, rest) = octets.split_at(at);
    match order {
        Order::Big => BigEndian::read_u16(rest),
        Order::Little => LittleEndian::read_u16(rest),
    }
}

/// Returns the number in the four bytes at `at`.
#[inline(always)]
pub fn word_at(order: Order, octets: &[u8], at: usize) -> u32
    requires { at + 4 ≤ length octets.now }
    ensures { result ≡ number_in order 4 (drop at octets.now) }
{
    let (_, rest) = octets.split_at(at);
    match order {
        Order::Big => BigEndian::read_u32(rest),
        Order::Little => LittleEndian::read_u32(rest),
    }
}

/// Returns the number in the first eight bytes.
#[inline(always)]
pub fn long_of(order: Order, octets: &[u8]) -> u64
    requires { 8 ≤ length octets.now }
    ensures { result ≡ number_in order 8 octets.now }
{
    match order {
        Order::Big => BigEndian::read_u64(octets),
        Order::Little => LittleEndian::read_u64(octets),
    }
}
