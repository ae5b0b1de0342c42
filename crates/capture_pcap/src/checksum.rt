//! The checksum of a TCP segment.

ghost use Rattle.std.specs.Prelude.{◌≡◌, ◌≤◌, ◌<◌, ◌+◌, ◌*◌, ◌%◌, ◌^◌, drop, get_or, length};
ghost use Rattle.capture_pcap.specs.Checksum.{address_number, is_damaged, is_partial, is_right, pseudo_sum, words_sum};

use crate::byte_order::{Order, short_at, word_at};
use crate::segment::Address;

/// Returns true if the receiver discards a segment, given with its header: its checksum is neither right, nor left to
/// the network card, nor 0.
pub fn is_damaged(source: Address, target: Address, segment: &[u8]) -> bool
    requires { 20 ≤ length segment.now }
    ensures { result ≡ is_damaged source target segment.now }
{
    !(short_at(Order::Big, segment, 16) == 0
        || is_partial(source, target, segment)
        || is_right(source, target, segment))
}

// Returns true if the network card completes the checksum.
fn is_partial(source: Address, target: Address, segment: &[u8]) -> bool
    requires { 20 ≤ length segment.now }
    ensures { result ≡ is_partial source target segment.now }
{
    let checksum = u64::from(short_at(Order::Big, segment, 16)) % 65535;
    checksum == pseudo_sum(source, target, segment.len())
        || checksum == pseudo_sum(source, target, 0)
}

// Returns true if the checksum is right.
#[tactic(auto, using(crate::proofs::Checksums::same_sum))]
fn is_right(source: Address, target: Address, segment: &[u8]) -> bool
    ensures { result ≡ is_right source target segment.now }
{
    (pseudo_sum(source, target, segment.len()) + words_sum(segment)) % 65535 == 0
}

// Returns the sum of a pseudo header, modulo 65535.
#[tactic(auto, using(crate::proofs::Checksums::pseudo_agrees))]
fn pseudo_sum(source: Address, target: Address, length: usize) -> u64
    ensures { result ≡ pseudo_sum source target length % 65535 }
{
    (address_sum(source) + address_sum(target) + 6 + length as u64 % 65535) % 65535
}

// Returns an address, modulo 65535.
fn address_sum(address: Address) -> u64
    ensures { result ≡ address_number address % 65535 }
{
    match address {
        Address::V4(number) => u64::from(number % 65535),
        Address::V6(number) => (number % 65535) as u64,
    }
}

// Returns the sum of the words, modulo 65535. The bytes are added as numbers of four bytes, the lowest first: that swaps
// the bytes of each word, so 256 times the sum is the sum of the words.
#[tactic(auto, using(crate::proofs::Checksums::words_more, crate::proofs::Checksums::words_end))]
fn words_sum(octets: &[u8]) -> u64
    ensures { result ≡ words_sum octets.now % 65535 }
{
    let mut sum = 0;
    let mut rest = octets;
    while rest.len() >= 16 {
        sum = folded(sum + sum_of_sixteen(rest));
        let (_, others) = rest.split_at(16);
        rest = others;
    }
    256 * ((sum + sum_of_few(rest)) % 65535) % 65535
}

// Returns a small number that agrees with a number modulo 65535.
#[inline(always)]
fn folded(sum: u64) -> u64
    ensures value { result % 65535 ≡ sum % 65535 }
    ensures bound { result < 2 ^ 33 }
{
    sum / (1 << 32) + sum % (1 << 32)
}

// Returns the sum of the first four numbers of four bytes.
#[inline(always)]
#[tactic(auto, using(crate::proofs::Checksums::words_of_sixteen))]
fn sum_of_sixteen(octets: &[u8]) -> u64
    requires { 16 ≤ length octets.now }
    ensures value { (256 * result + words_sum (drop 16 octets.now)) % 65535 ≡ words_sum octets.now % 65535 }
    ensures bound { result < 2 ^ 34 }
{
    u64::from(word_at(Order::Little, octets, 0))
        + u64::from(word_at(Order::Little, octets, 4))
        + u64::from(word_at(Order::Little, octets, 8))
        + u64::from(word_at(Order::Little, octets, 12))
}

// Returns the sum of fewer than eight numbers of two bytes. A last byte alone is the low one.
#[tactic(auto, using(crate::proofs::Checksums::words_one, crate::proofs::Checksums::words_last))]
fn sum_of_few(octets: &[u8]) -> u64
    requires { length octets.now < 16 }
    ensures value { (256 * result) % 65535 ≡ words_sum octets.now % 65535 }
    ensures bound { result < 2 ^ 21 }
{
    let mut sum = 0;
    let mut rest = octets;
    while rest.len() >= 2 {
        sum += u64::from(short_at(Order::Little, rest, 0));
        let (_, others) = rest.split_at(2);
        rest = others;
    }
    sum + u64::from(first_or_none(rest))
}

// Returns the first byte, or 0 if there is none.
fn first_or_none(octets: &[u8]) -> u8
    ensures { result ≡ get_or octets.now 0 0 }
{
    octets.first().copied().unwrap_or(0)
}
