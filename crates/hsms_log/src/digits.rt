//! Hexadecimal digits, read sixteen at once.

ghost use Rattle.std.specs.Prelude.{◌≡◌, ◌+◌, ◌*◌, ◌<◌, ◌≤◌, ℕ, List, length, slice_index, true, false};
ghost use Rattle.hsms_log.specs.LineFormat.{IsHexOf};
ghost use Rattle.hsms_log.specs.InnerDigits.{IsValueOf, AreSmall};

use std::simd::prelude::*;

/// Reads the bytes that digits of either case encode, at least eight bytes. Returns whether all are digits. Bytes are
/// read eight at a time. If their number is not a multiple of eight, some of the last eight are read twice.
#[inline(always)]
pub fn decode(digits: &[u8], octets: &mut [u8]) -> bool
    requires size { length digits.now ≡ 2 * length octets.old }
    requires some { 8 ≤ length octets.old }
    ensures digits { result ≡ true → IsHexOf digits.now octets.new }
    ensures other { result ≡ false → (encoded_bytes : List ℕ) → IsHexOf digits.now encoded_bytes → ⊥ }
    ensures len { length octets.new ≡ length octets.old }
{
    let mut greatest = u8x16::splat(0);
    for i in 0..octets.len() / 8 {
        greatest = greatest.simd_max(decode_at(digits, octets, 8 * i));
    }
    let last = octets.len() - 8;
    greatest = greatest.simd_max(decode_at(digits, octets, last));
    are_small(greatest)
}

/// Reads the eight bytes from this index on. Returns the values of their sixteen digits: 16 or more for each that is
/// not a digit.
#[inline(always)]
fn decode_at(digits: &[u8], octets: &mut [u8], place: usize) -> u8x16
    requires size { length digits.now ≡ 2 * length octets.old }
    requires room { place + 8 ≤ length octets.old }
    ensures len { length octets.new ≡ length octets.old }
    ensures sixteen { length result ≡ 16 }
    ensures values { (k : ℕ) → k < 16 → IsValueOf (slice_index digits.now (2 * place + k)) (slice_index result k) }
    ensures before { (k : ℕ) → k < place → slice_index octets.new k ≡ slice_index octets.old k }
    ensures joined { AreSmall result → (k : ℕ) → k < 8 → slice_index octets.new (place + k) ≡ slice_index result (2 * k) * 16 + slice_index result (2 * k + 1) }
{
    let values = values_at(digits, 2 * place);
    put_joined(values, octets, place);
    values
}

/// Returns the values of the sixteen digits from this index on, and a number from 16 on for each other byte.
#[inline(always)]
fn values_at(digits: &[u8], place: usize) -> u8x16
    requires { place + 16 ≤ length digits.now }
    ensures sixteen { length result ≡ 16 }
    ensures values { (k : ℕ) → k < 16 → IsValueOf (slice_index digits.now (place + k)) (slice_index result k) }
{
    let octets = u8x16::from_slice(&digits[place..]);
    let decimal = (octets - u8x16::splat(b'9' + 1)).simd_max(u8x16::splat(6)) + u8x16::splat(10);
    let from_a = (octets | u8x16::splat(0x20)) - u8x16::splat(b'a');
    let letter = from_a.simd_min(u8x16::splat(245)) + u8x16::splat(10);
    decimal.simd_min(letter)
}

/// Returns whether all of these are values of digits.
#[inline(always)]
fn are_small(values: u8x16) -> bool
    ensures all { result ≡ true → AreSmall values }
    ensures some { result ≡ false → (k : ℕ) × (k < 16) × (16 ≤ slice_index values k) }
{
    values.simd_ge(u8x16::splat(16)).to_bitmask() == 0
}

/// Joins pairs of values to eight bytes, and writes them from this index on.
#[inline(always)]
fn put_joined(values: u8x16, octets: &mut [u8], place: usize)
    requires { place + 8 ≤ length octets.old }
    ensures len { length octets.new ≡ length octets.old }
    ensures before { (k : ℕ) → k < place → slice_index octets.new k ≡ slice_index octets.old k }
    ensures joined { AreSmall values → (k : ℕ) → k < 8 → slice_index octets.new (place + k) ≡ slice_index values (2 * k) * 16 + slice_index values (2 * k + 1) }
{
    let pairs = u16x8::from_le_bytes(values) * u16x8::splat(0x1001);
    (pairs >> u16x8::splat(8))
        .cast::<u8>()
        .copy_to_slice(&mut octets[place..]);
}
