//! Hexadecimal digits, written for sixteen bytes at once.

ghost use Rattle.std.specs.Prelude.{◌≡◌, ◌≤◌, ◌*◌, length, map, take};
ghost use Rattle.hex.specs.Hex.{encode_lower};
ghost use Rattle.hsms_log.specs.InnerDigits.{digit_of};

use std::simd::prelude::*;

/// Returns the digits of sixteen bytes.
#[inline(always)]
pub fn digits_of_sixteen(octets: &[u8; 16]) -> [u8; 32]
    ensures { result ≡ encode_lower octets.now }
{
    let octets = u8x16::from_array(*octets);
    let high = digits_of_values(octets >> u8x16::splat(4));
    let low = digits_of_values(octets & u8x16::splat(15));
    let mut digits = [0u8; 32];
    let (first, second) = high.interleave(low);
    first.copy_to_slice(&mut digits);
    second.copy_to_slice(&mut digits[16..]);
    digits
}

/// Returns the digits of at most sixteen bytes. The rest of the array has no meaning.
#[inline(always)]
pub fn digits_of_few(octets: &[u8]) -> [u8; 32]
    requires { length octets.now ≤ 16 }
    ensures { take (2 * length octets.now) result ≡ encode_lower octets.now }
{
    let mut sixteen = [0u8; 16];
    sixteen[..octets.len()].copy_from_slice(octets);
    digits_of_sixteen(&sixteen)
}

// Returns the digit of each value that is below sixteen.
#[inline(always)]
fn digits_of_values(values: u8x16) -> u8x16
    ensures { result ≡ map digit_of values }
{
    let is_letter = values.simd_ge(u8x16::splat(10));
    is_letter.select(
        values + u8x16::splat(b'a' - 10),
        values + u8x16::splat(b'0'),
    )
}
