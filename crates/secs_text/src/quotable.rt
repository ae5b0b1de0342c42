//! A check of sixteen bytes at once for bytes that are allowed between quotes.

ghost use Rattle.std.specs.Prelude.{◌≡◌, ◌≤◌, length, map, not};
ghost use Rattle.std.specs.List.{prefix_len};
ghost use Rattle.std.specs.Simd.Lanes.{mask_l};
ghost use Rattle.secs_text.specs.Octets.{is_quotable};

use crate::byte_class::is_quotable;
use std::simd::prelude::*;

/// Returns one bit for each of sixteen bytes, the lowest for the first. A bit is set if its byte is not allowed between
/// quotes.
#[inline(always)]
fn others(octets: u8x16) -> u64
    ensures { result ≡ mask_l (map (λ c. not (is_quotable c)) octets) }
{
    let unprintable = (octets - u8x16::splat(b' ')).simd_ge(u8x16::splat(95));
    (unprintable | octets.simd_eq(u8x16::splat(b'"'))).to_bitmask()
}

/// Returns the number of bytes at the start that are allowed between quotes.
#[inline(always)]
pub fn quotable_length(octets: &[u8]) -> usize
    ensures length { result ≡ prefix_len is_quotable octets.now }
    ensures within { result ≤ length octets.now }
{
    let mut i = 0;
    while octets.len() - i >= 16 {
        let found = others(u8x16::from_slice(&octets[i..]));
        if found != 0 {
            return i + found.trailing_zeros() as usize;
        }
        i += 16;
    }
    while i < octets.len() && is_quotable(octets[i]) {
        i += 1;
    }
    i
}
