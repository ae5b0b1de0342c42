//! Segments beside the number at which a direction begins. Numbers are those of TCP, which begin again behind 2^32;
//! here two of them are never as far as 2^31 from one another.

ghost use Rattle.std.specs.Prelude.{◌≡◌, ◌<◌, ◌+◌, ◌-◌, ◌%◌, ◌^◌, ◌&&◌, min, nat_le, ℕ};
ghost use Rattle.capture_midstream.specs.SequenceNumbers.{ArePlaces, before_by, from_by, number_following, number_by, reaches_by};

const HALF: u32 = 1 << 31;

/// How many octets of a segment, of which the first has this number, stand before the beginning.
pub fn octets_before(begin: u32, number: u32, length: usize) -> usize
    ensures places { (start place : ℕ) → ArePlaces start begin place number → result ≡ min (start - place) length }
    ensures numbers { result ≡ before_by begin number length }
{
    let ahead = begin.wrapping_sub(number);
    if ahead < HALF {
        (ahead as usize).min(length)
    } else {
        0
    }
}

/// Whether a segment, of which the first octet has this number, begins at or before the beginning, and ends at or
/// behind it.
pub fn reaches(begin: u32, number: u32, length: usize) -> bool
    ensures places { (start place : ℕ) → ArePlaces start begin place number
        → result ≡ (nat_le place start && nat_le start (place + length)) }
    ensures numbers { result ≡ reaches_by begin number length }
{
    let ahead = begin.wrapping_sub(number);
    if ahead < HALF {
        ahead as usize <= length
    } else {
        false
    }
}

/// Whether a number stands at the beginning or behind it.
pub fn is_from(begin: u32, number: u32) -> bool
    ensures places { (start place : ℕ) → ArePlaces start begin place number → result ≡ nat_le start place }
    ensures numbers { result ≡ from_by begin number }
{
    number.wrapping_sub(begin) < HALF
}

/// The number of a segment from the beginning on: that of the beginning, where it stands before it.
pub(crate) fn number_from(begin: u32, number: u32) -> u32
    ensures { result ≡ number_by begin number }
{
    if begin.wrapping_sub(number) < HALF {
        begin
    } else {
        number
    }
}

/// The number behind so many octets.
pub(crate) fn number_following(number: u32, length: usize) -> u32
    ensures { result ≡ number_following number length }
{
    number.wrapping_add((length % (1 << 32)) as u32)
}
