//! Formats whose values are single words: printing the bytes of a value, and parsing a word to bytes.

ghost use Rattle.std.specs.Prelude.{◌≡◌, ◌≤◌, ◌<◌, ◌-◌, ◌+◌, ◌*◌, ◌^◌, ◌++◌, ℕ, List, [], ◌∷◌, Option, true, length, codes, option_map, IfSome};
ghost use Rattle.std.specs.Fmt.{decimal, signed_decimal};
ghost use Rattle.secs_item.specs.Decoding.{octet, truth, signed};
ghost use Rattle.secs_item.specs.ShortestEncoding.{octet_alone, octet_of_truth, octets_of_signed};
ghost use Rattle.secs_text.specs.InnerBlockOutput.{AppendsText};
ghost use Rattle.secs_text.specs.Printed.{hexadecimal, truth_word};
ghost use Rattle.secs_text.specs.InnerByteWord.{IsShortWord};
ghost use Rattle.secs_text.specs.InnerWidths.{is_width, width_of, unsigned, octets_of_unsigned};
ghost use Rattle.secs_text.specs.Words.{number_below, signed_below, octet_of, float_of, truth_of};

use crate::block_copy::{
    append_byte, append_digits, append_natural, append_number, append_octet, append_slice,
};
use crate::word::{float_of, number_at_most, octet_of_digits, signed_at_most};
use byteorder::{BigEndian, ByteOrder};

/// A format whose values are single words, each for `N` bytes.
pub trait WordFormat<const N: usize> {
    /// The word printed for the value of these bytes.
    ghost printed: { List ℕ → List ℕ };

    /// The bytes of the value that a word represents, if it represents one.
    ghost encoded_bytes: { List ℕ → Option (List ℕ) };

    /// Appends the word of a value, after a space.
    fn append_chunk(block: &mut [u8], at: usize, octets: &[u8; N]) -> usize
        requires width { is_width N ≡ true }
        requires room { at + 48 ≤ length block.old }
        ensures appended_text { AppendsText block.old block.new at (codes " " ++ printed octets.now) result }
        ensures near { result ≤ at + 48 };

    /// Returns the bytes of the value that a word represents. Returns `None` if it represents none.
    fn parse(word: &[u8]) -> Option<[u8; N]>
        requires { is_width N ≡ true }
        ensures { result ≡ encoded_bytes word.now };
}

/// A format whose values are single bytes. Each is represented by a word that has `N` bytes with the space before it.
pub trait ShortWord<const N: usize> {
    /// The bytes of the value that a word represents, if it represents one.
    ghost reads: { List ℕ → Option (List ℕ) };

    /// Returns the byte that the word after the space represents. Returns `None` if it represents none.
    fn read(text: &[u8; N]) -> Option<u8>
        ensures { IfSome result (λ octet. IsShortWord reads octet text.now) };
}

/// Bytes of any meaning, JIS-8 characters, and two-byte characters as single bytes: in hexadecimal.
pub struct Octets;

impl WordFormat<1> for Octets {
    ghost printed = { λ o. hexadecimal (octet o ∷ []) };

    ghost encoded_bytes = { λ w. option_map octet_alone (octet_of w) };

    fn append_chunk(block: &mut [u8], at: usize, octets: &[u8; 1]) -> usize {
        append_octet(block, at, octets[0])
    }

    #[tactic(auto, using(crate::proofs::Hexadecimal::one_octet))]
    fn parse(word: &[u8]) -> Option<[u8; 1]> {
        float_of(word)
    }
}

impl ShortWord<5> for Octets {
    ghost reads = { λ w. option_map octet_alone (octet_of w) };

    #[inline(always)]
    fn read(text: &[u8; 5]) -> Option<u8> {
        let [space, zero, x, high, low] = *text;
        // If the space, the zero and the `x` match, the first digit alone remains of the four bytes.
        let digit = u32::from_be_bytes([space, zero, x, high]).wrapping_sub(0x20_30_78_00);
        if digit > 0xff {
            return None;
        }
        octet_of_digits(digit as u8, low)
    }
}

/// Truth values.
pub struct Truths;

impl WordFormat<1> for Truths {
    ghost printed = { λ o. truth_word (truth o) };

    ghost encoded_bytes = { λ w. option_map octet_of_truth (truth_of w) };

    fn append_chunk(block: &mut [u8], at: usize, octets: &[u8; 1]) -> usize {
        let at = append_byte(block, at, b' ');
        append_byte(block, at, if octets[0] != 0 { b'T' } else { b'F' })
    }

    #[tactic(auto, unfolding(crate::specs::Words::truth_of))]
    fn parse(word: &[u8]) -> Option<[u8; 1]> {
        match word {
            [b'T'] => Some([1]),
            [b'F'] => Some([0]),
            _ => None,
        }
    }
}

impl ShortWord<2> for Truths {
    ghost reads = { λ w. option_map octet_of_truth (truth_of w) };

    #[inline(always)]
    fn read(text: &[u8; 2]) -> Option<u8> {
        match text {
            [b' ', b'T'] => Some(1),
            [b' ', b'F'] => Some(0),
            _ => None,
        }
    }
}

/// Unsigned numbers of `N` bytes.
pub struct Unsigned;

impl<const N: usize> WordFormat<N> for Unsigned {
    ghost printed = { λ o. decimal (unsigned N o) };

    ghost encoded_bytes = { λ w. option_map (octets_of_unsigned N) (number_below (2 ^ (8 * N)) w) };

    fn append_chunk(block: &mut [u8], at: usize, octets: &[u8; N]) -> usize {
        let at = append_byte(block, at, b' ');
        append_natural(block, at, BigEndian::read_uint(octets, N))
    }

    fn parse(word: &[u8]) -> Option<[u8; N]> {
        let number = number_at_most(u64::MAX >> (64 - 8 * N), word)?;
        let mut octets = [0; N];
        BigEndian::write_uint(&mut octets, number, N);
        Some(octets)
    }
}

/// Returns the signed number in the bytes.
#[inline(always)]
fn signed_of<const N: usize>(octets: &[u8; N]) -> i64
    requires { is_width N ≡ true }
    ensures { result ≡ signed (width_of N) octets.now }
{
    match N {
        1 => i64::from(octets[0].cast_signed()),
        2 => i64::from(BigEndian::read_i16(octets)),
        4 => i64::from(BigEndian::read_i32(octets)),
        _ => BigEndian::read_i64(octets),
    }
}

/// Signed numbers of `N` bytes.
pub struct Signed;

impl<const N: usize> WordFormat<N> for Signed {
    ghost printed = { λ o. signed_decimal (signed (width_of N) o) };

    ghost encoded_bytes = { λ w. option_map (octets_of_signed (width_of N)) (signed_below (2 ^ (8 * N - 1)) w) };

    fn append_chunk(block: &mut [u8], at: usize, octets: &[u8; N]) -> usize {
        let at = append_byte(block, at, b' ');
        let number = signed_of(octets);
        if number >= 0 {
            append_natural(block, at, number as u64)
        } else {
            append_number(block, at, number)
        }
    }

    fn parse(word: &[u8]) -> Option<[u8; N]> {
        let number = signed_at_most(u64::MAX >> (65 - 8 * N), word)?;
        let mut octets = [0; N];
        BigEndian::write_int(&mut octets, number, N);
        Some(octets)
    }
}

/// Floating-point numbers of `N` bytes, in hexadecimal.
pub struct Floats;

impl<const N: usize> WordFormat<N> for Floats {
    ghost printed = { hexadecimal };

    ghost encoded_bytes = { float_of N };

    fn append_chunk(block: &mut [u8], at: usize, octets: &[u8; N]) -> usize {
        let mut end = append_slice(block, at, b" 0x");
        for octet in octets {
            end = append_digits(block, end, *octet);
        }
        end
    }

    fn parse(word: &[u8]) -> Option<[u8; N]> {
        float_of(word)
    }
}
