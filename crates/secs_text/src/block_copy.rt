//! Functions that write words to a block of bytes. A word is copied with one load and one store of a fixed size, of
//! which only the first bytes count.

ghost use Rattle.std.specs.Prelude.{◌+◌, ◌≤◌, ◌<◌, ◌++◌, [], ◌∷◌, length, take, codes};
ghost use Rattle.std.specs.Fmt.{decimal};
ghost use Rattle.secs_text.specs.InnerBlockOutput.{AppendsText, two_decimals};
ghost use Rattle.secs_text.specs.Printed.{hexadecimal, two_digits};

use crate::word_tables::{NUMBERS, WORDS};
use itoa::{Buffer, Integer};
use std::simd::Simd;

/// Appends one byte.
#[inline(always)]
pub fn append_byte(block: &mut [u8], at: usize, octet: u8) -> usize
    requires { at < length block.old }
    ensures { AppendsText block.old block.new at (octet ∷ []) result }
{
    block[at] = octet;
    at + 1
}

/// Appends bytes.
#[inline(always)]
pub fn append_slice(block: &mut [u8], at: usize, octets: &[u8]) -> usize
    requires { at + length octets.now ≤ length block.old }
    ensures { AppendsText block.old block.new at octets.now result }
{
    let end = at + octets.len();
    block[at..end].copy_from_slice(octets);
    end
}

/// Appends the first `count` bytes of a word, which begins at the start of `word`. The bytes after them may change, up
/// to `N` bytes in all.
#[inline(always)]
pub fn append_word<const N: usize>(block: &mut [u8], at: usize, word: &[u8], count: usize) -> usize
    requires room { at + N ≤ length block.old }
    requires there { count ≤ N }
    requires long { N ≤ length word.now }
    ensures appended_text { AppendsText block.old block.new at (take count word.now) result }
    ensures near { result ≤ at + N }
{
    Simd::<u8, N>::from_slice(word).copy_to_slice(&mut block[at..]);
    at + count
}

/// Appends a byte in hexadecimal, after a space.
#[inline(always)]
pub fn append_octet(block: &mut [u8], at: usize, octet: u8) -> usize
    requires { at + 8 ≤ length block.old }
    ensures appended_text { AppendsText block.old block.new at (codes " " ++ hexadecimal (octet ∷ [])) result }
    ensures near { result ≤ at + 8 }
{
    let (_, word) = WORDS.split_at(8 * usize::from(octet));
    append_word::<8>(block, at, word, 5)
}

/// Appends the two hexadecimal digits of a byte.
#[inline(always)]
pub fn append_digits(block: &mut [u8], at: usize, octet: u8) -> usize
    requires { at + 2 ≤ length block.old }
    ensures appended_text { AppendsText block.old block.new at (two_digits octet) result }
    ensures near { result ≤ at + 2 }
{
    let (_, digits) = WORDS.split_at(8 * usize::from(octet) + 3);
    append_word::<2>(block, at, digits, 2)
}

/// Appends a number below 256.
#[inline(always)]
pub fn append_small(block: &mut [u8], at: usize, number: u8) -> usize
    requires { at + 4 ≤ length block.old }
    ensures appended_text { AppendsText block.old block.new at (decimal number) result }
    ensures near { result ≤ at + 4 }
{
    let (_, word) = NUMBERS.split_at(4 * usize::from(number));
    append_word::<4>(block, at, word, usize::from(word[3]))
}

/// Appends the two digits of a number below 100.
#[inline(always)]
fn append_pair(block: &mut [u8], at: usize, number: u64) -> usize
    requires small { number < 100 }
    requires room { at + 2 ≤ length block.old }
    ensures appended_text { AppendsText block.old block.new at (two_decimals number) result }
    ensures near { result ≤ at + 2 }
{
    let (_, pair) = NUMBERS.split_at(4 * number as usize + 401);
    append_word::<2>(block, at, pair, 2)
}

/// Appends a number below 25,600.
#[inline(always)]
fn append_hundreds(block: &mut [u8], at: usize, number: u64) -> usize
    requires small { number < 25600 }
    requires room { at + 8 ≤ length block.old }
    ensures appended_text { AppendsText block.old block.new at (decimal number) result }
    ensures near { result ≤ at + 6 }
{
    if number < 256 {
        return append_small(block, at, number as u8);
    }
    let at = append_small(block, at, (number / 100) as u8);
    append_pair(block, at, number % 100)
}

/// Appends a number below 2,560,000.
#[inline(always)]
fn append_ten_thousands(block: &mut [u8], at: usize, number: u64) -> usize
    requires small { number < 2560000 }
    requires room { at + 10 ≤ length block.old }
    ensures appended_text { AppendsText block.old block.new at (decimal number) result }
    ensures near { result ≤ at + 8 }
{
    if number < 25600 {
        return append_hundreds(block, at, number);
    }
    let at = append_hundreds(block, at, number / 100);
    append_pair(block, at, number % 100)
}

/// Appends a number that is not negative.
#[inline(always)]
pub fn append_natural(block: &mut [u8], at: usize, number: u64) -> usize
    requires { at + 40 ≤ length block.old }
    ensures appended_text { AppendsText block.old block.new at (decimal number) result }
    ensures near { result ≤ at + 40 }
{
    if number >= 256000000 {
        return append_number(block, at, number);
    }
    if number < 2560000 {
        return append_ten_thousands(block, at, number);
    }
    let at = append_ten_thousands(block, at, number / 100);
    append_pair(block, at, number % 100)
}

/// Appends a number.
pub fn append_number<I: Integer>(block: &mut [u8], at: usize, number: I) -> usize
    requires { at + 40 ≤ length block.old }
    ensures appended_text { AppendsText block.old block.new at (I.text number) result }
    ensures near { result ≤ at + 40 }
{
    let mut buffer = Buffer::new();
    append_slice(block, at, buffer.format(number).as_bytes())
}
