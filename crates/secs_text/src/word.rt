//! The values that words represent.

ghost use Rattle.std.specs.Prelude.{◌≡◌, ◌≤◌, ◌<◌, ◌+◌, ◌^◌, ◌*◌, ◌%◌, ◌==◌, ◌&&◌, if◌then◌else◌, not, true, length, take, option_and_then, Some, IfSome};
ghost use Rattle.std.specs.List.{prefix_len, list_all};
ghost use Rattle.std.specs.Str.Parse.{digits_value};
ghost use Rattle.secs_text.specs.Octets.{is_digit};
ghost use Rattle.std.specs.Int.Signed.{mag};
ghost use Rattle.secs_text.specs.Words.{is_numeral, number_below, signed_below, octet_of_digits, hex_octets, sized, float_of, head_of_parts, head_word, bad_head, no_head};
ghost use Rattle.secs_text.specs.InnerHeadWordView.{head_seen, IsStream};

use crate::byte_class::{all_digits, is_digit};

/// Returns the number of digits at the start, and the number that they represent, modulo 2^64.
#[inline(always)]
#[tactic(auto, using(crate::proofs::Prefixes::front_ends, crate::proofs::Prefixes::front_is_whole))]
pub fn leading_number(octets: &[u8]) -> (usize, u64)
    ensures length { result.0 ≡ prefix_len is_digit octets.now }
    ensures within { result.0 ≤ length octets.now }
    ensures number { result.1 ≡ digits_value 10 (take result.0 octets.now) % 2 ^ 64 }
{
    let mut number: u64 = 0;
    for i in 0..octets.len() {
        let octet = octets[i];
        if !is_digit(octet) {
            return (i, number);
        }
        number = number
            .wrapping_mul(10)
            .wrapping_add(u64::from(octet - b'0'));
    }
    (octets.len(), number)
}

/// Returns the number that a numeral of any length represents. Returns `None` unless it is below 2^64.
#[inline(never)]
fn long_number(numeral: &[u8]) -> Option<u64>
    requires { is_numeral numeral.now ≡ true }
    ensures { result ≡ number_below (2 ^ 64) numeral.now }
{
    let mut number: u64 = 0;
    for digit in numeral {
        number = number
            .checked_mul(10)?
            .checked_add(u64::from(*digit - b'0'))?;
    }
    Some(number)
}

/// Returns the number that digits represent. Returns `None` unless they are a numeral and the number is below 2^64.
/// `number` is the value of the digits modulo 2^64.
#[inline(always)]
pub fn number_of_digits(digits: &[u8], number: u64) -> Option<u64>
    requires all { list_all is_digit digits.now ≡ true }
    requires number { number ≡ digits_value 10 digits.now % 2 ^ 64 }
    ensures { result ≡ number_below (2 ^ 64) digits.now }
{
    let [first, rest @ ..] = digits else {
        return None;
    };
    if *first == b'0' && !rest.is_empty() {
        return None;
    }
    if digits.len() > 19 {
        return long_number(digits);
    }
    Some(number)
}

/// Returns the number that a word represents. Returns `None` unless it is a numeral below 2^64.
pub fn number(word: &[u8]) -> Option<u64>
    ensures { result ≡ number_below (2 ^ 64) word.now }
{
    let (digits, number) = leading_number(word);
    if digits != word.len() {
        return None;
    }
    number_of_digits(word, number)
}

/// Returns the number that a word represents. Returns `None` unless it is a numeral of at most `most`.
#[inline(always)]
#[tactic(auto, unfolding(crate::specs::Words::number_below))]
pub fn number_at_most(most: u64, word: &[u8]) -> Option<u64>
    ensures value { result ≡ number_below (most + 1) word.now }
    ensures within { IfSome result (λ n. n ≤ most) }
{
    number(word).filter(|n| *n <= most)
}

/// Returns the number that a word represents. Returns `None` unless it is at least `-most - 1` and at most `most`.
#[tactic(auto, unfolding(crate::specs::Words::signed_below))]
pub fn signed_at_most(most: u64, word: &[u8]) -> Option<i64>
    requires { most < 2 ^ 63 }
    ensures value { result ≡ signed_below (most + 1) word.now }
    ensures within { IfSome result (λ z. mag z ≤ most) }
{
    match word {
        [] => None,
        [b'-', rest @ ..] => {
            let number = number_at_most(most + 1, rest)?;
            if number == 0 {
                None
            } else {
                Some(-1 - (number - 1) as i64)
            }
        }
        _ => Some(number_at_most(most, word)? as i64),
    }
}

// The value of each byte as a hexadecimal digit, and 256 for a byte that is no digit: two digits of which one is 256
// make more than 255.
static HEX_DIGITS: [u16; 256] = [
    256, 256, 256, 256, 256, 256, 256, 256, 256, 256, 256, 256, 256, 256, 256, 256, 256, 256, 256,
    256, 256, 256, 256, 256, 256, 256, 256, 256, 256, 256, 256, 256, 256, 256, 256, 256, 256, 256,
    256, 256, 256, 256, 256, 256, 256, 256, 256, 256, 0, 1, 2, 3, 4, 5, 6, 7, 8, 9, 256, 256, 256,
    256, 256, 256, 256, 10, 11, 12, 13, 14, 15, 256, 256, 256, 256, 256, 256, 256, 256, 256, 256,
    256, 256, 256, 256, 256, 256, 256, 256, 256, 256, 256, 256, 256, 256, 256, 256, 10, 11, 12, 13,
    14, 15, 256, 256, 256, 256, 256, 256, 256, 256, 256, 256, 256, 256, 256, 256, 256, 256, 256,
    256, 256, 256, 256, 256, 256, 256, 256, 256, 256, 256, 256, 256, 256, 256, 256, 256, 256, 256,
    256, 256, 256, 256, 256, 256, 256, 256, 256, 256, 256, 256, 256, 256, 256, 256, 256, 256, 256,
    256, 256, 256, 256, 256, 256, 256, 256, 256, 256, 256, 256, 256, 256, 256, 256, 256, 256, 256,
    256, 256, 256, 256, 256, 256, 256, 256, 256, 256, 256, 256, 256, 256, 256, 256, 256, 256, 256,
    256, 256, 256, 256, 256, 256, 256, 256, 256, 256, 256, 256, 256, 256, 256, 256, 256, 256, 256,
    256, 256, 256, 256, 256, 256, 256, 256, 256, 256, 256, 256, 256, 256, 256, 256, 256, 256, 256,
    256, 256, 256, 256, 256, 256, 256, 256, 256, 256, 256, 256, 256, 256, 256, 256, 256, 256, 256,
    256, 256, 256,
];

/// Returns the byte that two hexadecimal digits represent. Returns `None` if one of them is no digit.
#[inline(always)]
pub fn octet_of_digits(high: u8, low: u8) -> Option<u8>
    ensures { result ≡ octet_of_digits high low }
{
    let number = 16 * HEX_DIGITS[high as usize] + HEX_DIGITS[low as usize];
    if number > 255 {
        return None;
    }
    Some(number as u8)
}

/// Returns the bytes that digits represent, two digits for each byte. Returns `None` unless there are `N` bytes.
fn sized_octets<const N: usize>(digits: &[u8]) -> Option<[u8; N]>
    requires { N < 256 }
    ensures { result ≡ option_and_then (sized N) (hex_octets digits.now) }
{
    if digits.len() != 2 * N {
        return None;
    }
    let mut octets = [0; N];
    for i in 0..N {
        octets[i] = octet_of_digits(digits[2 * i], digits[2 * i + 1])?;
    }
    Some(octets)
}

/// Returns the bytes of the float that a word represents. Returns `None` if it represents none.
#[tactic(auto, unfolding(crate::specs::Words::float_of, crate::specs::Words::octets_of))]
pub fn float_of<const N: usize>(word: &[u8]) -> Option<[u8; N]>
    requires { N < 256 }
    ensures { result ≡ float_of N word.now }
{
    match word {
        [b'0', b'x', digits @ ..] => sized_octets(digits),
        _ => None,
    }
}

/// The result of reading a word as a head.
#[derive(Clone, Copy)]
pub enum HeadWord {
    Head(u8, u8),
    /// A number is out of range or has a leading zero.
    BadHead,
    NoHead,
}

/// Classifies a word whose stream and function, as they are written, are not both valid.
#[inline(never)]
fn wrong_head(stream: &[u8], function: &[u8]) -> HeadWord
    ensures value { head_seen result
        ≡ (if not (length stream.now == 0) && not (length function.now == 0) && list_all is_digit function.now
        then bad_head else no_head) }
    ensures in_range { IsStream result }
{
    if stream.is_empty() || function.is_empty() || !all_digits(function) {
        HeadWord::NoHead
    } else {
        HeadWord::BadHead
    }
}

/// Returns the head with the stream whose digits are `stream`, and the function in `rest`. `number` is the value of
/// those digits modulo 2^64.
#[inline(always)]
#[tactic(auto, unfolding(crate::specs::Words::number_below))]
fn head_of_parts(stream: &[u8], number: u64, rest: &[u8]) -> HeadWord
    requires all { list_all is_digit stream.now ≡ true }
    requires number { number ≡ digits_value 10 stream.now % 2 ^ 64 }
    ensures value { head_seen result ≡ head_of_parts stream.now rest.now }
    ensures in_range { IsStream result }
{
    let [b'F', function @ ..] = rest else {
        return HeadWord::NoHead;
    };
    let Some(stream_number) = number_of_digits(stream, number).filter(|n| *n < 128) else {
        return wrong_head(stream, function);
    };
    let Some(function_number) = number_at_most(255, function) else {
        return wrong_head(stream, function);
    };
    HeadWord::Head(stream_number as u8, function_number as u8)
}

/// Returns the stream and function that a word names.
#[inline(always)]
#[tactic(auto, unfolding(crate::specs::Words::head_word))]
pub fn head_of(word: &[u8]) -> HeadWord
    ensures value { head_seen result ≡ head_word word.now }
    ensures in_range { IsStream result }
{
    let [b'S', rest @ ..] = word else {
        return HeadWord::NoHead;
    };
    let (digits, number) = leading_number(rest);
    let (stream, rest) = rest.split_at(digits);
    head_of_parts(stream, number, rest)
}
