//! Classes of bytes.

ghost use Rattle.std.specs.Prelude.{◌≡◌, ◌≤◌, ◌<◌, length, slice_index, false};
ghost use Rattle.std.specs.List.{prefix_len, list_all};
ghost use Rattle.secs_text.specs.Octets.{is_white, is_digit, is_of_word, is_quotable};

fn is_white(octet: u8) -> bool
    ensures { result ≡ is_white octet }
{
    matches!(octet, b' ' | b'\t' | b'\r' | b'\n')
}

// A table indexed by byte. A byte that is allowed in a word has itself as its entry; every other entry is a dot.
static OF_WORD: [u8; 256] = *b"\
    ................................\
    .............-..0123456789......\
    .ABCDEFGHIJKLMNOPQRSTUVWXYZ.....\
    .abcdefghijklmnopqrstuvwxyz.....\
    ................................\
    ................................\
    ................................\
    ................................";

#[inline(always)]
pub fn is_of_word(octet: u8) -> bool
    ensures { result ≡ is_of_word octet }
{
    OF_WORD[octet as usize] != b'.'
}

pub fn is_quotable(octet: u8) -> bool
    ensures { result ≡ is_quotable octet }
{
    matches!(octet, b' '..=b'~') && octet != b'"'
}

/// Returns the number of white-space bytes at the start.
#[inline(always)]
#[tactic(auto, using(crate::proofs::Prefixes::front_of_one))]
pub fn white_length(octets: &[u8]) -> usize
    ensures length { result ≡ prefix_len is_white octets.now }
    ensures within { result ≤ length octets.now }
    ensures stops { result < length octets.now → is_white (slice_index octets.now result) ≡ false }
{
    match octets {
        [first, second, ..] if is_white(*first) && !is_white(*second) => 1,
        _ => long_white_length(octets),
    }
}

/// Returns the number of white-space bytes at the start, without a fast path for small numbers.
#[inline(never)]
#[tactic(auto, using(crate::proofs::Prefixes::front_ends, crate::proofs::Prefixes::front_is_whole))]
fn long_white_length(octets: &[u8]) -> usize
    ensures length { result ≡ prefix_len is_white octets.now }
    ensures within { result ≤ length octets.now }
    ensures stops { result < length octets.now → is_white (slice_index octets.now result) ≡ false }
{
    for i in 0..octets.len() {
        if !is_white(octets[i]) {
            return i;
        }
    }
    octets.len()
}

/// Returns the number of bytes at the start that are allowed in a word.
#[tactic(auto, using(crate::proofs::Prefixes::front_ends, crate::proofs::Prefixes::front_is_whole))]
pub fn word_length(octets: &[u8]) -> usize
    ensures length { result ≡ prefix_len is_of_word octets.now }
    ensures within { result ≤ length octets.now }
{
    for i in 0..octets.len() {
        if !is_of_word(octets[i]) {
            return i;
        }
    }
    octets.len()
}

pub fn is_digit(octet: u8) -> bool
    ensures { result ≡ is_digit octet }
{
    matches!(octet, b'0'..=b'9')
}

/// Returns true if all bytes are digits.
pub fn all_digits(octets: &[u8]) -> bool
    ensures { result ≡ list_all is_digit octets.now }
{
    octets.iter().all(|c| is_digit(*c))
}
