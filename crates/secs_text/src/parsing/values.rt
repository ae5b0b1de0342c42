//! Encoding of values from their words to bytes.

ghost use Rattle.std.specs.Prelude.{◌≡◌, ◌≤◌, ◌+◌, true, false, length, IfOk, OnOk};
ghost use Rattle.secs_item.specs.Format.{is_list, value_size};
ghost use Rattle.secs_text.specs.InnerRemainingTokens.{left, octets_left};
ghost use Rattle.secs_text.specs.InnerParseSteps.{count_seen};
ghost use Rattle.secs_text.specs.InnerEncodedText.{CollectsMore, AppendsBytes, ValuesRead, word_octets};
ghost use Rattle.secs_text.specs.InnerWidths.{is_width};

use crate::fault::TextFault;
use crate::formats::{Floats, Octets, Signed, Truths, Unsigned, WordFormat};
use crate::item_header::check_count;
use crate::parsing::runs::parse_run;
use crate::token::{Count, Token};
use crate::tokens::Tokens;
use secs_item::{Format, octets_known};
use std::alloc::AllocError;

/// Appends the bytes of the value that a word represents. Returns false if it represents none.
#[inline(always)]
fn push_word<const N: usize, W: WordFormat<N>>(
    out: &mut Vec<u8>,
    word: &[u8],
) -> Result<bool, AllocError>
    requires { is_width N ≡ true }
    ensures octets { IfOk result (λ is_value. AppendsBytes is_value out.old.items out.new.items (W.encoded_bytes word.now)) }
    ensures size { IfOk result (λ is_value. is_value ≡ true → length out.new.items ≡ length out.old.items + N) }
{
    let Some(octets) = W::parse(word) else {
        return Ok(false);
    };
    out.extend_from_slice(&octets)?;
    Ok(true)
}

/// Appends the bytes of the value that a word represents in an item of this format. Returns false if it represents
/// none.
#[inline(always)]
fn push_value(out: &mut Vec<u8>, format: Format, word: &[u8]) -> Result<bool, AllocError>
    ensures octets { IfOk result (λ is_value. AppendsBytes is_value out.old.items out.new.items (word_octets format word.now)) }
    ensures size { IfOk result (λ is_value. is_value ≡ true → length out.new.items ≡ length out.old.items + value_size format) }
{
    match format {
        Format::List => Ok(false),
        Format::Binary | Format::Ascii | Format::Jis8 | Format::Char2 => {
            push_word::<1, Octets>(out, word)
        }
        Format::Boolean => push_word::<1, Truths>(out, word),
        Format::I1 => push_word::<1, Signed>(out, word),
        Format::I2 => push_word::<2, Signed>(out, word),
        Format::I4 => push_word::<4, Signed>(out, word),
        Format::I8 => push_word::<8, Signed>(out, word),
        Format::U1 => push_word::<1, Unsigned>(out, word),
        Format::U2 => push_word::<2, Unsigned>(out, word),
        Format::U4 => push_word::<4, Unsigned>(out, word),
        Format::U8 => push_word::<8, Unsigned>(out, word),
        Format::F4 => push_word::<4, Floats>(out, word),
        Format::F8 => push_word::<8, Floats>(out, word),
    }
}

/// Appends the bytes of the next values, up to the first word that is not spaced as it is printed. Appends nothing
/// unless the values of this format are single bytes whose words have one length.
fn parse_printed(out: &mut Vec<u8>, tokens: &mut Tokens, format: Format) -> Result<(), AllocError>
    ensures collected { OnOk result (CollectsMore format (left tokens.old) (left tokens.new) out.old.items out.new.items) }
    ensures no_longer { octets_left tokens.new ≤ octets_left tokens.old }
{
    match format {
        Format::Binary | Format::Ascii | Format::Jis8 | Format::Char2 => {
            parse_run::<5, Octets>(out, tokens, format)
        }
        Format::Boolean => parse_run::<2, Truths>(out, tokens, format),
        _ => Ok(()),
    }
}

/// Reads the values of an item up to its `>`, and appends their bytes.
pub fn parse_values(
    out: &mut Vec<u8>,
    tokens: &mut Tokens,
    format: Format,
    count: Option<Count>,
) -> Result<(), TextFault>
    requires no_list { is_list format ≡ false }
    ensures values { ValuesRead format (count_seen count) result (left tokens.old) (left tokens.new) out.old.items out.new.items }
    ensures no_longer { octets_left tokens.new ≤ octets_left tokens.old }
{
    let start = out.len();
    parse_printed(out, tokens, format)?;
    loop {
        let next = tokens.next();
        match next.token {
            Token::Word(word) => {
                if !push_value(out, format, word)? {
                    return Err(TextFault::Number { at: next.at });
                }
            }
            Token::Quoted(text) => {
                let Format::Ascii = format else {
                    return Err(TextFault::Syntax { at: next.at });
                };
                octets_known(text);
                out.extend_from_slice(text)?;
            }
            Token::Greater => break,
            _ => return Err(TextFault::Syntax { at: next.at }),
        }
    }
    check_count(count, (out.len() - start) / format.size())
}
