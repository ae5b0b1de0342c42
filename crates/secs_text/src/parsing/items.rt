//! Encoding of items from their notation straight to bytes.

ghost use Rattle.std.specs.Prelude.{◌≡◌, ◌≤◌, ◌+◌};
ghost use Rattle.secs_item.specs.Item.{list, no_elements};
ghost use Rattle.secs_text.specs.InnerRemainingTokens.{left, octets_left};
ghost use Rattle.secs_text.specs.ParserStates.{type_expected, in_item};
ghost use Rattle.secs_text.specs.InnerParseSteps.{count_seen};
ghost use Rattle.secs_text.specs.InnerEncodedText.{ItemRead, Deep};

use crate::fault::TextFault;
use crate::item_header::{check_count, format_and_count};
use crate::parsing::values::parse_values;
use crate::token::{Count, Token};
use crate::tokens::Tokens;
use secs_item::{Format, patch_header};

/// Reads the elements of a list, after its type name and its count, and appends the list's encoding. Lists in it may be
/// nested at most `depth` deep. Returns true if the list and each of its elements have an encoding.
#[cycle(parse_item)]
fn elements(
    out: &mut Vec<u8>,
    tokens: &mut Tokens,
    count: Option<Count>,
    depth: u8,
) -> Result<bool, TextFault>
    ensures reads { ItemRead (Deep (1 + depth)) (λ b. in_item b (record { count = count_seen count; so_far = list no_elements })) result
        (left tokens.old) (left tokens.new) out.old.items out.new.items }
    ensures no_longer { octets_left tokens.new ≤ octets_left tokens.old }
{
    let start = out.len();
    out.extend_from_slice(&[0, 0])?;
    let mut number = 0;
    let mut fits = true;
    loop {
        let next = tokens.next();
        match next.token {
            Token::Less => {
                fits &= item(out, tokens, next.at, depth)?;
                number += 1;
            }
            Token::Greater => break,
            _ => return Err(TextFault::Syntax { at: next.at }),
        }
    }
    check_count(count, number)?;
    if !fits {
        return Ok(false);
    }
    Ok(patch_header(out, start, Format::List, number)?)
}

/// Reads the item whose `<` is at offset `opening`, and appends its encoding. Lists may be nested at most `depth` deep.
/// Returns true if the item has an encoding: three length bytes can count each of its bodies and lists. Otherwise the
/// appended bytes are meaningless.
#[cycle(parse_item)]
pub fn item(
    out: &mut Vec<u8>,
    tokens: &mut Tokens,
    opening: usize,
    depth: u8,
) -> Result<bool, TextFault>
    ensures reads { ItemRead (Deep depth) (λ b. type_expected b opening) result
        (left tokens.old) (left tokens.new) out.old.items out.new.items }
    ensures no_longer { octets_left tokens.new ≤ octets_left tokens.old }
{
    let (format, count) = format_and_count(tokens, opening, depth)?;
    let Format::List = format else {
        let start = out.len();
        out.extend_from_slice(&[0, 0])?;
        parse_values(out, tokens, format, count)?;
        let number = out.len() - start - 2;
        return Ok(patch_header(out, start, format, number)?);
    };
    elements(out, tokens, count, depth - 1)
}
