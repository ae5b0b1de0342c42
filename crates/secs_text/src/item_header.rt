//! The opening of an item: its type name and its count.

ghost use Rattle.std.specs.Prelude.{◌≡◌, ◌≤◌, ◌<◌, ◌+◌, length, IfOk};
ghost use Rattle.secs_item.specs.Item.{Value};
ghost use Rattle.secs_text.specs.InnerRemainingTokens.{left, octets_left};
ghost use Rattle.secs_text.specs.ParserStates.{Rules, Before, walk, type_expected, after_type, in_item};
ghost use Rattle.secs_text.specs.Body.{nothing_of};
ghost use Rattle.secs_text.specs.InnerParseSteps.{Reads, count_seen, Checks};
ghost use Rattle.secs_item.specs.declared.format.Format.TheVariants as format;

use crate::canonical_tokens::next_opening;
use crate::fault::TextFault;
use crate::token::{Count, Token};
use crate::tokens::Tokens;
use crate::type_name::format_named;
use crate::word::number;
use secs_item::Format;

/// Reads the type name after the `<` at offset `opening`. Lists may be nested at most `depth` deep.
#[inline(never)]
fn type_name(tokens: &mut Tokens, opening: usize, depth: u8) -> Result<Format, TextFault>
    ensures reads { (rules : Rules) (b : Before) → length b.lists + depth ≡ rules.depth
        → Reads result (walk rules (type_expected b opening) (left tokens.old))
        (λ f. walk rules (after_type b (nothing_of f)) (left tokens.new)) }
    ensures list { IfOk result (λ f. f ≡ format.List → 0 < depth) }
    ensures no_longer { octets_left tokens.new ≤ octets_left tokens.old }
{
    let next = tokens.next();
    let Token::Word(word) = next.token else {
        return Err(TextFault::Syntax { at: next.at });
    };
    match format_named(word) {
        None => Err(TextFault::Syntax { at: next.at }),
        Some(Format::List) if depth == 0 => Err(TextFault::Deep { at: opening }),
        Some(format) => Ok(format),
    }
}

/// Reads the count. Returns `None` if none is written.
#[inline(never)]
fn optional_count(tokens: &mut Tokens) -> Result<Option<Count>, TextFault>
    ensures reads { (rules : Rules) (b : Before) (v : Value)
        → Reads result (walk rules (after_type b v) (left tokens.old))
        (λ c. walk rules (in_item b (record { count = count_seen c; so_far = v })) (left tokens.new)) }
    ensures no_longer { octets_left tokens.new ≤ octets_left tokens.old }
{
    let mut ahead = *tokens;
    let bracket = ahead.next();
    let Token::Bracket = bracket.token else {
        return Ok(None);
    };
    *tokens = ahead;
    let next = tokens.next();
    let Token::Word(word) = next.token else {
        return Err(TextFault::Syntax { at: next.at });
    };
    let Some(number) = number(word) else {
        return Err(TextFault::Number { at: next.at });
    };
    let next = tokens.next();
    let Token::BracketEnd = next.token else {
        return Err(TextFault::Syntax { at: next.at });
    };
    let at = bracket.at;
    Ok(Some(Count { at, number }))
}

/// Reads the type name after the `<` at offset `opening` and the count, if one is written, token by token. Lists may be
/// nested at most `depth` deep.
#[inline(never)]
fn long_opening(
    tokens: &mut Tokens,
    opening: usize,
    depth: u8,
) -> Result<(Format, Option<Count>), TextFault>
    ensures reads { (rules : Rules) (b : Before) → length b.lists + depth ≡ rules.depth
        → Reads result (walk rules (type_expected b opening) (left tokens.old))
        (λ o. walk rules (in_item b (record { count = count_seen o.1; so_far = nothing_of o.0 })) (left tokens.new)) }
    ensures list { IfOk result (λ o. o.0 ≡ format.List → 0 < depth) }
    ensures no_longer { octets_left tokens.new ≤ octets_left tokens.old }
{
    let format = type_name(tokens, opening, depth)?;
    let count = optional_count(tokens)?;
    Ok((format, count))
}

/// Reads the type name of the item whose `<` is at offset `opening`, and its count, if one is written. Lists may be
/// nested at most `depth` deep.
#[inline(always)]
pub fn format_and_count(
    tokens: &mut Tokens,
    opening: usize,
    depth: u8,
) -> Result<(Format, Option<Count>), TextFault>
    ensures reads { (rules : Rules) (b : Before) → length b.lists + depth ≡ rules.depth
        → Reads result (walk rules (type_expected b opening) (left tokens.old))
        (λ o. walk rules (in_item b (record { count = count_seen o.1; so_far = nothing_of o.0 })) (left tokens.new)) }
    ensures list { IfOk result (λ o. o.0 ≡ format.List → 0 < depth) }
    ensures no_longer { octets_left tokens.new ≤ octets_left tokens.old }
{
    if let Some((format, count)) = next_opening(tokens) {
        return match format {
            Format::List if depth == 0 => Err(TextFault::Deep { at: opening }),
            _ => Ok((format, Some(count))),
        };
    }
    long_opening(tokens, opening, depth)
}

/// Checks a written count against the number of values or elements. Accepts a missing count.
pub fn check_count(count: Option<Count>, length: usize) -> Result<(), TextFault>
    ensures { Checks (count_seen count) length result }
{
    match count {
        Some(count) if count.number != length as u64 => Err(TextFault::Count { at: count.at }),
        _ => Ok(()),
    }
}
