//! Reading of items: each list by its elements, each item of values by its bytes.

ghost use Rattle.std.specs.Prelude.{◌≡◌, ◌≤◌, ◌+◌, length};
ghost use Rattle.secs_item.specs.Item.{view, list, no_elements};
ghost use Rattle.secs_item.specs.InnerItem.{views};
ghost use Rattle.secs_text.specs.InnerRemainingTokens.{left, octets_left};
ghost use Rattle.secs_text.specs.ParserStates.{Rules, Before, walk, type_expected, in_item, closed};
ghost use Rattle.secs_text.specs.InnerParseSteps.{Reads, count_seen};

use crate::fault::TextFault;
use crate::item_header::{check_count, format_and_count};
use crate::parsing::values::parse_values;
use crate::token::{Count, Token};
use crate::tokens::Tokens;
use secs_item::{Format, Item, item_of_values};
use std::alloc::Global;

/// Reads items up to the `>` of their list. Lists in them may be nested at most `depth` deep.
#[cycle(read_item)]
#[tactic(auto, using(crate::proofs::Views::views_push, crate::proofs::Views::count_views))]
fn elements(
    alloc: Global,
    tokens: &mut Tokens,
    count: Option<Count>,
    depth: u8,
) -> Result<Vec<Item>, TextFault>
    ensures reads { (rules : Rules) (b : Before) → length b.lists + 1 + depth ≡ rules.depth
        → Reads result (walk rules (in_item b (record { count = count_seen count; so_far = list no_elements })) (left tokens.old))
        (λ v. walk rules (closed b.lists b (list (views v.items))) (left tokens.new)) }
    ensures no_longer { octets_left tokens.new ≤ octets_left tokens.old }
{
    let mut items = Vec::new(alloc);
    loop {
        let next = tokens.next();
        match next.token {
            Token::Less => items.push(item(alloc, tokens, next.at, depth)?)?,
            Token::Greater => break,
            _ => return Err(TextFault::Syntax { at: next.at }),
        }
    }
    check_count(count, items.len())?;
    Ok(items)
}

/// Reads the item whose `<` is at offset `opening`. Lists may be nested at most `depth` deep.
#[cycle(read_item)]
pub fn item(
    alloc: Global,
    tokens: &mut Tokens,
    opening: usize,
    depth: u8,
) -> Result<Item, TextFault>
    ensures reads { (rules : Rules) (b : Before) → length b.lists + depth ≡ rules.depth
        → Reads result (walk rules (type_expected b opening) (left tokens.old))
        (λ i. walk rules (closed b.lists b (view i)) (left tokens.new)) }
    ensures no_longer { octets_left tokens.new ≤ octets_left tokens.old }
{
    let (format, count) = format_and_count(tokens, opening, depth)?;
    let Format::List = format else {
        let mut body = Vec::new(alloc);
        parse_values(&mut body, tokens, format, count)?;
        return Ok(item_of_values(alloc, format, &body)?);
    };
    Ok(Item::List(elements(alloc, tokens, count, depth - 1)?))
}
