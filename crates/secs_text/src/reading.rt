//! Reading of messages.

mod items;

ghost use Rattle.std.specs.Prelude.{◌≡◌, ◌≤◌, ◌<◌, ◌+◌, ◌++◌, ◌||◌, [], ◌∷◌, List, true, false, IfOk, IfErr, OnOk, MatchResult, Ok, None, not, ◌⊎◌};
ghost use Rattle.secs_text.specs.Content.{Content, IsWithin, AllWithin};
ghost use Rattle.secs_text.specs.InnerTokenView.{placed, seen, is_last, then_tokens};
ghost use Rattle.secs_text.specs.Token as math;
ghost use Rattle.secs_text.specs.InnerRemainingTokens.{left, octets_left};
ghost use Rattle.secs_text.specs.ParserStates.{Rules, walk, start, after_head, after_wait, finished, is_empty, reading};
ghost use Rattle.secs_text.specs.Fault.{one_message, any_messages, NoteFault, NotesFault};
ghost use Rattle.secs_text.specs.Notation.{Notation, Notations};
ghost use Rattle.secs_text.specs.declared.fault.TextFault.{TextFault};
ghost use Rattle.std.specs.Result.{IsErrAnd};
ghost use Rattle.secs_text.specs.InnerParseSteps.{Reads};
ghost use Rattle.secs_text.specs.View.{content, contents};

use crate::canonical_tokens::next_wait;
use crate::fault::TextFault;
use crate::message::Message;
use crate::reading::items::item;
use crate::token::{Placed, Token};
use crate::tokens::Tokens;
use crate::word::{HeadWord, head_of};
use std::alloc::Global;

/// Returns the stream and function that a message's first token names.
pub fn head(first: Placed) -> Result<(u8, u8), TextFault>
    ensures reads { (rules : Rules) (ms : List Content) (ts : List math.Placed) → rules.several || is_empty ms ≡ true
        → (first.entry.token ≡ Token.End → rules.several || not (is_empty ms) ≡ false)
        → Reads result (walk rules (start ms) (then_tokens (placed first.entry) ts))
        (λ h. walk rules (after_head ms (record { stream = h.0; function = h.1; wait = false; item = None })) ts) }
    ensures in_range { IfOk result (λ h. h.0 < 128) }
    ensures started { OnOk result (is_last (seen first.entry.token) ≡ false) }
{
    match first.token {
        Token::Word(word) => match head_of(word) {
            HeadWord::Head(stream, function) => Ok((stream, function)),
            HeadWord::BadHead => Err(TextFault::Number { at: first.at }),
            HeadWord::NoHead => Err(TextFault::Syntax { at: first.at }),
        },
        _ => Err(TextFault::Syntax { at: first.at }),
    }
}

/// Reads the `W`, if there is one, and the token after it.
#[inline(always)]
pub fn optional_wait<'a>(tokens: &mut Tokens<'a>) -> (bool, Placed<'a>)
    ensures reads { (rules : Rules) (ms : List Content) (m : Content) → m.wait ≡ false
        → walk rules (after_head ms m) (left tokens.old)
        ≡ walk rules (after_wait ms (record m { wait = result.0 })) (then_tokens (placed result.1) (left tokens.new)) }
    ensures no_longer { octets_left tokens.new ≤ octets_left tokens.old }
{
    if next_wait(tokens) {
        return (true, tokens.next());
    }
    let next = tokens.next();
    match next.token {
        Token::Word([b'W']) => (true, tokens.next()),
        _ => (false, next),
    }
}

/// Reads a message whose first token was consumed. Lists may be nested at most `depth` deep.
fn message(
    alloc: Global,
    tokens: &mut Tokens,
    first: Placed,
    depth: u8,
) -> Result<Message, TextFault>
    ensures reads { (rules : Rules) (ms : List Content) → rules.depth ≡ depth → rules.several || is_empty ms ≡ true
        → (first.entry.token ≡ Token.End → rules.several || not (is_empty ms) ≡ false)
        → Reads result (walk rules (start ms) (then_tokens (placed first.entry) (left tokens.old)))
        (λ m. walk rules (start (ms ++ content m ∷ [])) (left tokens.new)) }
    ensures no_longer { octets_left tokens.new ≤ octets_left tokens.old }
    ensures started { OnOk result (is_last (seen first.entry.token) ≡ false) }
{
    let (stream, function) = head(first)?;
    let (wait, next) = optional_wait(tokens);
    let item = match next.token {
        Token::Stop => return Ok(Message::new(stream, function, wait, None)),
        Token::Less => item(alloc, tokens, next.at, depth)?,
        _ => return Err(TextFault::Syntax { at: next.at }),
    };
    let message = Message::new(stream, function, wait, Some(item));
    let next = tokens.next();
    let Token::Stop = next.token else {
        return Err(TextFault::Syntax { at: next.at });
    };
    Ok(message)
}

/// Reads a text that is one message, following the parser states.
fn read_one(alloc: Global, text: &[u8], depth: u8) -> Result<Message, TextFault>
    ensures { Reads result (reading (one_message depth) text.now) (λ m. Ok (finished (content m ∷ []))) }
{
    let mut tokens = Tokens::new(text);
    let first = tokens.next();
    let message = message(alloc, &mut tokens, first, depth)?;
    let next = tokens.next();
    let Token::End = next.token else {
        return Err(TextFault::Syntax { at: next.at });
    };
    Ok(message)
}

/// Reads a text of any number of messages, following the parser states.
#[tactic(auto, using(crate::proofs::Views::contents_push))]
fn read_several(alloc: Global, text: &[u8], depth: u8) -> Result<Vec<Message>, TextFault>
    ensures { Reads result (reading (any_messages depth) text.now) (λ v. Ok (finished (contents v.items))) }
{
    let mut tokens = Tokens::new(text);
    let mut messages = Vec::new(alloc);
    loop {
        let next = tokens.next();
        if let Token::End = next.token {
            return Ok(messages);
        }
        messages.push(message(alloc, &mut tokens, next, depth)?)?;
    }
}

/// Returns the message whose notation the text is. Lists may be nested at most `depth` deep, and `depth` is at most
/// 100.
///
/// A text that is not one message within the depth has an error: that of its first token that is not allowed at its
/// position.
///
/// # Errors
///
/// Returns `Syntax`, `Number`, `Count` or `Deep` with an offset, or `Memory` if an allocation fails.
pub fn read(alloc: Global, text: &[u8], depth: u8) -> Result<Message, TextFault>
    requires { depth ≤ 100 }
    ensures ok { IfOk result (λ m. Notation (content m) text.now × IsWithin depth (content m)) }
    ensures ok_where { (m : Content) → Notation m text.now → IsWithin depth m
        → MatchResult result (λ r. content r ≡ m) (λ f. f ≡ TextFault.Memory) }
    ensures err { IfErr result (λ f. (f ≡ TextFault.Memory) ⊎ NoteFault text.now depth f) }
    ensures err_where { (f : TextFault) → NoteFault text.now depth f
        → IsErrAnd result (λ e. (e ≡ f) ⊎ (e ≡ TextFault.Memory)) }
{
    read_one(alloc, text, depth)
}

/// Returns the messages whose notation the text is, in order. A text of white space has none. Lists may be nested at
/// most `depth` deep, and `depth` is at most 100.
///
/// # Errors
///
/// Returns the same errors as [`read`].
pub fn read_all(alloc: Global, text: &[u8], depth: u8) -> Result<Vec<Message>, TextFault>
    requires { depth ≤ 100 }
    ensures ok { IfOk result (λ v. Notations (contents v.items) text.now × AllWithin depth (contents v.items)) }
    ensures ok_where { (ms : List Content) → Notations ms text.now → AllWithin depth ms
        → MatchResult result (λ v. contents v.items ≡ ms) (λ f. f ≡ TextFault.Memory) }
    ensures err { IfErr result (λ f. (f ≡ TextFault.Memory) ⊎ NotesFault text.now depth f) }
    ensures err_where { (f : TextFault) → NotesFault text.now depth f
        → IsErrAnd result (λ e. (e ≡ f) ⊎ (e ≡ TextFault.Memory)) }
{
    read_several(alloc, text, depth)
}
