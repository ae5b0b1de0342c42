//! Encoding of messages from their notation straight to bytes.

mod items;
mod runs;
pub mod values;

ghost use Rattle.std.specs.Prelude.{◌≡◌, ◌≤◌, ◌<◌, ℕ, ◌++◌, ◌⊎◌, [], ◌∷◌, List, IfOk, IfErr, OnOk, IfSome, OnSome, Option};
ghost use Rattle.std.specs.Result.{IsErrAnd};
ghost use Rattle.secs_item.specs.Item.{Value};
ghost use Rattle.secs_text.specs.Content.{Content, AllWithin};
ghost use Rattle.secs_text.specs.Fault.{any_messages, NotesFault};
ghost use Rattle.secs_text.specs.InnerRemainingTokens.{left, octets_left};
ghost use Rattle.secs_text.specs.Notation.{Notations};
ghost use Rattle.secs_text.specs.ParserStates.{walk, start, after_head};
ghost use Rattle.secs_text.specs.InnerParseSteps.{Reads};
ghost use Rattle.secs_text.specs.EncodedText.{IsEncoded, headed_by};
ghost use Rattle.secs_text.specs.InnerEncodedText.{AllGiven, MessageRead, named, named_by};
ghost use Rattle.secs_text.specs.declared.fault.TextFault.{TextFault};

use crate::canonical_tokens::next_head;
use crate::fault::TextFault;
use crate::parsing::items::item;
use crate::printing::messages::Head;
use crate::reading::{head, optional_wait};
use crate::token::Token;
use crate::tokens::Tokens;
use std::alloc::{AllocError, Global};

/// A receiver of messages, which accepts them in order.
pub trait Receiver {
    /// The part that stays unchanged while the receiver accepts messages.
    type Kept;

    /// Holds of the unchanged part and of the messages passed to the receiver. A receiver that does not record them may
    /// define it to hold of none.
    ghost Given: { Self.Kept → Self → List Content → Type 0 };

    /// Accepts the next message: its head, and its text in the fewest bytes. The text is empty if the message has no
    /// item. It is `None` if the item has no encoding: three length bytes cannot hold the length of one of its bodies
    /// or lists.
    ///
    /// # Errors
    ///
    /// Returns an error if an allocation fails.
    fn take(&mut self, head: Head, text: Option<&[u8]>) -> Result<(), AllocError>
        requires { head.stream < 128 }
        ensures { OnOk result ((kept : Self.Kept) (item : Option Value) (given : List Content) → IsEncoded item text.entry
            → Given kept self.old given → Given kept self.new (given ++ headed_by head item ∷ [])) };
}

/// Reads the stream and function of the next message. Returns `None` if the text has ended.
#[inline(always)]
fn next_name(tokens: &mut Tokens) -> Result<Option<(u8, u8)>, TextFault>
    ensures reads { (depth : ℕ) (ms : List Content)
        → Reads result (walk (any_messages depth) (start ms) (left tokens.old)) (λ name. named depth ms name (left tokens.new)) }
    ensures in_range { IfOk result (λ name. IfSome name (λ n. n.0 < 128)) }
    ensures shorter { IfOk result (λ name. OnSome name (octets_left tokens.new < octets_left tokens.old)) }
{
    if let Some(name) = next_head(tokens) {
        return Ok(Some(name));
    }
    let next = tokens.next();
    if let Token::End = next.token {
        return Ok(None);
    }
    Ok(Some(head(next)?))
}

/// Reads the rest of a message after its stream and function, and appends its text. Lists may be nested at most `depth`
/// deep. Returns the head, and whether the item has an encoding.
fn message(
    out: &mut Vec<u8>,
    tokens: &mut Tokens,
    stream: u8,
    function: u8,
    depth: u8,
) -> Result<(Head, bool), TextFault>
    ensures reads { MessageRead depth (λ ms. after_head ms (named_by stream function)) result
        (left tokens.old) (left tokens.new) out.old.items out.new.items }
    ensures in_range { IfOk result (λ m. m.0.stream ≡ stream) }
    ensures no_longer { octets_left tokens.new ≤ octets_left tokens.old }
{
    let (wait, next) = optional_wait(tokens);
    let head = Head {
        stream,
        function,
        wait,
    };
    let fits = match next.token {
        Token::Stop => return Ok((head, true)),
        Token::Less => item(out, tokens, next.at, depth)?,
        _ => return Err(TextFault::Syntax { at: next.at }),
    };
    let next = tokens.next();
    match next.token {
        Token::Stop => Ok((head, fits)),
        _ => Err(TextFault::Syntax { at: next.at }),
    }
}

/// Passes the messages of a text to a receiver, following the parser states.
fn encode_several<R: Receiver>(
    alloc: Global,
    text: &[u8],
    depth: u8,
    receiver: &mut R,
) -> Result<(), TextFault>
    ensures { AllGiven {K = R.Kept} depth result text.now (λ kept. R.Given kept receiver.old) (λ kept. R.Given kept receiver.new) }
{
    let mut tokens = Tokens::new(text);
    let mut encoded_form = Vec::new(alloc);
    loop {
        let Some((stream, function)) = next_name(&mut tokens)? else {
            return Ok(());
        };
        encoded_form.clear();
        let (head, fits) = message(&mut encoded_form, &mut tokens, stream, function, depth)?;
        let octets = encoded_form.as_slice();
        receiver.take(head, if fits { Some(octets) } else { None })?;
    }
}

/// Passes the messages of a text to a receiver in order, each with the shortest encoding of its item. A text of white
/// space has no messages. Lists may be nested at most `depth` deep, and `depth` is at most 100.
///
/// It allocates memory for the bytes of one message at a time, in addition to what the receiver allocates.
///
/// # Errors
///
/// Returns the same errors as [`read_all`](crate::read_all), and `Memory` if an allocation of the receiver fails. The
/// messages before the error were passed on.
pub fn encode_texts<R: Receiver>(
    alloc: Global,
    text: &[u8],
    depth: u8,
    receiver: &mut R,
) -> Result<(), TextFault>
    requires { depth ≤ 100 }
    ensures ok { OnOk result ((ms : List Content) × Notations ms text.now × AllWithin depth ms
        × ((kept : R.Kept) (earlier : List Content) → R.Given kept receiver.old earlier
        → R.Given kept receiver.new (earlier ++ ms))) }
    ensures ok_where { (ms : List Content) → Notations ms text.now → AllWithin depth ms
        → IfErr result (λ f. f ≡ TextFault.Memory) }
    ensures err { IfErr result (λ f. (f ≡ TextFault.Memory) ⊎ NotesFault text.now depth f) }
    ensures err_where { (f : TextFault) → NotesFault text.now depth f
        → IsErrAnd result (λ e. (e ≡ f) ⊎ (e ≡ TextFault.Memory)) }
{
    encode_several(alloc, text, depth, receiver)
}
