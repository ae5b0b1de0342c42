//! The script of `hsms serve`: messages in notation.

ghost use Rattle.std.specs.Prelude.{◌≡◌, ◌++◌, IfOk, IfErr, OnOk, ℕ, [], ◌∷◌, filter, map, not, if◌then◌else◌};
ghost use Rattle.hsms_ends.specs.declared.step.Step.TheVariants.{Send, Separate};
ghost use Rattle.hsms_frame.specs.CallCounts.{next_count};
ghost use Rattle.hsms_frame.specs.Io.{IfRecorded};
ghost use Rattle.cli_serve.specs.Script.{IsNoScript, IsScript, is_reply};
ghost use Rattle.cli_filters.specs.EncodeErrors.{reads_after, writes_after};

use crate::comments::without_comments;
use cli_filters::{EncodeError, INPUT_LIMIT, read_whole};
use cli_options::Service;
use hsms_ends::Step;
use hsms_frame::Source;
use secs_text::{Message, read_all};
use std::alloc::{AllocError, Global};

/// The content of a script.
#[derive(Drop)]
pub struct Script {
    /// The steps of the end, one after another.
    pub steps: Vec<Step>,
    /// The replies of its message handler.
    pub replies: Vec<Message>,
}

/// Reads the complete input as messages in notation with comments, for a service. With `--answer`, those with an even
/// function are replies (SEMI E5, function). The others are steps, each of which is sent. With `--send`, the session is
/// separated after them (SEMI E37, section 7).
///
/// # Errors
///
/// - `Input`, if the input has more than 67,108,864 bytes. `Text`, if it is not messages within the depth of the
///   service's settings, or an allocation failed.
/// - `Read`, if a read failed in this call, and at most 67,108,864 bytes were consumed before it.
pub fn read_script<R: Source>(
    alloc: Global,
    source: &mut R,
    service: &Service<'_>,
) -> Result<Script, EncodeError>
    ensures ok { IfOk result (λ script. IfRecorded (R.state source.old).left
        (IsScript service.now.settings.depth service.now.send service.now.answer script)) }
    ensures err { IfErr result (λ fault. IfRecorded (R.state source.old).left
        (λ input. IsNoScript service.now.settings.depth input fault (R.state source.new).left)) }
    ensures writes { (n : ℕ) → writes_after result n ≡ n }
    ensures end { OnOk result ((R.state source.new).ends ≡ next_count (R.state source.old).ends) }
    ensures reads { (R.state source.new).failures ≡ reads_after result (R.state source.old).failures }
{
    let input = read_whole(alloc, source, INPUT_LIMIT)?;
    let text = without_comments(input);
    let messages = read_all(alloc, &text, service.settings.depth())?;
    let (replies, sent) = parted(alloc, messages, service.answer)?;
    let steps = steps_of(alloc, sent, service.send)?;
    Ok(Script { steps, replies })
}

// Returns the replies among the messages, and the others.
fn parted(
    alloc: Global,
    messages: Vec<Message>,
    answer: bool,
) -> Result<(Vec<Message>, Vec<Message>), AllocError>
    ensures { IfOk result (λ parts. (parts.0.items ≡ filter (is_reply answer) messages.items)
        × (parts.1.items ≡ filter (λ m. not (is_reply answer m)) messages.items)) }
{
    messages
        .into_iter()
        .partition(alloc, |message| answer && message.function() % 2 == 0)
}

// Returns a step that sends each message, and a Separate after them if `send` is set.
fn steps_of(alloc: Global, messages: Vec<Message>, send: bool) -> Result<Vec<Step>, AllocError>
    ensures { IfOk result (λ steps. steps.items ≡ map (λ m. Send m) messages.items ++ (if send then Separate ∷ [] else [])) }
{
    let mut steps: Vec<Step> = messages.into_iter().map(Step::Send).collect(alloc)?;
    if send {
        steps.push(Step::Separate)?;
    }
    Ok(steps)
}
