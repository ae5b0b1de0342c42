//! A log line as it is written.

ghost use Rattle.std.specs.Prelude.{◌≡◌, ◌≤◌, ℕ, IfOk, length};
ghost use Rattle.hsms_log.specs.LineFormat.{line_limit};
ghost use Rattle.explain_lines.specs.CarriedLine.{IsCarried, is_up_line};
ghost use Rattle.hsms_log.specs.LineContent.{EncodesNoFrame};

use hsms_frame::{HEADER_LENGTH, Kind, kind};
use hsms_log::{
    Step, Unreadable, What, is_blank, read_frame_line, read_plain_line, unreadable_entry,
};
use std::alloc::AllocError;

/// The maximum length of the settings line in bytes, without its line ending.
pub const SETTINGS_LIMIT: usize = 256;

/// A line: its number from 1, its bytes without the line ending, the maximum number of bytes written, and its content.
#[derive(Clone, Copy)]
pub struct ExplainedLine<'l, 't> {
    pub number: u64,
    pub octets: &'l [u8],
    pub limit: usize,
    pub carried: Carried<'t>,
}

impl<'l> ExplainedLine<'l, '_> {
    /// Returns a line without an entry: the first line, or a line after an unreadable first line.
    pub fn plain(number: u64, line: &'l [u8]) -> ExplainedLine<'l, 'static>
        ensures { result.number ≡ number }
    {
        ExplainedLine {
            number,
            octets: line,
            limit: SETTINGS_LIMIT,
            carried: Carried::Nothing,
        }
    }

    /// Returns whether the line has an `up`.
    pub fn is_up(&self) -> bool
        ensures { result ≡ is_up_line self.now.carried }
    {
        match self.carried {
            Carried::Entry(step, _) => matches!(step.what, What::Up),
            Carried::Nothing => false,
            Carried::Unreadable(_) => false,
        }
    }

    /// Returns whether a failure of a later line may name this line: it has a request, or the start of a connection, or
    /// the end of a session.
    pub fn may_be_named(&self) -> bool {
        match self.carried {
            Carried::Entry(step, _) => is_nameable(step.what),
            Carried::Nothing | Carried::Unreadable(_) => false,
        }
    }

    /// Returns the bytes that are written.
    pub fn shown(&self) -> &'l [u8] {
        let shown = self.octets.len().min(self.limit);
        &self.octets[..shown]
    }
}

fn is_nameable(what: What) -> bool {
    match what {
        What::Frame(_, header) => match kind(header) {
            Kind::Primary | Kind::SelectReq | Kind::LinktestReq | Kind::Separate => true,
            Kind::Reply
            | Kind::SelectRsp
            | Kind::LinktestRsp
            | Kind::Reject
            | Kind::OtherSType
            | Kind::OtherPType => false,
        },
        What::Up | What::Cut(_) => true,
        What::T3(_) | What::Down => false,
    }
}

/// The content of a line.
#[derive(Clone, Copy)]
pub enum Carried<'a> {
    /// An entry, with the text of its frame.
    Entry(Step, &'a [u8]),
    /// No entry: the settings line, a comment or an empty line.
    Nothing,
    /// Unreadable, with the reason.
    Unreadable(Unreadable),
}

/// Returns the maximum length in bytes of a line after the first, without its line ending.
pub fn limit_of(max: u32) -> usize
    ensures value { result ≡ line_limit max }
    ensures small { result ≤ 8589934654 }
{
    2 * max as usize + 64
}

/// Returns the content of a line after the first. The bytes of its frame replace the content of `octets`.
pub fn carried_by<'a>(
    line: &[u8],
    max: u32,
    octets: &'a mut Vec<u8>,
) -> Result<Carried<'a>, AllocError>
    ensures { IfOk result (IsCarried max line.now) }
{
    if line.len() > limit_of(max) {
        return Ok(Carried::Unreadable(unreadable_entry(line, max)));
    }
    match read_frame_line(line, octets)? {
        Some(step) => {
            let (_, text) = octets.split_at(HEADER_LENGTH);
            Ok(Carried::Entry(step, text))
        }
        None => Ok(carried_besides(line, max)),
    }
}

// Returns the content of a line in which no frame was found.
fn carried_besides(line: &[u8], max: u32) -> Carried<'static>
    requires frame { EncodesNoFrame line.now }
    requires limit { length line.now ≤ line_limit max }
    ensures { IsCarried max line.now result }
{
    if is_blank(line) {
        return Carried::Nothing;
    }
    match read_plain_line(line) {
        Some(step) => Carried::Entry(step, &[]),
        None => Carried::Unreadable(unreadable_entry(line, max)),
    }
}
