//! The parts of the command, with their errors as [`ToolFault`].

ghost use Rattle.std.specs.Prelude.{◌≤◌};
ghost use Rattle.cli_options.specs.Request.{is_bare};
ghost use Rattle.cli_show.specs.Show.{Shows};
ghost use Rattle.cli_show.specs.ShowHex.{ShowsHex};
ghost use Rattle.cli_filters.specs.CommandErrors.{ReportsAudit, ReportsEncode, ReportsShow};
ghost use Rattle.cli_filters.specs.Dispatch.{AuditsAs, EncodesAs, ShowsAs};

use crate::audit_error::AuditError;
use crate::auditing::verdict_to;
use crate::command_error::{CommandError, fault_of};
use crate::encode_error::EncodeError;
use crate::encoding::encode_input;
use cli_options::{Encoding, Showing, ToolFault};
use cli_show::ShowError;
use hsms_frame::{Sink, Source};
use hsms_log::Verdict;
use std::alloc::Global;

/// Shows the messages in bytes, as [`show`](cli_show::show) of `cli_show` does.
///
/// # Errors
///
/// - `Refused`, if the input is not messages: `TooShort`, `TooLong` or `CutOff`. The lines of the messages before are
///   written.
/// - `Device`: `Read` or `Write`, if a read or write failed in this call. `Endless`, if 4,294,967,295 messages are
///   shown and there is one more. After a failed write a part of the next line may be written. After a failed read all
///   messages that were read completely are shown.
/// - `Memory`, also for the text of `Refused`. The lines of the messages before are written.
pub fn show<R: Source, W: Sink>(
    alloc: Global,
    source: &mut R,
    sink: &mut W,
    max: u32,
    depth: u8,
) -> Result<(), ToolFault>
    requires { depth ≤ 100 }
    ensures { ShowsAs (Shows max depth) result (R.state source.old) (R.state source.new)
        (W.state sink.old) (W.state sink.new) }
{
    shown(alloc, cli_show::show(alloc, source, sink, max, depth))
}

/// Shows the messages in lines of hexadecimal, as [`show_hex`](cli_show::show_hex) of `cli_show` does.
///
/// # Errors
///
/// - `Refused`, if a line has no valid bytes (`NoHex`), or its bytes are not exactly one message within `max`, or it is
///   too long (`NoMessage`), with the number of the line, counted from 1. The lines of the messages before are written.
/// - `Device`: `Read` or `Write`, if a read or write failed in this call. `Endless`, if 4,294,967,295 lines are passed
///   and the input continues. After a failed write a part of the next line may be written. After a failed read all
///   messages whose lines were read completely are shown.
/// - `Memory`, also for the text of `Refused`. The lines of the messages before are written.
pub fn show_hex<R: Source, W: Sink>(
    alloc: Global,
    source: &mut R,
    sink: &mut W,
    showing: Showing,
) -> Result<(), ToolFault>
    requires { showing.depth ≤ 100 }
    ensures { ShowsAs (ShowsHex (is_bare showing.form) showing.max showing.depth) result
        (R.state source.old) (R.state source.new) (W.state sink.old) (W.state sink.new) }
{
    shown(alloc, cli_show::show_hex(alloc, source, sink, showing))
}

/// Encodes messages in notation, as [`encode_input`] does, with these options.
///
/// `max` is the maximum number of bytes of header and text of a message, and `depth` the maximum nesting of lists.
///
/// # Errors
///
/// - `Refused`: the input has more than 67,108,864 bytes (`Input`), or is not messages within the depth (`Syntax`,
///   `Number`, `Count`, `Deep`), or a message of it has no frame (`TooLarge`, `TooLong`). The first of these errors is
///   returned, and nothing is written.
/// - `Device`: `Read` or `Write`, if a read or write failed in this call. A failed read is returned only if at most
///   67,108,864 bytes were consumed before it. After a failed write a part of the frames may be written.
/// - `Memory`, also for the text of `Refused`. Nothing is written.
pub fn encode_all<R: Source, W: Sink>(
    alloc: Global,
    source: &mut R,
    sink: &mut W,
    device: u16,
    system: u32,
    max: u32,
    depth: u8,
    hex: bool,
) -> Result<(), ToolFault>
    requires { depth ≤ 100 }
    ensures { EncodesAs (record { device = device; system = system; max = max; depth = depth; hex = hex }) result
        (R.state source.old) (R.state source.new) (W.state sink.old) (W.state sink.new) }
{
    let encoding = Encoding {
        device,
        system,
        max,
        depth,
        hex,
    };
    encoded(alloc, encode_input(alloc, source, sink, encoding))
}

/// Writes the line of the verdict on a log, as [`verdict_to`] does, and returns whether the log passes.
///
/// # Errors
///
/// - `Device`: `Read` or `Write`, if a read or write failed in this call. `Endless`, if 4,294,967,295 reads found
///   neither the end nor a failing line. After a failed write a part of the line may be written.
/// - `Memory`. Nothing is written.
pub fn audit_to<R: Source, W: Sink>(
    alloc: Global,
    source: &mut R,
    sink: &mut W,
) -> Result<bool, ToolFault>
    ensures { AuditsAs result (R.state source.old) (R.state source.new) (W.state sink.old) (W.state sink.new) }
{
    audited(alloc, verdict_to(alloc, source, sink))
}

fn shown(alloc: Global, done: Result<(), ShowError>) -> Result<(), ToolFault>
    ensures { ReportsShow done result }
{
    match done {
        Ok(()) => Ok(()),
        Err(error) => Err(fault_of(alloc, CommandError::Show(error))),
    }
}

fn encoded(alloc: Global, done: Result<(), EncodeError>) -> Result<(), ToolFault>
    ensures { ReportsEncode done result }
{
    match done {
        Ok(()) => Ok(()),
        Err(error) => Err(fault_of(alloc, CommandError::Encode(error))),
    }
}

fn audited(alloc: Global, done: Result<Verdict, AuditError>) -> Result<bool, ToolFault>
    ensures { ReportsAudit done result }
{
    match done {
        Ok(verdict) => Ok(matches!(verdict, Verdict::Pass(_))),
        Err(error) => Err(fault_of(alloc, CommandError::Audit(error))),
    }
}
