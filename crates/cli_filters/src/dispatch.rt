//! What the command does between its input and its output.

ghost use Rattle.std.specs.Prelude.{◌≤◌};
ghost use Rattle.cli_filters.specs.Dispatch.{HasShown, Performs, ShowsForm};
ghost use Rattle.cli_options.specs.Request.{IsTaskWithinLimits};

use crate::auditing::verdict_to;
use crate::command_error::CommandError;
use crate::encoding::encode_input;
use cli_options::{Form, Showing, Task};
use cli_show::{ShowError, show, show_hex};
use hsms_frame::{Sink, Source, give_all};
use hsms_log::Verdict;
use std::alloc::Global;

/// Performs a task with an input and an output. Returns true unless a log fails its audit.
pub fn perform<R: Source, W: Sink>(
    alloc: Global,
    task: Task,
    source: &mut R,
    sink: &mut W,
) -> Result<bool, CommandError>
    requires { IsTaskWithinLimits task }
    ensures { Performs task result (R.state source.old) (R.state source.new)
        (W.state sink.old) (W.state sink.new) }
{
    match task {
        Task::Help(text) => {
            give_all(sink, text.as_bytes())?;
            Ok(true)
        }
        Task::Show(showing) => {
            show_form(alloc, source, sink, showing)?;
            Ok(true)
        }
        Task::Audit => {
            let verdict = verdict_to(alloc, source, sink)?;
            Ok(matches!(verdict, Verdict::Pass(_)))
        }
        Task::Encode(encoding) => {
            encode_input(alloc, source, sink, encoding)?;
            Ok(true)
        }
    }
}

// Shows the messages of an input, according to their form.
fn show_form<R: Source, W: Sink>(
    alloc: Global,
    source: &mut R,
    sink: &mut W,
    showing: Showing,
) -> Result<(), ShowError>
    requires { showing.depth ≤ 100 }
    ensures { HasShown (ShowsForm showing.form showing.max showing.depth) result
        (R.state source.old) (R.state source.new) (W.state sink.old) (W.state sink.new) }
{
    match showing.form {
        Form::Octets => show(alloc, source, sink, showing.max, showing.depth),
        Form::Lines | Form::BareLines => show_hex(alloc, source, sink, showing),
    }
}
