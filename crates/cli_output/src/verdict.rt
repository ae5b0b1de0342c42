//! The line of a verdict.

ghost use Rattle.std.specs.Prelude.{◌≡◌, ◌++◌, [], ◌∷◌, IfOk, string_bytes};
ghost use Rattle.cli_output.specs.Verdict.{pass_words_of, verdict_line_of};

use hsms_log::{Summary, Verdict, Why};
use std::alloc::{AllocError, Global};

/// Returns the line of a verdict, with its end.
pub fn verdict_line(alloc: Global, verdict: Verdict) -> Result<String, AllocError>
    ensures { IfOk result (λ line. string_bytes line ≡ verdict_line_of verdict) }
{
    match verdict {
        Verdict::Pass(summary) => pass_line(alloc, summary),
        Verdict::Fail {
            line,
            why: Why::Unreadable,
        } => format!(in alloc; "fail line={line} unreadable\n"),
        Verdict::Fail {
            line,
            why: Why::Broken(rule),
        } => format!(in alloc; "fail line={line} rule={}\n", rule.name()),
    }
}

fn pass_line(alloc: Global, summary: Summary) -> Result<String, AllocError>
    ensures { IfOk result (λ line. string_bytes line ≡ pass_words_of summary ++ 10 ∷ []) }
{
    let mut line = String::from_str(alloc, "pass")?;
    summary.push_counts(&mut line, " ", "=")?;
    line.push('\n')?;
    Ok(line)
}
