//! The verdict, the last part of the output.

ghost use Rattle.std.specs.Prelude.{◌≡◌, ◌++◌, IfOk, OnOk, string_bytes};
ghost use Rattle.cli_explain.specs.VerdictOutput.{ending_of, fail_object_of, mark_of, member_of, page_end_of, pass_object_of, verdict_object_of};

use cli_options::OutputFormat;
use cli_output::verdict_line;
use explain_lines::name_of;
use hsms_log::{Summary, Verdict, Why};
use std::alloc::{AllocError, Global};

/// Returns the verdict in the output format, with what follows it there.
pub fn ending(alloc: Global, form: OutputFormat, verdict: Verdict) -> Result<String, AllocError>
    ensures { IfOk result (λ ending. string_bytes ending ≡ ending_of form verdict) }
{
    match form {
        OutputFormat::Text => verdict_line(alloc, verdict),
        OutputFormat::Json => verdict_object(alloc, verdict),
        OutputFormat::Html => page_end(alloc, verdict),
    }
}

// Returns the verdict as a JSON object on one line.
fn verdict_object(alloc: Global, verdict: Verdict) -> Result<String, AllocError>
    ensures { IfOk result (λ object. string_bytes object ≡ verdict_object_of verdict) }
{
    match verdict {
        Verdict::Pass(summary) => pass_object(alloc, summary),
        Verdict::Fail { line, why } => fail_object(alloc, line, why),
    }
}

fn pass_object(alloc: Global, summary: Summary) -> Result<String, AllocError>
    ensures { IfOk result (λ object. string_bytes object ≡ pass_object_of summary) }
{
    let mut object = String::from_str(alloc, "{\"type\":\"verdict\",\"verdict\":\"pass\"")?;
    summary.push_counts(&mut object, ",\"", "\":")?;
    object.push_str("}\n")?;
    Ok(object)
}

fn fail_object(alloc: Global, line: u64, why: Why) -> Result<String, AllocError>
    ensures { IfOk result (λ object. string_bytes object ≡ fail_object_of line why) }
{
    let mut object = String::from_str(alloc, "{\"type\":\"verdict\",\"verdict\":\"fail\"")?;
    push_member(&mut object, ",\"line\":", line)?;
    object.push_str(",\"rule\":\"")?;
    object.push_str(name_of(why))?;
    object.push_str("\"}\n")?;
    Ok(object)
}

fn push_member(object: &mut String, name: &str, number: u64) -> Result<(), AllocError>
    ensures { OnOk result (string_bytes object.new ≡ string_bytes object.old ++ member_of name.now number) }
{
    object.push_str(name)?;
    write!(object, "{number}")
}

// Returns the verdict as a paragraph of HTML, and the end of the page.
fn page_end(alloc: Global, verdict: Verdict) -> Result<String, AllocError>
    ensures { IfOk result (λ end. string_bytes end ≡ page_end_of verdict) }
{
    let line = verdict_line(alloc, verdict)?;
    let mut end = String::from_str(alloc, mark(verdict))?;
    end.push_str(&line)?;
    end.push_str("</p></section></body></html>\n")?;
    Ok(end)
}

// Returns the markup before a verdict in HTML.
fn mark(verdict: Verdict) -> &'static str
    ensures { result.now ≡ mark_of verdict }
{
    match verdict {
        Verdict::Pass(_) => "<p id=\"verdict\" class=\"pass\">",
        Verdict::Fail { .. } => "<p id=\"verdict\" class=\"fail\">",
    }
}
