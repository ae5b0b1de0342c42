//! A log in a report, as a JSON object (RFC 8259) in one line.

ghost use Rattle.std.specs.Prelude.{◌≡◌, ◌++◌, IfOk, OnOk, string_bytes};
ghost use Rattle.cli_reports.specs.JsonObject.{fail_object_of, log_object_of, name_member_of, pass_object_of, reason_of, unopened_object_of};

use cli_options::sentence;
use explain_lines::name_of;
use hsms_log::{Summary, Verdict, Why};
use serde_json::Value;
use std::alloc::{AllocError, Global};

/// Returns the object of the log in a file, with its verdict: of a pass with the counts, of a failure with the line, the
/// rule and its text. An unreadable line has no such text.
pub fn log_object(alloc: Global, file: &str, verdict: Verdict) -> Result<String, AllocError>
    ensures { IfOk result (λ object. string_bytes object ≡ log_object_of file.now verdict) }
{
    match verdict {
        Verdict::Pass(summary) => pass_object(alloc, file, summary),
        Verdict::Fail { line, why } => fail_object(alloc, file, line, why),
    }
}

fn pass_object(alloc: Global, file: &str, summary: Summary) -> Result<String, AllocError>
    ensures { IfOk result (λ object. string_bytes object ≡ pass_object_of file.now summary) }
{
    let mut object = name_member(alloc, file)?;
    object.push_str(",\"verdict\":\"pass\"")?;
    summary.push_counts(&mut object, ",\"", "\":")?;
    object.push_str("}\n")?;
    Ok(object)
}

fn fail_object(alloc: Global, file: &str, line: u64, why: Why) -> Result<String, AllocError>
    ensures { IfOk result (λ object. string_bytes object ≡ fail_object_of file.now line why) }
{
    let mut object = name_member(alloc, file)?;
    object.push_str(",\"verdict\":\"fail\",\"line\":")?;
    write!(object, "{line}")?;
    object.push_str(",\"rule\":\"")?;
    object.push_str(name_of(why))?;
    push_reason(&mut object, why)?;
    object.push_str("\"}\n")?;
    Ok(object)
}

// Appends the text of the broken rule, as a further member.
fn push_reason(object: &mut String, why: Why) -> Result<(), AllocError>
    ensures { OnOk result (string_bytes object.new ≡ string_bytes object.old ++ reason_of why) }
{
    match why {
        Why::Unreadable => Ok(()),
        Why::Broken(rule) => {
            object.push_str("\",\"sentence\":\"")?;
            object.push_str(sentence(rule))
        }
    }
}

/// Returns the object of a file that cannot be opened.
pub fn unopened_object(alloc: Global, file: &str) -> Result<String, AllocError>
    ensures { IfOk result (λ object. string_bytes object ≡ unopened_object_of file.now) }
{
    let mut object = name_member(alloc, file)?;
    object.push_str(",\"verdict\":\"unopened\"}\n")?;
    Ok(object)
}

// Returns the start of an object: the name of the file.
fn name_member(alloc: Global, file: &str) -> Result<String, AllocError>
    ensures { IfOk result (λ start. string_bytes start ≡ name_member_of file.now) }
{
    let name = Value::String(String::from_str(alloc, file)?).to_string(alloc)?;
    let mut start = String::from_str(alloc, "{\"file\":")?;
    start.push_str(&name)?;
    Ok(start)
}
