//! The options of `hsms audit`: in which format its result is written.

ghost use Rattle.std.specs.Prelude.{◌≡◌, IfSome, None, Option};
ghost use Rattle.clap.specs.Words.{found_of, rows_of};
ghost use Rattle.cli_options.specs.AuditOptions.{HasReportForm, report_word};
ghost use Rattle.cli_options.specs.declared.audit_options.ReportForm.{ReportForm};

use crate::option_values::text_or;
use clap::ArgMatches;

/// The format of a report on logs, for programs.
#[derive(Clone, Copy, PartialEq, Eq)]
pub enum ReportForm {
    /// JSON: an object for each log, in a line.
    Json,
    /// The XML of JUnit: a test case for each log.
    Junit,
}

/// Returns the format of the report that the options of `hsms audit` request, if they request one in place of lines of
/// text. Returns `None` if there is no such format.
pub fn report_form_of(options: &ArgMatches<'_>) -> Option<Option<ReportForm>>
    ensures some { IfSome result (HasReportForm (rows_of (found_of options.now))) }
    ensures none { result ≡ None → (form : Option ReportForm) → HasReportForm (rows_of (found_of options.now)) form → ⊥ }
{
    report_form_named(text_or(options, "format", "text"))
}

// Returns the format with this name.
fn report_form_named(name: &str) -> Option<Option<ReportForm>>
    ensures some { IfSome result (λ form. name.now ≡ report_word form) }
    ensures none { result ≡ None → (form : Option ReportForm) → name.now ≡ report_word form → ⊥ }
{
    match name {
        "text" => Some(None),
        "json" => Some(Some(ReportForm::Json)),
        "junit" => Some(Some(ReportForm::Junit)),
        _ => None,
    }
}
