//! The options of `hsms explain`: which lines of a log are shown, and in which format.

ghost use Rattle.std.specs.Prelude.{◌≡◌, IfSome, Some, None, codes};
ghost use Rattle.clap.specs.Words.{first_of, found_of, rows_of};
ghost use Rattle.cli_options.specs.ExplainOptions.{HasExcerpt, IsExcerptWithinLimits, are_effective, have_effect as effective, is_page, only_word, output_format_word};
ghost use Rattle.cli_options.specs.declared.explain_options.Excerpt.{Excerpt};
ghost use Rattle.cli_options.specs.declared.explain_options.Lines.{Lines};
ghost use Rattle.cli_options.specs.declared.explain_options.OutputFormat.{OutputFormat};

use crate::option_tables::{AROUND, FROM, LAST_LINE, TO};
use crate::option_values::{flag_of, number_of, text_of, text_or};
use clap::ArgMatches;

/// Which kind of lines is shown.
#[derive(Clone, Copy, PartialEq, Eq)]
pub enum Lines {
    /// Each line.
    All,
    /// Failing lines, and some around them.
    Failures,
}

/// The format in which a log is shown.
#[derive(Clone, Copy, PartialEq, Eq)]
pub enum OutputFormat {
    /// As text, for a reader at a terminal.
    Text,
    /// As JSON, one object per line.
    Json,
    /// As an HTML page.
    Html,
}

/// What is shown of a log, and how.
#[derive(Clone, Copy)]
pub struct Excerpt {
    /// Which kind of lines is shown.
    pub lines: Lines,
    /// With `Failures`: how many lines are shown before and after each of them, at most 1,000.
    pub around: u32,
    /// The number of the first line that may be shown, from 1.
    pub from: u32,
    /// The number of the last line that may be shown; 4,294,967,295 represents the last one of the log.
    pub to: u32,
    /// The output format.
    pub form: OutputFormat,
    /// True if times, which are milliseconds since 1970, are shown as dates in UTC.
    pub utc: bool,
    /// True if primaries are listed: those with the slowest replies, and those that expired or have no reply.
    pub lists: bool,
    /// True if a page shows every line. Otherwise it shows only failures, and lines around them, after 5,000 lines.
    pub every: bool,
}

impl Excerpt {
    ghost use Rattle.std.specs.Prelude.{◌≡◌};
    ghost use Rattle.cli_options.specs.ExplainOptions.{is_between};

    /// Returns true if the line with this number, from 1, is between the first and the last one that may be shown.
    pub fn has_line(&self, number: u64) -> bool
        ensures { result ≡ is_between self.now number }
    {
        u64::from(self.from) <= number && (self.to == LAST_LINE || number <= u64::from(self.to))
    }
}

/// Returns what the options of `hsms explain` request. Returns `None` if a value is invalid, or an option has no effect.
pub fn excerpt_of(options: &ArgMatches<'_>) -> Option<Excerpt>
    ensures asks { IfSome result (HasExcerpt (rows_of (found_of options.now))) }
    ensures within { IfSome result IsExcerptWithinLimits }
    ensures none { result ≡ None → (excerpt : Excerpt) → HasExcerpt (rows_of (found_of options.now)) excerpt → ⊥ }
{
    if !have_effect(options) {
        return None;
    }
    Some(Excerpt {
        lines: lines_of(options)?,
        around: number_of(options, AROUND)?,
        from: number_of(options, FROM)?,
        to: number_of(options, TO)?,
        form: output_format_named(text_or(options, "format", "text"))?,
        utc: flag_of(options, "utc"),
        lists: flag_of(options, "lists"),
        every: flag_of(options, "all"),
    })
}

// Returns true if each given option has an effect.
fn have_effect(options: &ArgMatches<'_>) -> bool
    ensures { result ≡ effective (rows_of (found_of options.now)) }
{
    let around = text_of(options, "around").is_some();
    let only = text_of(options, "only").is_some();
    are_effective(
        around,
        only,
        asks_for_page(options),
        flag_of(options, "all"),
    )
}

// Returns true if `around` and `all`, if they are given, have an effect with these options.
fn are_effective(around: bool, only: bool, page: bool, all: bool) -> bool
    ensures { result ≡ are_effective around only page all }
{
    (!around || (only || (page && !all))) && (!all || page)
}

// Returns true if the options request a page.
fn asks_for_page(options: &ArgMatches<'_>) -> bool
    ensures { result ≡ is_page (rows_of (found_of options.now)) }
{
    text_of(options, "format") == Some("html")
}

fn lines_of(options: &ArgMatches<'_>) -> Option<Lines>
    ensures some { IfSome result (λ lines. first_of (codes "only") (rows_of (found_of options.now)) ≡ only_word lines) }
    ensures none { result ≡ None → (lines : Lines)
        → first_of (codes "only") (rows_of (found_of options.now)) ≡ only_word lines → ⊥ }
{
    match text_of(options, "only") {
        Some("failures") => Some(Lines::Failures),
        Some(_) => None,
        None => Some(Lines::All),
    }
}

// Returns the format with this name.
fn output_format_named(name: &str) -> Option<OutputFormat>
    ensures some { IfSome result (λ output_form. Some name.now ≡ output_format_word output_form) }
    ensures none { result ≡ None → (output_form : OutputFormat) → Some name.now ≡ output_format_word output_form → ⊥ }
{
    match name {
        "text" => Some(OutputFormat::Text),
        "json" => Some(OutputFormat::Json),
        "html" => Some(OutputFormat::Html),
        _ => None,
    }
}
