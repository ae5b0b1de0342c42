//! The text of a comparison.

ghost use Rattle.std.specs.Prelude.{◌≡◌, ◌++◌, ◌∷◌, [], OnOk, IfOk, codes, string_bytes};
ghost use Rattle.cli_output.specs.Verdict.{verdict_line_of};
ghost use Rattle.cli_compare.specs.Comparison.{comparison_text as text_of, connection_line, connection_words, count_words, counts_words, number_of as number_or_zero, pair_count as pairs, pair_lines, request_lines, told_lines, verdict_words, verdict_line as verdict_line_by, verdict_word as word_of};

use crate::fact_lines::{push_facts, push_order};
use crate::failure_lines::push_failures;
use cli_output::verdict_line;
use hsms_compare_logs::{FactKind, LogComparison, PairVerdict, ReadLog};
use hsms_log::Verdict;
use std::alloc::{AllocError, Global};

/// Returns the text of a comparison.
pub fn comparison_text(alloc: Global, comparison: &LogComparison) -> Result<String, AllocError>
    ensures { IfOk result (λ text. string_bytes text ≡ text_of comparison.now) }
{
    let mut text = String::new(alloc);
    push_pair(alloc, &mut text, comparison)?;
    push_audit(alloc, &mut text, "host: ", comparison.host.verdict)?;
    push_audit(
        alloc,
        &mut text,
        "equipment: ",
        comparison.equipment.verdict,
    )?;
    push_verdict(&mut text, comparison)?;
    Ok(text)
}

/// Appends the lines of the pair, if the connections are compared.
fn push_pair(alloc: Global, text: &mut String, comparison: &LogComparison) -> Result<(), AllocError>
    ensures { OnOk result (string_bytes text.new ≡ string_bytes text.old ++ pair_lines comparison.now) }
{
    if !comparison.is_pair() {
        return Ok(());
    }
    push_connections(text, comparison)?;
    push_told(text, comparison)?;
    push_requests(alloc, text, comparison)
}

/// Appends the line of both connections.
fn push_connections(text: &mut String, comparison: &LogComparison) -> Result<(), AllocError>
    ensures { OnOk result (string_bytes text.new ≡ string_bytes text.old ++ connection_line comparison.now) }
{
    push_connection(text, "connection ", "host", &comparison.host, " ")?;
    push_connection(text, "", "equipment", &comparison.equipment, "\n")
}

/// Appends the lines of the facts of both directions, and that of an order.
fn push_told(text: &mut String, comparison: &LogComparison) -> Result<(), AllocError>
    ensures { OnOk result (string_bytes text.new ≡ string_bytes text.old ++ told_lines comparison.now) }
{
    push_facts(
        text,
        "host",
        "equipment",
        comparison.facts.to_equipment.as_slice(),
    )?;
    push_facts(
        text,
        "equipment",
        "host",
        comparison.facts.to_host.as_slice(),
    )?;
    push_order(text, &comparison.contradiction)
}

/// Appends the lines of the failed requests of both ends.
fn push_requests(
    alloc: Global,
    text: &mut String,
    comparison: &LogComparison,
) -> Result<(), AllocError>
    ensures { OnOk result (string_bytes text.new ≡ string_bytes text.old ++ request_lines comparison.now) }
{
    push_failures(alloc, text, "host", comparison.failures.of_host.as_slice())?;
    push_failures(
        alloc,
        text,
        "equipment",
        comparison.failures.of_equipment.as_slice(),
    )
}

/// Appends a log's first connection, between two texts.
#[tactic(auto, unfolding(crate::specs::Comparison::connection_words))]
fn push_connection(
    text: &mut String,
    before: &str,
    end: &str,
    log: &ReadLog,
    after: &str,
) -> Result<(), AllocError>
    ensures { OnOk result (string_bytes text.new
        ≡ string_bytes text.old ++ connection_words before.now end.now log.now after.now) }
{
    let line = number_of(&log.up);
    let sent = log.frames.sent.len();
    let received = log.frames.received.len();
    write!(
        text,
        "{before}{end} line={line} sent={sent} received={received}{after}"
    )
}

/// Returns a number, or 0 if there is none.
fn number_of(number: &Option<u64>) -> u64
    ensures { result ≡ number_or_zero number.now }
{
    match *number {
        Some(number) => number,
        None => 0,
    }
}

/// Appends the verdict on a log, after a text before it.
fn push_audit(
    alloc: Global,
    text: &mut String,
    before: &str,
    verdict: Verdict,
) -> Result<(), AllocError>
    ensures { OnOk result (string_bytes text.new ≡ string_bytes text.old ++ before.now ++ verdict_line_of verdict) }
{
    let line = verdict_line(alloc, verdict)?;
    text.push_str(before)?;
    text.push_str(line.as_str())
}

/// Appends the verdict on the pair.
fn push_verdict(text: &mut String, comparison: &LogComparison) -> Result<(), AllocError>
    ensures { OnOk result (string_bytes text.new ≡ string_bytes text.old ++ verdict_line_by comparison.now) }
{
    push_words(text, comparison.verdict(), comparison.is_pair())?;
    push_counts(text, comparison)?;
    push_count(text, "failed", comparison.count_of_failed())?;
    text.push('\n')
}

/// Appends the word of the verdict, and how many pairs are compared.
#[tactic(auto, unfolding(crate::specs::Comparison::verdict_words))]
fn push_words(text: &mut String, verdict: PairVerdict, is_pair: bool) -> Result<(), AllocError>
    ensures { OnOk result (string_bytes text.new ≡ string_bytes text.old ++ verdict_words verdict is_pair) }
{
    let word = verdict_word(verdict);
    let count = pair_count(is_pair);
    write!(text, "{word} connections={count}")
}

/// Returns how many pairs are compared.
fn pair_count(is_pair: bool) -> u64
    ensures { result ≡ pairs is_pair }
{
    if is_pair {
        return 1;
    }
    0
}

/// Appends each count that is not 0.
#[tactic(auto, unfolding(crate::specs::Comparison::counts_words))]
fn push_counts(text: &mut String, comparison: &LogComparison) -> Result<(), AllocError>
    ensures { OnOk result (string_bytes text.new ≡ string_bytes text.old ++ counts_words comparison.now) }
{
    push_count(text, "skipped", comparison.count_of(FactKind::Skipped))?;
    push_count(text, "swapped", comparison.count_of(FactKind::Swapped))?;
    push_count(text, "again", comparison.count_of(FactKind::Again))?;
    push_count(text, "differs", comparison.count_of(FactKind::Differs))?;
    push_count(text, "unsent", comparison.count_of(FactKind::Unsent))?;
    push_count(text, "unfound", comparison.count_of(FactKind::Unfound))?;
    push_count(text, "order", comparison.count_of(FactKind::Order))
}

/// Appends a count with its name, if it is not 0.
fn push_count(text: &mut String, name: &str, count: u64) -> Result<(), AllocError>
    ensures { OnOk result (string_bytes text.new ≡ string_bytes text.old ++ count_words name.now count) }
{
    if count == 0 {
        return Ok(());
    }
    write!(text, " {name}={count}")
}

/// Returns the word of a verdict.
fn verdict_word(verdict: PairVerdict) -> &'static str
    ensures { result.now ≡ word_of verdict }
{
    match verdict {
        PairVerdict::Agree => "agree",
        PairVerdict::Disagree => "disagree",
        PairVerdict::Undecided => "undecided",
    }
}
