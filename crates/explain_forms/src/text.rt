//! A line and its annotations, as text.

ghost use Rattle.std.specs.Prelude.{◌≡◌, ◌++◌, ℕ, List, IfSome, codes};
ghost use Rattle.explain_forms.specs.OutputBuffer.{Adds, AddsSome};
ghost use Rattle.explain_lines.specs.Phrases.{why_name};
ghost use Rattle.explain_forms.specs.TextOutput.{CarriedSaid, LineWritten, NoteWritten, PlainSaid, WhatSaid, below, gap_text, mark_text, rule_words};

use crate::output_buffer::Page;
use crate::visible::append_visible;
use explain_lines::{Carried, Concern, ExplainedLine, Failing, Moment, Note, name_of};
use hsms_log::{What, split_at_first};
use hsms_machine::{GREATEST_DEPTH, Mark};
use std::fmt;

// The widths of the number of a line, of its time in ms, and of its time as a date.
const NUMBER: usize = 6;

const TIME: usize = 7;

const DATE: usize = 24;

/// Writes a line, and below it the annotations. `utc` selects dates instead of times in ms.
pub fn write_line(page: &mut Page, shown_line: ExplainedLine<'_, '_>, notes: &[Note], utc: bool)
    ensures { (words : List ℕ) × LineWritten shown_line.entry notes.now words × Adds page.old page.new words }
{
    page.append_number(shown_line.number, NUMBER);
    page.append_chunk(b" ");
    write_carried(page, shown_line, utc);
    for note in notes {
        write_note(page, note, utc);
    }
}

/// Writes that lines are skipped.
pub fn write_gap(page: &mut Page)
    ensures { Adds page.old page.new gap_text }
{
    page.append_chunk(b"       ..\n");
}

/// Writes words on a line of their own.
pub fn write_words<D: fmt::Display>(page: &mut Page, words: &D)
    ensures { (said : List ℕ) × IfSome (D.output words.now) (λ output. said ≡ output)
        × Adds page.old page.new (said ++ codes "\n") }
{
    page.append_words(words);
    page.append_chunk(b"\n");
}

// Writes the content of a line, or the line as it is.
fn write_carried(page: &mut Page, shown_line: ExplainedLine<'_, '_>, utc: bool)
    ensures { (words : List ℕ) × CarriedSaid shown_line.entry.carried words × Adds page.old page.new words }
{
    match shown_line.carried {
        Carried::Entry(step, text) => {
            write_time(page, step.time, utc);
            page.append_chunk(b" ");
            write_what(page, shown_line, step.what, text);
        }
        Carried::Nothing => write_plain(page, shown_line, utc),
        Carried::Unreadable(_) => write_plain(page, shown_line, utc),
    }
}

// Writes the time of an entry.
fn write_time(page: &mut Page, time: u64, utc: bool)
    ensures { AddsSome page.old page.new }
{
    if !utc {
        page.append_number(time, TIME);
        return;
    }
    let words = page.words(&Moment { time, utc });
    page.append_blanks(DATE.saturating_sub(words.len()));
    page.append_chunk(words.as_bytes());
}

// Writes the event of an entry: a frame as `hsms show` shows it, the text of another entry.
fn write_what(page: &mut Page, shown_line: ExplainedLine<'_, '_>, what: What, text: &[u8])
    ensures { (words : List ℕ) × WhatSaid what text.now words × Adds page.old page.new words }
{
    match what {
        What::Frame(mark, header) => {
            page.append_chunk(mark_word(mark));
            page.append_message_line(header, text, GREATEST_DEPTH);
        }
        What::Up => write_rest(page, shown_line),
        What::T3(_) => write_rest(page, shown_line),
        What::Cut(_) => write_rest(page, shown_line),
        What::Down => write_rest(page, shown_line),
    }
}

// Writes the part of a line after its time, unchanged.
fn write_rest(page: &mut Page, shown_line: ExplainedLine<'_, '_>)
    ensures { AddsSome page.old page.new }
{
    page.append_chunk(after_time(shown_line.octets));
    page.append_chunk(b"\n");
}

fn mark_word(mark: Mark) -> &'static [u8]
    ensures { result.now ≡ mark_text mark }
{
    match mark {
        Mark::Sent => b"> ",
        Mark::Taken => b"< ",
        Mark::Discarded => b"! ",
    }
}

/// Returns the part of a line after its time.
pub fn after_time(line: &[u8]) -> &[u8] {
    match split_at_first(line, b' ') {
        Some((_, words)) => words,
        None => line,
    }
}

// Writes a line in the column of the entries, unchanged except for control characters, which are escaped.
fn write_plain(page: &mut Page, shown_line: ExplainedLine<'_, '_>, utc: bool)
    ensures { (words : List ℕ) × PlainSaid words × Adds page.old page.new words }
{
    page.append_blanks(1 + if utc { DATE } else { TIME });
    append_visible(page, shown_line.shown());
    page.append_chunk(b"\n");
}

fn write_note(page: &mut Page, note: &Note, utc: bool)
    ensures { (words : List ℕ) × NoteWritten note.now words × Adds page.old page.new words }
{
    match note {
        Note::Closes(closing) => write_below(page, closing),
        Note::Fails(failing) => write_failing(page, failing, utc),
        Note::FailsInGroup(failure_group) => write_below(page, failure_group),
    }
}

fn write_failing(page: &mut Page, failing: &Failing, utc: bool)
    ensures { (further : List ℕ)
        × Adds page.old page.new (rule_words (why_name failing.now.why) failing.now.sentence.now ++ further) }
{
    write_rule(page, name_of(failing.why), failing.sentence);
    write_culprit(page, failing);
    write_further(page, failing.expected);
    write_further(page, failing.continuation(utc));
}

fn write_rule(page: &mut Page, name: &str, sentence: &str)
    ensures { Adds page.old page.new (rule_words name.now sentence.now) }
{
    page.append_chunk(b"       FAIL ");
    page.append_chunk(name.as_bytes());
    page.append_chunk(b": ");
    page.append_chunk(sentence.as_bytes());
    page.append_chunk(b"\n");
}

// Writes words below a line.
fn write_below<D: fmt::Display>(page: &mut Page, words: &D)
    ensures { (said : List ℕ) × IfSome (D.output words.now) (λ output. said ≡ output)
        × Adds page.old page.new (below said) }
{
    page.append_chunk(b"       ");
    write_words(page, words);
}

// Writes the request whose timer has expired, or the line of the open transaction.
fn write_culprit(page: &mut Page, failing: &Failing)
    ensures { AddsSome page.old page.new }
{
    match failing.overdue {
        Some(overdue) => write_further(page, Some(overdue)),
        None => write_further(page, failing.concerns.map(|line| Concern { line })),
    }
}

// Writes words below the rule text of a failure, if there are any.
fn write_further<D: fmt::Display + Drop>(page: &mut Page, words: Option<D>)
    ensures { AddsSome page.old page.new }
{
    match words {
        Some(words) => {
            page.append_chunk(b"     ");
            write_below(page, &words);
        }
        None => {}
    }
}
