//! The output as an HTML page: a ladder diagram of the messages between the two endpoints, with a summary on top.
//!
//! The page is written as the lines arrive. The part on top that is known only at the end, such as the failures and the
//! verdict, is written last. The style moves it to the top.

use crate::html_escape::{append_octets, append_text, append_words};
use crate::html_links::{Links, accepts, expired_by};
use crate::html_style::STYLE;
use crate::output_buffer::Page;
use crate::text::after_time;
use cli_options::sentence;
use explain_lines::{
    Carried, Concern, ExplainedLine, Failing, FailureGroup, Function, Gap, Jump, Moment, Note,
    System, UNREADABLE, name_of,
};
use explain_statistics::{Doubt, Group, Groups, Listed, MOST_GROUPS, Outcome, Primaries, Times};
use hsms_frame::{Header, Kind, kind};
use hsms_log::{Step, What, Why};
use hsms_machine::{GREATEST_DEPTH, Mark, Role, Rule, Settings};
use std::fmt;

// The markup before the style, and the markup between the style and the lines.
const HEAD: &str = "<!DOCTYPE html>\n<html lang=\"en\"><head><meta charset=\"utf-8\">\
    <meta name=\"viewport\" content=\"width=device-width, initial-scale=1\"><title>hsms explain</title>\n<style>";

const BODY: &str = "</style></head>\n<body>\n";

// The column headings of the outcomes of primaries.
const COLUMNS: &str = "<table>\n<tr><th>Primaries</th><th>all</th><th>answered</th><th>aborted</th>\
    <th>expired</th><th>rejected</th><th>ended</th><th>waiting</th><th>min ms</th><th>median</th><th>p99</th>\
    <th>max</th></tr>\n";

fn put(page: &mut Page, markup: &str) {
    page.append_chunk(markup.as_bytes());
}

// Writes markup, followed by a number.
fn put_number(page: &mut Page, markup: &str, number: u64) {
    put(page, markup);
    page.append_number(number, 0);
}

/// Writes the head of the page, and starts the lines.
pub fn begin(page: &mut Page, utc: bool) {
    put(page, HEAD);
    put(page, STYLE);
    put(page, BODY);
    let main = if utc {
        "<main class=\"utc\">\n"
    } else {
        "<main>\n"
    };
    put(page, main);
}

/// Writes the roles of the two endpoints above the ladder. The endpoint whose log it is comes first, on the left.
pub fn write_ends(page: &mut Page, settings: Settings) {
    let ends = match settings.role() {
        Role::Host => "<header><b>host</b><b>equipment</b></header>\n",
        Role::Equipment => "<header><b>equipment</b><b>host</b></header>\n",
    };
    put(page, ends);
}

/// Ends the lines, and starts the part on top of them. From line `shortened` on only failures are shown.
pub fn end_lines(page: &mut Page, links: &Links, shortened: Option<u64>) {
    put(page, "</main>\n<section>\n");
    if let Some(line) = shortened {
        put_number(page, "<p class=\"short\">From line ", line);
        put(
            page,
            " on, only failures and the lines around them are shown: --all shows every line.</p>\n",
        );
    }
    write_open(page, links);
}

/// Writes a log line and its annotations. `utc` selects dates instead of times in ms.
pub fn write_line(
    page: &mut Page,
    links: &mut Links,
    shown_line: ExplainedLine<'_, '_>,
    notes: &[Note],
    utc: bool,
) {
    if links.note(shown_line.number).is_err() {
        page.refuse();
    }
    begin_row(page, shown_line, notes);
    write_said(page, shown_line, utc);
    write_closings(page, links, notes);
    write_ahead(page, links, shown_line, notes);
    for note in notes {
        write_failure(page, links, note, utc);
    }
    write_start(page, links, shown_line, notes);
    put(page, "</div>\n");
}

/// Writes an earlier line, which a failure names, and its annotations. What it opens may have been closed at a line that
/// is not written, so no link leads there.
pub fn write_named_line(
    page: &mut Page,
    links: &mut Links,
    shown_line: ExplainedLine<'_, '_>,
    notes: &[Note],
    utc: bool,
) {
    if links.note(shown_line.number).is_err() {
        page.refuse();
    }
    begin_row(page, shown_line, notes);
    write_said(page, shown_line, utc);
    write_closings(page, links, notes);
    for note in notes {
        write_failure(page, links, note, utc);
    }
    put(page, "</div>\n");
}

// Starts the row of a line, and writes its number.
fn begin_row(page: &mut Page, shown_line: ExplainedLine<'_, '_>, notes: &[Note]) {
    put(page, "<div class=\"row ");
    put(page, class_of(shown_line.carried));
    if notes.iter().any(|note| !matches!(note, Note::Closes(_))) {
        put(page, " bad");
    }
    put_number(page, "\" id=\"l", shown_line.number);
    put_number(page, "\"><a class=\"n\" href=\"#l", shown_line.number);
    put_number(page, "\">", shown_line.number);
    put(page, "</a>");
}

// Returns the CSS classes of the row of a line.
fn class_of(carried: Carried<'_>) -> &'static str {
    match carried {
        Carried::Entry(step, _) => match step.what {
            What::Frame(mark, header) => frame_class(mark, header),
            What::Up => "event up",
            What::T3(_) => "timer",
            What::Cut(_) => "event cut",
            What::Down => "event down",
        },
        Carried::Nothing | Carried::Unreadable(_) => "plain",
    }
}

fn frame_class(mark: Mark, header: Header) -> &'static str {
    match (mark, is_data(header)) {
        (Mark::Sent, true) => "sent",
        (Mark::Sent, false) => "sent control",
        (Mark::Taken, true) => "taken",
        (Mark::Taken, false) => "taken control",
        (Mark::Discarded, true) => "lost",
        (Mark::Discarded, false) => "lost control",
    }
}

fn is_data(header: Header) -> bool {
    match kind(header) {
        Kind::Primary | Kind::Reply => true,
        _ => false,
    }
}

// Writes the content of a line: a frame as an arrow, the text of another entry, and otherwise the line as it is.
fn write_said(page: &mut Page, shown_line: ExplainedLine<'_, '_>, utc: bool) {
    let Carried::Entry(step, text) = shown_line.carried else {
        return write_element(page, "pre", shown_line.shown());
    };
    put(page, "<span>");
    append_words(
        page,
        &Moment {
            time: step.time,
            utc,
        },
    );
    put(page, "</span>");
    match step.what {
        What::Frame(_, header) => write_frame(page, header, text),
        _ => write_element(page, "b", after_time(shown_line.octets)),
    }
}

// Writes an element whose text is bytes of the log.
fn write_element(page: &mut Page, name: &str, octets: &[u8]) {
    put(page, "<");
    put(page, name);
    put(page, ">");
    append_octets(page, octets);
    put(page, "</");
    put(page, name);
    put(page, ">");
}

// Writes a frame: its name, its system bytes, and, collapsed, the line that `hsms show` writes for it.
fn write_frame(page: &mut Page, header: Header, text: &[u8]) {
    let line = page.message(header, text, GREATEST_DEPTH);
    put(page, "<details><summary><b>");
    if is_data(header) {
        append_words(page, &Function::of(header));
        if header.wait() {
            put(page, " W");
        }
    } else {
        write_control(page, &line);
    }
    put(page, "</b> <i>");
    append_words(page, &System(header.system));
    put(page, "</i></summary><pre>");
    append_text(page, line.as_bytes());
    put(page, "</pre></details>");
}

// Writes the name of a control message: the first word of its line, and the word after its system bytes.
fn write_control(page: &mut Page, line: &str) {
    let mut words = line.split(' ');
    append_text(page, words.next().unwrap_or("").as_bytes());
    if let Some(word) = words.nth(2) {
        put(page, " ");
        append_text(page, word.as_bytes());
    }
}

// Writes a paragraph: the text `front`, then the words as a link to the line `to`. The link `reply` of the line
// `closed` leads to its ID. Each is left out if there is no such line.
fn write_link<D: fmt::Display>(
    page: &mut Page,
    front: &str,
    to: Option<u64>,
    closed: Option<u64>,
    words: &D,
) {
    put(page, front);
    write_anchor(page, to, closed, words);
    put(page, "</p>");
}

fn write_anchor<D: fmt::Display>(page: &mut Page, to: Option<u64>, closed: Option<u64>, words: &D) {
    put(page, "<a");
    write_line_number(page, " id=\"r", closed);
    write_line_number(page, " href=\"#l", to);
    put(page, ">");
    append_words(page, words);
    put(page, "</a>");
}

// Writes an attribute that ends with a line number, if there is one.
fn write_line_number(page: &mut Page, front: &str, line: Option<u64>) {
    if let Some(line) = line {
        put_number(page, front, line);
        put(page, "\"");
    }
}

// Writes the transactions that a line closes.
fn write_closings(page: &mut Page, links: &mut Links, notes: &[Note]) {
    for note in notes {
        if let Note::Closes(closing) = note {
            let closed = links.close(closing.line);
            let to = links.shown_line(closing.line);
            write_link(page, "<p class=\"at\">", to, closed, closing);
        }
    }
}

// Writes a link to the entry that closes the transaction that a line opens.
fn write_ahead(
    page: &mut Page,
    links: &mut Links,
    shown_line: ExplainedLine<'_, '_>,
    notes: &[Note],
) {
    let Carried::Entry(step, _) = shown_line.carried else {
        return;
    };
    if let What::Frame(Mark::Sent | Mark::Taken, header) = step.what {
        if asks(header) && accepts(notes) {
            write_reply(page, links, shown_line.number);
        }
    }
}

// Writes the open transactions if a connection starts.
fn write_start(
    page: &mut Page,
    links: &mut Links,
    shown_line: ExplainedLine<'_, '_>,
    notes: &[Note],
) {
    if shown_line.is_up() && accepts(notes) {
        write_open(page, links);
        links.close_all();
    }
}

// Writes a link to the entry that closes the transaction that a line opens, if there is space for one more.
fn write_reply(page: &mut Page, links: &mut Links, line: u64) {
    match links.open(line) {
        Ok(true) => {
            put_number(page, "<p class=\"at\"><a href=\"#r", line);
            put(page, "\">reply</a></p>");
        }
        Ok(false) => {}
        Err(_) => page.refuse(),
    }
}

fn asks(header: Header) -> bool {
    match kind(header) {
        Kind::Primary => header.wait(),
        Kind::SelectReq | Kind::LinktestReq => true,
        _ => false,
    }
}

// Writes the lines of the open transactions, which no line on the page closes.
fn write_open(page: &mut Page, links: &Links) {
    let lines = links.all_open();
    if lines.is_empty() {
        return;
    }
    put(page, "<p class=\"open\">Open transactions:");
    for line in lines {
        write_line_number(page, " <a id=\"r", Some(*line));
        write_line_number(page, " href=\"#l", links.shown_line(*line));
        put_number(page, ">", *line);
        put(page, "</a>");
    }
    put(page, "</p>\n");
}

fn write_failure(page: &mut Page, links: &mut Links, note: &Note, utc: bool) {
    match note {
        Note::Closes(_) => {}
        Note::Fails(failing) => write_failing(page, links, note, failing, utc),
        Note::FailsInGroup(failure_group) => write_group_failure(page, links, note, *failure_group),
    }
}

// Writes a failure with a link to the earlier line to which it refers, and to the line of the open transaction.
fn write_group_failure(
    page: &mut Page,
    links: &mut Links,
    note: &Note,
    failure_group: FailureGroup,
) {
    let to = links.shown_line(failure_group.line);
    let Some(line) = failure_group.concerns else {
        write_link(page, "<div class=\"f\"><p>", to, None, &failure_group);
        return put(page, "</div>");
    };
    let alone = FailureGroup {
        concerns: None,
        ..failure_group
    };
    put(page, "<div class=\"f\"><p>");
    write_anchor(page, to, None, &alone);
    put(page, ", ");
    let closed = expired_by(note).and_then(|line| links.close(line));
    let opened = links.shown_line(line);
    write_anchor(page, opened, closed, &Concern { line });
    put(page, "</p></div>");
}

fn write_failing(page: &mut Page, links: &mut Links, note: &Note, failing: &Failing, utc: bool) {
    put(page, "<div class=\"f\"><p><b>FAIL ");
    put(page, name_of(failing.why));
    put(page, "</b>: ");
    append_text(page, failing.sentence.as_bytes());
    put(page, "</p>");
    write_concern(page, links, note, failing);
    if let Some(expected) = failing.expected {
        let to = failing
            .expected_line()
            .and_then(|line| links.shown_line(line));
        write_link(page, "<p>", to, None, &expected);
    }
    if let Some(continuation) = failing.continuation(utc) {
        put(page, "<p>");
        append_words(page, &continuation);
        put(page, "</p>");
    }
    put(page, "</div>");
}

// Writes the request whose timer has expired, or the line of the open transaction that a failure involves. If the repair assumes that it expired, it is
// recorded as closed.
fn write_concern(page: &mut Page, links: &mut Links, note: &Note, failing: &Failing) {
    let closed = expired_by(note).and_then(|line| links.close(line));
    if let Some(overdue) = failing.overdue {
        let to = links.shown_line(overdue.line);
        return write_link(page, "<p>", to, closed, &overdue);
    }
    if let Some(line) = failing.concerns {
        let to = links.shown_line(line);
        write_link(page, "<p>", to, closed, &Concern { line });
    }
}

/// Writes that lines are skipped, and which open transactions end there.
pub fn write_gap(page: &mut Page, links: &mut Links, gap: Gap) {
    put(page, "<div class=\"gap\">");
    if gap.from < gap.to {
        put_number(page, "lines ", gap.from);
        put_number(page, " to ", gap.to);
    } else {
        put_number(page, "line ", gap.to);
    }
    put(page, " not shown");
    for ending in links.endings() {
        if ending.line <= gap.to {
            let to = links.shown_line(ending.opened);
            write_link(page, "<p>", to, Some(ending.opened), ending);
        }
    }
    links.clear_endings(gap.to);
    put(page, "</div>\n");
}

/// Writes that the next line is not the one after the last line written.
pub fn write_jump(page: &mut Page, jump: Jump) {
    put(page, "<div class=\"gap\">");
    match jump {
        Jump::Back(line) => put_number(page, "back to line ", line),
        Jump::On(line) => put_number(page, "on to line ", line),
    }
    put(page, "</div>\n");
}

/// Writes a paragraph with the text `front` and the words.
pub fn write_words<D: fmt::Display>(page: &mut Page, front: &str, words: &D) {
    put(page, front);
    append_words(page, words);
    put(page, "</p>\n");
}

/// Writes a setting in line 1 that no entry agrees with, if there is one.
pub fn write_doubt(page: &mut Page, doubt: Option<Doubt>) {
    match doubt {
        Some(doubt) => write_words(page, "<p class=\"doubt\">", &doubt),
        None => {}
    }
}

/// Writes the failure groups, each with a link to its first failure.
pub fn write_groups(page: &mut Page, groups: &Groups) {
    put(page, "<ol>\n");
    let mut count = 0usize;
    for group in groups.iter() {
        write_group(page, *group);
        count = count.saturating_add(1);
    }
    put(page, "</ol>\n");
    if count >= MOST_GROUPS {
        put(
            page,
            "<p>Failures of other kinds are shown at their lines only.</p>\n",
        );
    }
}

fn write_group(page: &mut Page, group: Group) {
    put_number(page, "<li><a href=\"#l", group.first);
    put(page, "\"><b>");
    put(page, name_of(group.why));
    put_number(page, "</b> line ", group.first);
    put(page, "</a>: ");
    append_text(page, matter_of(group.why).as_bytes());
    if group.count > 1 {
        put_number(page, "; ", group.count - 1);
        put_number(page, " more like it, the last at line ", group.last);
    }
    put(page, "</li>\n");
}

// Returns the problem that all lines with this failure have.
fn matter_of(why: Why) -> &'static str {
    match why {
        Why::Unreadable => UNREADABLE,
        Why::Broken(Rule::WBit) => "the W bit must not be set",
        Why::Broken(rule) => sentence(rule),
    }
}

/// Writes the outcomes of the primaries that request a reply.
pub fn write_primaries(page: &mut Page, links: &Links, primaries: &Primaries) {
    if primaries.len() == 0 {
        return;
    }
    put(page, COLUMNS);
    for place in 0..primaries.len() {
        if let Some(outcome) = primaries.outcome(place) {
            write_outcome(page, links, outcome);
        }
    }
    put(page, "</table>\n");
}

// Writes the outcomes of the primaries of a kind.
fn write_outcome(page: &mut Page, links: &Links, outcome: Outcome) {
    put(page, "<tr><td>");
    match outcome.function() {
        Some(function) => append_words(page, &function),
        None => put(page, "others"),
    }
    put(page, " W ");
    put(page, outcome.way());
    put_number(page, "</td><td>", outcome.counts.opened);
    put(page, "</td>");
    for (name, count) in outcome.fates() {
        put(page, "<td>");
        if count > 0 {
            page.append_number(count, 0);
        }
        if name == "answered" {
            write_unmeasured(page, outcome.counts.unmeasured);
        }
        put(page, "</td>");
    }
    match outcome.times {
        Some(times) => write_times(page, links, times),
        None => put(page, "<td></td><td></td><td></td><td></td>"),
    }
    put(page, "</tr>\n");
}

// Writes the number of answered primaries without a time, if there are any.
fn write_unmeasured(page: &mut Page, unmeasured: u64) {
    if unmeasured > 0 {
        put_number(page, " + ", unmeasured);
        put(page, " unmeasured");
    }
}

/// Writes a primary of a list, as a link to its line if that is shown.
pub fn write_listed(page: &mut Page, links: &Links, listed: &Listed) {
    let to = links.shown_line(listed.asked().line);
    write_link(page, "<p class=\"list\">", to, None, listed);
    put(page, "\n");
}

fn write_times(page: &mut Page, links: &Links, times: Times) {
    for time in [times.least, times.median, times.most] {
        put_number(page, "<td>", time);
        put(page, "</td>");
    }
    put_number(page, "<td>", times.greatest);
    put(page, " (<a");
    write_line_number(page, " href=\"#l", links.shown_line(times.line));
    put_number(page, ">line ", times.line);
    put(page, "</a>)</td>");
}
