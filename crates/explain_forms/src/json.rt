//! The output as JSON (RFC 8259): one object per line.

use crate::output_buffer::Page;
use explain_lines::{
    Carried, Closing, Continuation, Expected, ExplainedLine, Failing, FailureGroup, Gap, Moment,
    Note, Overdue, Put, Rest, System, Unjudged, name_of, word_of,
};
use explain_statistics::{Doubt, Listed, Outcome, Tally};
use hsms_frame::{Header, Kind, kind};
use hsms_log::{Step, What, cause_word};
use hsms_machine::{GREATEST_DEPTH, Mark};
use serde::{Described, Serialize, Serializer};
use std::fmt;

/// A value that is written as an object.
pub trait AsObject {
    /// Sends the object of the value.
    fn send_object<S: Serializer>(&self, out: &mut S) -> Result<(), S::Error>;
}

// A value of which the object is written.
#[derive(Drop)]
struct Written<'a, T> {
    value: &'a T,
}

impl<T> Described for Written<'_, T> {}

impl<T: AsObject> Serialize for Written<'_, T> {
    fn serialize<S: Serializer>(&self, out: &mut S) -> Result<(), S::Error> {
        self.value.send_object(out)
    }
}

// An object: its members with their names.
#[derive(Clone, Copy)]
struct Object<'m, 'a>(&'m [(&'static str, Member<'a>)]);

// The value of a member of an object.
#[derive(Clone, Copy)]
enum Member<'a> {
    // No value: the object has no such member.
    Nothing,
    Number(u64),
    Truth(bool),
    Text(&'a str),
    Overdue(Option<Overdue>),
    Expected(Option<Expected>),
    RepairAction(Option<Continuation>),
    Put(Option<Put>),
    System(Option<System>),
    Rules(&'a Tally),
}

impl Described for Object<'_, '_> {}

impl Serialize for Object<'_, '_> {
    fn serialize<S: Serializer>(&self, out: &mut S) -> Result<(), S::Error> {
        out.begin_map(None)?;
        send_members(out, self.0)?;
        out.end_map()
    }
}

// Sends the members of an object in order.
fn send_members<S: Serializer>(
    out: &mut S,
    members: &[(&'static str, Member<'_>)],
) -> Result<(), S::Error> {
    for (name, member) in members {
        member.send(out, name)?;
    }
    Ok(())
}

impl Member<'_> {
    fn of(number: Option<u64>) -> Member<'static> {
        match number {
            Some(number) => Member::Number(number),
            None => Member::Nothing,
        }
    }

    fn send<S: Serializer>(&self, out: &mut S, name: &str) -> Result<(), S::Error> {
        match self {
            Member::Nothing => Ok(()),
            Member::Number(number) => send_number(out, name, *number),
            Member::Truth(truth) => send_truth(out, name, *truth),
            Member::Text(text) => send_text(out, name, text),
            Member::Overdue(words) => send_words(out, name, words),
            Member::Expected(words) => send_words(out, name, words),
            Member::RepairAction(words) => send_words(out, name, words),
            Member::Put(words) => send_words(out, name, words),
            Member::System(words) => send_words(out, name, words),
            Member::Rules(tally) => send_rules(out, name, tally),
        }
    }
}

// A log line with its annotations.
#[derive(Clone, Copy)]
struct LineObject<'a> {
    shown_line: ExplainedLine<'a, 'a>,
    // For a frame, the line that `hsms show` writes for it; for a line without an entry, its text.
    shown: &'a str,
    notes: &'a [Note],
    utc: bool,
}

impl AsObject for LineObject<'_> {
    fn send_object<S: Serializer>(&self, out: &mut S) -> Result<(), S::Error> {
        out.begin_map(None)?;
        self.send_line(out)?;
        send_notes(out, self.notes, self.utc)?;
        out.end_map()
    }
}

impl LineObject<'_> {
    // Sends the type, number and content of the line.
    fn send_line<S: Serializer>(&self, out: &mut S) -> Result<(), S::Error> {
        send_text(out, "type", "line")?;
        send_number(out, "line", self.shown_line.number)?;
        match self.shown_line.carried {
            Carried::Entry(step, text) => self.send_entry(out, step, text),
            Carried::Nothing | Carried::Unreadable(_) => send_text(out, "text", self.shown),
        }
    }

    fn send_entry<S: Serializer>(
        &self,
        out: &mut S,
        step: Step,
        text: &[u8],
    ) -> Result<(), S::Error> {
        send_time(out, step.time, self.utc)?;
        match step.what {
            What::Frame(mark, header) => self.send_frame(out, mark, header, text),
            What::Up => send_text(out, "kind", "up"),
            What::T3(system) => send_members(
                out,
                &[
                    ("kind", Member::Text("t3")),
                    ("system", Member::System(Some(System(system)))),
                ],
            ),
            What::Cut(cause) => send_members(
                out,
                &[
                    ("kind", Member::Text("cut")),
                    ("cause", Member::Text(cause_word(cause))),
                ],
            ),
            What::Down => send_text(out, "kind", "down"),
        }
    }

    // Sends the words of the line of a frame: its kind, session ID and system bytes, and what follows them.
    fn send_frame<S: Serializer>(
        &self,
        out: &mut S,
        mark: Mark,
        header: Header,
        text: &[u8],
    ) -> Result<(), S::Error> {
        send_text(out, "mark", mark_word(mark))?;
        let mut words = self.shown.splitn(4, ' ');
        for name in ["kind", "session", "system"] {
            send_text(out, name, words.next().unwrap_or(""))?;
        }
        let rest = words.next().unwrap_or("");
        match kind(header) {
            Kind::Primary | Kind::Reply => send_data(out, header, rest),
            _ if text.is_empty() => send_numbers(out, header),
            _ => send_control(out, header, rest),
        }
    }
}

// Sends the numbers and the message text of a control message that has a text.
fn send_control<S: Serializer>(out: &mut S, header: Header, rest: &str) -> Result<(), S::Error> {
    send_numbers(out, header)?;
    send_text(out, "octets", rest.rsplit(' ').next().unwrap_or(""))
}

fn send_text<S: Serializer>(out: &mut S, name: &str, text: &str) -> Result<(), S::Error> {
    out.key(name)?;
    out.str(text)
}

fn send_number<S: Serializer>(out: &mut S, name: &str, number: u64) -> Result<(), S::Error> {
    out.key(name)?;
    out.u64(number)
}

fn send_truth<S: Serializer>(out: &mut S, name: &str, truth: bool) -> Result<(), S::Error> {
    out.key(name)?;
    out.bool(truth)
}

// Sends words, if there are any.
fn send_words<S: Serializer, D: fmt::Display>(
    out: &mut S,
    name: &str,
    words: &Option<D>,
) -> Result<(), S::Error> {
    match words {
        Some(words) => {
            out.key(name)?;
            out.collect_str(words)
        }
        None => Ok(()),
    }
}

// Sends how often each rule was broken, as an object with a member for each rule name.
fn send_rules<S: Serializer>(out: &mut S, name: &str, tally: &Tally) -> Result<(), S::Error> {
    out.key(name)?;
    out.begin_map(None)?;
    for (why, count) in tally.counts() {
        send_number(out, name_of(*why), *count)?;
    }
    out.end_map()
}

// Sends the time of an entry, and its date if `utc` is set.
fn send_time<S: Serializer>(out: &mut S, time: u64, utc: bool) -> Result<(), S::Error> {
    send_number(out, "time", time)?;
    send_words(out, "utc", &Moment { time, utc }.date())
}

// Sends the stream, function, W bit and notation of a data message.
fn send_data<S: Serializer>(out: &mut S, header: Header, notation: &str) -> Result<(), S::Error> {
    send_members(
        out,
        &[
            ("stream", Member::Number(u64::from(header.stream()))),
            ("function", Member::Number(u64::from(header.function()))),
            ("wait", Member::Truth(header.wait())),
            ("notation", Member::Text(notation)),
        ],
    )
}

// Sends the numbers of a control message.
fn send_numbers<S: Serializer>(out: &mut S, header: Header) -> Result<(), S::Error> {
    match kind(header) {
        Kind::SelectRsp => send_number(out, "status", u64::from(header.byte3)),
        Kind::Reject => {
            send_number(out, "rejected", u64::from(header.byte2))?;
            send_number(out, "reason", u64::from(header.byte3))
        }
        Kind::OtherSType => send_number(out, "stype", u64::from(header.stype)),
        Kind::OtherPType => send_number(out, "ptype", u64::from(header.ptype)),
        _ => Ok(()),
    }
}

// Sends the line that an entry closes, and its failures, if there are any.
fn send_notes<S: Serializer>(out: &mut S, notes: &[Note], utc: bool) -> Result<(), S::Error> {
    let mut fails = false;
    for note in notes {
        match note {
            Note::Closes(closing) => send_closing(out, *closing)?,
            Note::Fails(_) | Note::FailsInGroup(_) => fails = true,
        }
    }
    if !fails {
        return Ok(());
    }
    out.key("failures")?;
    Failures { notes, utc }.serialize(out)
}

fn send_closing<S: Serializer>(out: &mut S, closing: Closing) -> Result<(), S::Error> {
    let Closing { tie, line, after } = closing;
    let members = [
        (word_of(tie), Member::Number(line)),
        ("after", Member::of(after)),
    ];
    send_members(out, &members)
}

// The failures among the annotations of a line.
#[derive(Clone, Copy)]
struct Failures<'a> {
    notes: &'a [Note],
    utc: bool,
}

impl Described for Failures<'_> {}

impl Serialize for Failures<'_> {
    fn serialize<S: Serializer>(&self, out: &mut S) -> Result<(), S::Error> {
        out.begin_seq(None)?;
        for note in self.notes {
            match note {
                Note::Fails(failing) => send_failing(out, failing, self.utc)?,
                Note::FailsInGroup(failure_group) => send_group(out, failure_group)?,
                Note::Closes(_) => {}
            }
        }
        out.end_seq()
    }
}

// Sends a failure in full.
fn send_failing<S: Serializer>(out: &mut S, failing: &Failing, utc: bool) -> Result<(), S::Error> {
    let members = [
        ("rule", Member::Text(name_of(failing.why))),
        ("sentence", Member::Text(failing.sentence)),
        ("column", column_of(failing.expected)),
        ("reason", reason_of(failing.expected)),
        ("concerns", Member::of(failing.concerns)),
        ("overdue", Member::Overdue(failing.overdue)),
        ("waited", Member::of(failing.overdue.map(|it| it.waited))),
        ("expected", expected_of(failing.expected)),
        ("expected_line", Member::of(failing.expected_line())),
        ("remedy", Member::RepairAction(failing.continuation(utc))),
        ("put", Member::Put(failing.put())),
    ];
    Object(&members).serialize(out)
}

// Returns the column at which a line is unreadable.
fn column_of(expected: Option<Expected>) -> Member<'static> {
    match expected {
        Some(Expected::Form(unreadable)) => Member::Number(unreadable.column as u64),
        _ => Member::Nothing,
    }
}

// Returns why a line is unreadable.
fn reason_of(expected: Option<Expected>) -> Member<'static> {
    match expected {
        Some(Expected::Form(unreadable)) => Member::Text(unreadable.reason.words()),
        _ => Member::Nothing,
    }
}

// Returns what was expected: for an unreadable line, the form.
fn expected_of(expected: Option<Expected>) -> Member<'static> {
    match expected {
        Some(Expected::Form(unreadable)) => Member::Text(unreadable.form.words()),
        _ => Member::Expected(expected),
    }
}

// Sends a failure that refers to the line of an earlier one.
fn send_group<S: Serializer>(out: &mut S, failure_group: &FailureGroup) -> Result<(), S::Error> {
    let members = [
        ("rule", Member::Text(name_of(failure_group.why))),
        ("like", Member::Number(failure_group.line)),
        ("times", Member::Number(failure_group.times)),
        ("concerns", Member::of(failure_group.concerns)),
    ];
    Object(&members).serialize(out)
}

fn mark_word(mark: Mark) -> &'static str {
    match mark {
        Mark::Sent => ">",
        Mark::Taken => "<",
        Mark::Discarded => "!",
    }
}

/// Writes the object of a value as a line.
pub fn write_object<T: AsObject>(page: &mut Page, value: &T) {
    match serde_json::to_vec(page.alloc(), &Written { value }) {
        Ok(octets) => {
            page.append_chunk(&octets);
            page.append_chunk(b"\n");
        }
        Err(_) => page.refuse(),
    }
}

/// Writes a log line and its annotations. `utc` adds the date of its time. If a line has no entry, bytes that are not
/// UTF-8 are replaced by U+FFFD.
pub fn write_line(page: &mut Page, shown_line: ExplainedLine<'_, '_>, notes: &[Note], utc: bool) {
    let shown = shown(page, shown_line);
    let object = LineObject {
        shown_line,
        shown: shown.as_str(),
        notes,
        utc,
    };
    write_object(page, &object);
}

// Returns the line that `hsms show` writes for a frame, without its line ending, or the bytes of another line.
fn shown(page: &mut Page, shown_line: ExplainedLine<'_, '_>) -> String {
    if let Carried::Entry(step, text) = shown_line.carried {
        if let What::Frame(_, header) = step.what {
            return page.message(header, text, GREATEST_DEPTH);
        }
    }
    page.text(shown_line.shown())
}

// Skipped lines.
impl AsObject for Gap {
    fn send_object<S: Serializer>(&self, out: &mut S) -> Result<(), S::Error> {
        let members = [
            ("type", Member::Text("gap")),
            ("from", Member::Number(self.from)),
            ("to", Member::Number(self.to)),
        ];
        Object(&members).serialize(out)
    }
}

// Why nothing was checked.
impl AsObject for Unjudged {
    fn send_object<S: Serializer>(&self, out: &mut S) -> Result<(), S::Error> {
        let members = [
            ("type", Member::Text("unjudged")),
            ("text", Member::Text(self.words())),
        ];
        Object(&members).serialize(out)
    }
}

// A setting in line 1 that no entry agrees with.
impl AsObject for Doubt {
    fn send_object<S: Serializer>(&self, out: &mut S) -> Result<(), S::Error> {
        out.begin_map(None)?;
        send_text(out, "type", "doubt")?;
        out.key("text")?;
        out.collect_str(self)?;
        out.end_map()
    }
}

// A primary of a list.
impl AsObject for Listed {
    fn send_object<S: Serializer>(&self, out: &mut S) -> Result<(), S::Error> {
        let asked = self.asked();
        let ended = self.ended();
        let members = [
            ("type", Member::Text(self.name())),
            ("line", Member::Number(asked.line)),
            ("system", Member::System(Some(asked.system))),
            ("stream", Member::Number(u64::from(asked.function.stream))),
            (
                "function",
                Member::Number(u64::from(asked.function.function)),
            ),
            ("direction", Member::Text(asked.way())),
            ("after", Member::of(ended.map(|it| it.after))),
            ("end", Member::of(ended.map(|it| it.line))),
        ];
        Object(&members).serialize(out)
    }
}

// The number of failures of a group that were not written in full.
impl AsObject for Rest {
    fn send_object<S: Serializer>(&self, out: &mut S) -> Result<(), S::Error> {
        let members = [
            ("type", Member::Text("rest")),
            ("rule", Member::Text(name_of(self.why))),
            ("count", Member::Number(self.count)),
            ("like", Member::Number(self.line)),
            ("last", Member::Number(self.last)),
        ];
        Object(&members).serialize(out)
    }
}

// How often each rule was broken.
impl AsObject for Tally {
    fn send_object<S: Serializer>(&self, out: &mut S) -> Result<(), S::Error> {
        let members = [
            ("type", Member::Text("failures")),
            ("count", Member::Number(self.all())),
            ("rules", Member::Rules(self)),
        ];
        Object(&members).serialize(out)
    }
}

// The outcomes of the primaries of a kind.
impl AsObject for Outcome {
    fn send_object<S: Serializer>(&self, out: &mut S) -> Result<(), S::Error> {
        out.begin_map(None)?;
        send_kind(out, self)?;
        send_named(out, &self.fates())?;
        send_unmeasured(out, self.counts.unmeasured)?;
        if let Some(times) = self.times {
            send_named(out, &times.named())?;
        }
        out.end_map()
    }
}

// Sends the number of answered primaries without a time, if there are any.
fn send_unmeasured<S: Serializer>(out: &mut S, unmeasured: u64) -> Result<(), S::Error> {
    if unmeasured > 0 {
        return send_number(out, "unmeasured", unmeasured);
    }
    Ok(())
}

// Sends the kind of primaries, and their number.
fn send_kind<S: Serializer>(out: &mut S, outcome: &Outcome) -> Result<(), S::Error> {
    let function = outcome.function();
    let stream = function.map(|it| u64::from(it.stream));
    let function = function.map(|it| u64::from(it.function));
    let members = [
        ("type", Member::Text("primaries")),
        ("stream", Member::of(stream)),
        ("function", Member::of(function)),
        ("direction", Member::Text(outcome.way())),
        ("opened", Member::Number(outcome.counts.opened)),
    ];
    send_members(out, &members)
}

// Sends numbers with their names.
fn send_named<S: Serializer>(out: &mut S, numbers: &[(&'static str, u64)]) -> Result<(), S::Error> {
    for (name, number) in numbers {
        send_number(out, name, *number)?;
    }
    Ok(())
}
