//! The reason why a line cannot be read: its words are read again, each by the reader of its kind.

ghost use Rattle.std.specs.Prelude.{Option};
ghost use Rattle.hsms_machine.specs.Settings.{Parameters};
ghost use Rattle.hsms_machine.specs.declared.entry.Entry.{Entry as LogEntry};
ghost use Rattle.hsms_log.specs.LineFormat.{Carries, EncodesSettings};
ghost use Rattle.hsms_log.specs.Reasons.{IsWithin};

use crate::audit_state::SETTINGS_LIMIT;
use crate::number::number;
use crate::reading::{read_cause, read_system};
use crate::reasons::{Form, Reason, Unreadable};
use crate::settings_line::{read_link, read_role};
use hsms_machine::{
    GREATEST_DEPTH, GREATEST_DEVICE, GREATEST_MAX, GREATEST_TIME, LEAST_DEPTH, LEAST_MAX,
    LEAST_TIME,
};

// The minimum number of digits of a frame: those of its header.
const FEWEST_DIGITS: usize = 20;

/// Returns why a first line that encodes no settings cannot be read. The line is passed without its end.
pub fn unreadable_settings(line: &[u8]) -> Unreadable
    requires { (settings : Parameters) → EncodesSettings line.now settings → ⊥ }
    ensures { IsWithin line.now result }
{
    unreadable(line, check_settings(line), Form::Settings)
}

/// Returns why a line that is not the first cannot be read, if it has no valid content within the limit of `max`. The
/// line is passed without its end.
pub fn unreadable_entry(line: &[u8], max: u32) -> Unreadable
    requires { (carried : Option LogEntry) → Carries max line.now carried → ⊥ }
    ensures { IsWithin line.now result }
{
    let form = form_of(line);
    unreadable(line, check_entry(line, max, form), form)
}

// An error in a text: how many bytes the text has from there on, and the reason.
#[derive(Clone, Copy)]
struct Fault {
    left: usize,
    reason: Reason,
}

impl Fault {
    // Returns the error at the start of the rest of a text.
    fn at(rest: &[u8], reason: Reason) -> Fault {
        Fault {
            left: rest.len(),
            reason,
        }
    }

    // Returns the error of a word as an error of the text that begins with the word.
    fn before(self, after: &[u8]) -> Fault {
        Fault {
            left: self.left.saturating_add(after.len()),
            reason: self.reason,
        }
    }
}

fn unreadable(line: &[u8], found: Result<(), Fault>, form: Form) -> Unreadable
    ensures { IsWithin line.now result }
{
    let (left, reason) = match found {
        Err(fault) => (fault.left, fault.reason),
        Ok(()) => (line.len(), Reason::UnknownWord),
    };
    Unreadable {
        column: line.len().saturating_sub(left) + 1,
        reason,
        form,
    }
}

// A kind of word.
#[derive(Clone, Copy)]
enum Field {
    Name,
    Version,
    Role,
    Link,
    // A number, with its minimum and its maximum.
    Number(u64, u64),
    Event,
    Frame,
    System,
    Cause,
}

const TIME: Field = Field::Number(0, u64::MAX);

const TIMER: Field = Field::Number(LEAST_TIME as u64, GREATEST_TIME as u64);

// The words of the first line.
const SETTINGS: [Field; 11] = [
    Field::Name,
    Field::Version,
    Field::Role,
    Field::Link,
    Field::Number(0, GREATEST_DEVICE as u64),
    TIMER,
    TIMER,
    TIMER,
    TIMER,
    Field::Number(LEAST_MAX as u64, GREATEST_MAX as u64),
    Field::Number(LEAST_DEPTH as u64, GREATEST_DEPTH as u64),
];

fn check_settings(line: &[u8]) -> Result<(), Fault> {
    if let Some(reason) = other_file(line) {
        return Err(Fault::at(line, reason));
    }
    let (front, past) = line.split_at(line.len().min(SETTINGS_LIMIT));
    let (name, _) = split_word(front);
    if !name.is_empty() && Field::Name.check(name).is_err() {
        return Err(Fault::at(line, Reason::NoSettings));
    }
    if let Some(at) = front.iter().position(|octet| *octet == b'\r') {
        let (_, rest) = line.split_at(at);
        return Err(Fault::at(rest, Reason::CarriageReturn));
    }
    if !past.is_empty() {
        return Err(Fault::at(past, Reason::TooLong));
    }
    check_words(line, &SETTINGS)
}

fn check_entry(line: &[u8], max: u32, form: Form) -> Result<(), Fault> {
    let limit = 2 * max as usize + 64;
    if line.len() > limit {
        let (_, past) = line.split_at(limit);
        return Err(Fault::at(past, Reason::TooLong));
    }
    match form {
        Form::Settings | Form::Entry => check_words(line, &[TIME, Field::Event]),
        Form::Frame => check_words(line, &[TIME, Field::Event, Field::Frame]),
        Form::Expiry => check_words(line, &[TIME, Field::Event, Field::System]),
        Form::Cut => check_words(line, &[TIME, Field::Event, Field::Cause]),
    }
}

// Returns the form that a line should have, by its second word.
fn form_of(line: &[u8]) -> Form {
    let (_, after) = split_word(line);
    let [_, text @ ..] = after else {
        return Form::Entry;
    };
    let (word, _) = split_word(text);
    match word {
        b">" | b"<" | b"!" => Form::Frame,
        b"t3" => Form::Expiry,
        b"cut" => Form::Cut,
        _ => Form::Entry,
    }
}

// Returns which other kind of file begins like this line.
fn other_file(line: &[u8]) -> Option<Reason> {
    match line {
        [0xef, 0xbb, 0xbf, ..] => Some(Reason::ByteOrderMark),
        [0xff, 0xfe, ..] | [0xfe, 0xff, ..] | [b'h', 0, ..] | [0, b'h', ..] => Some(Reason::Utf16),
        [0x1f, 0x8b, ..] => Some(Reason::Gzip),
        [b'%', b'P', b'D', b'F', ..] => Some(Reason::Pdf),
        [0xd4, 0xc3, 0xb2, 0xa1, ..] | [0xa1, 0xb2, 0xc3, 0xd4, ..] => Some(Reason::Capture),
        [0x4d, 0x3c, 0xb2, 0xa1, ..] | [0xa1, 0xb2, 0x3c, 0x4d, ..] => Some(Reason::Capture),
        _ => None,
    }
}

// Checks a line that should have these words, each after one space.
fn check_words(line: &[u8], fields: &[Field]) -> Result<(), Fault> {
    let Some((last, others)) = fields.split_last() else {
        return Ok(());
    };
    let mut text = line;
    for field in others {
        let after = check_word(line, text, *field)?;
        text = next_word(after)?;
    }
    let after = check_word(line, text, *last)?;
    check_end(after)
}

// Checks the first word of the text, which is the rest of the line. Returns what follows the word.
fn check_word<'a>(line: &[u8], text: &'a [u8], field: Field) -> Result<&'a [u8], Fault> {
    let (word, after) = split_word(text);
    if word.is_empty() {
        return Err(missing_word(line, text));
    }
    match after {
        [b'\t', ..] => return Err(Fault::at(after, Reason::Tab)),
        [b'\r', ..] => return Err(Fault::at(after, Reason::CarriageReturn)),
        _ => {}
    }
    match field.check(word) {
        Ok(()) => Ok(after),
        Err(fault) => Err(fault.before(after)),
    }
}

// Returns the error for a text that should begin with a word and does not.
fn missing_word(line: &[u8], text: &[u8]) -> Fault {
    let is_first = text.len() == line.len();
    match text {
        [] if is_first => Fault::at(text, Reason::TooFewWords),
        [b'\t', ..] => Fault::at(text, Reason::Tab),
        [b'\r', ..] => Fault::at(text, Reason::CarriageReturn),
        _ if is_first => Fault::at(text, Reason::SpaceAtStart),
        _ if is_blank(text) => Fault::at(text, Reason::SpaceAtEnd).before(b" "),
        _ => Fault::at(text, Reason::TwoSpaces),
    }
}

// Returns the text after the space that follows a word.
fn next_word(after: &[u8]) -> Result<&[u8], Fault> {
    match after {
        [_, text @ ..] => Ok(text),
        [] => Err(Fault::at(after, Reason::TooFewWords)),
    }
}

// Checks that nothing follows the last word.
fn check_end(after: &[u8]) -> Result<(), Fault> {
    match after {
        [] => Ok(()),
        [_, text @ ..] if is_blank(text) => Err(Fault::at(after, Reason::SpaceAtEnd)),
        [_, text @ ..] if text.starts_with(b" ") => Err(Fault::at(text, Reason::TwoSpaces)),
        [_, text @ ..] => Err(Fault::at(text, Reason::TooManyWords)),
    }
}

fn is_blank(text: &[u8]) -> bool {
    text.iter().all(|octet| *octet == b' ')
}

// Returns the first word of a text, up to a space, a tab or a carriage return, and the rest of the text.
fn split_word(text: &[u8]) -> (&[u8], &[u8]) {
    let end = text
        .iter()
        .position(|octet| matches!(octet, b' ' | b'\t' | b'\r'));
    text.split_at(end.unwrap_or(text.len()))
}

impl Field {
    fn check(self, word: &[u8]) -> Result<(), Fault> {
        match self {
            Field::Name => check_known(word, word == b"hsms-log".as_slice()),
            Field::Version => check_version(word),
            Field::Role => check_known(word, read_role(word).is_some()),
            Field::Link => check_known(word, read_link(word).is_some()),
            Field::Number(least, greatest) => check_number(word, least, greatest),
            Field::Event => check_known(word, is_event(word)),
            Field::Frame => check_frame(word),
            Field::System => check_system(word),
            Field::Cause => check_known(word, read_cause(word).is_some()),
        }
    }
}

fn check_known(word: &[u8], is_known: bool) -> Result<(), Fault> {
    if is_known {
        Ok(())
    } else {
        Err(Fault::at(word, Reason::UnknownWord))
    }
}

fn is_event(word: &[u8]) -> bool {
    matches!(word, b"up" | b"down" | b">" | b"<" | b"!" | b"t3" | b"cut")
}

fn check_version(word: &[u8]) -> Result<(), Fault> {
    check_number(word, 0, u64::MAX)?;
    match number(word) {
        Some(1 | 2) => Ok(()),
        _ => Err(Fault::at(word, Reason::Version)),
    }
}

fn check_number(word: &[u8], least: u64, greatest: u64) -> Result<(), Fault> {
    if let Some(at) = word.iter().position(|octet| !octet.is_ascii_digit()) {
        let (_, rest) = word.split_at(at);
        return Err(Fault::at(rest, Reason::NoNumber));
    }
    match number(word) {
        Some(number) if least <= number && number <= greatest => Ok(()),
        None if word.len() > 1 && word.starts_with(b"0") => {
            Err(Fault::at(word, Reason::LeadingZero))
        }
        _ => Err(Fault::at(word, Reason::OutOfRange)),
    }
}

fn check_digits(word: &[u8]) -> Result<(), Fault> {
    match word.iter().position(|octet| !octet.is_ascii_hexdigit()) {
        Some(at) => {
            let (_, rest) = word.split_at(at);
            Err(Fault::at(rest, Reason::NoDigit))
        }
        None => Ok(()),
    }
}

fn check_frame(word: &[u8]) -> Result<(), Fault> {
    check_digits(word)?;
    if word.len() < FEWEST_DIGITS {
        return Err(Fault::at(&[], Reason::FewDigits));
    }
    if word.len() % 2 != 0 {
        return Err(Fault::at(&[], Reason::OddDigits));
    }
    Ok(())
}

fn check_system(word: &[u8]) -> Result<(), Fault> {
    check_digits(word)?;
    match read_system(word) {
        Some(_) => Ok(()),
        None => Err(Fault::at(&[], Reason::SystemDigits)),
    }
}
