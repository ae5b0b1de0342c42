//! Why a line cannot be read.

use std::fmt;

/// Why a line of a log cannot be read: the first byte that cannot be there, why, and what was expected.
#[derive(Clone, Copy, Debug, PartialEq, Eq)]
pub struct Unreadable {
    /// The column of that byte, from 1, in bytes: one past the last byte if something is missing there.
    pub column: usize,
    /// Why it cannot be there.
    pub reason: Reason,
    /// The form that the line should have.
    pub form: Form,
}

impl Unreadable {
    /// Returns why a log without a line fails at line 1.
    pub fn of_empty_log() -> Unreadable {
        Unreadable {
            column: 1,
            reason: Reason::Empty,
            form: Form::Settings,
        }
    }
}

/// Why a line cannot be read.
#[derive(Clone, Copy, Debug, PartialEq, Eq)]
pub enum Reason {
    /// The log has no line.
    Empty,
    /// The first line begins with the byte order mark of UTF-8.
    ByteOrderMark,
    /// The file is text in UTF-16.
    Utf16,
    /// The file is a packet capture, pcap or pcapng.
    Capture,
    /// The file is compressed by gzip.
    Gzip,
    /// The file is a PDF document.
    Pdf,
    /// The first line does not begin with `hsms-log`.
    NoSettings,
    /// The line is longer than its limit.
    TooLong,
    /// A tab.
    Tab,
    /// A carriage return that does not end the line.
    CarriageReturn,
    /// A space before the first word.
    SpaceAtStart,
    /// A space after the last word.
    SpaceAtEnd,
    /// A second space between words.
    TwoSpaces,
    /// The line ends where a word is missing.
    TooFewWords,
    /// A word after the last one of the form.
    TooManyWords,
    /// A byte of a number that is not a decimal digit.
    NoNumber,
    /// A number with a zero before other digits.
    LeadingZero,
    /// A number out of its range.
    OutOfRange,
    /// A version that does not exist.
    Version,
    /// A byte of hexadecimal digits that is not a digit.
    NoDigit,
    /// Fewer than 20 hexadecimal digits.
    FewDigits,
    /// An odd number of hexadecimal digits.
    OddDigits,
    /// System bytes of fewer or more than 8 digits.
    SystemDigits,
    /// A word that is not one of the allowed words.
    UnknownWord,
}

impl Reason {
    /// Returns the text of the reason.
    pub fn words(self) -> &'static str {
        match self {
            Reason::Empty => "the log is empty",
            Reason::ByteOrderMark => "a byte order mark",
            Reason::Utf16 => "text in UTF-16",
            Reason::Capture => "a packet capture, which hsms capture reads",
            Reason::Gzip => "a file compressed by gzip",
            Reason::Pdf => "a PDF document",
            Reason::NoSettings => "no line of settings",
            Reason::TooLong => "longer than its limit",
            Reason::Tab => "a tab",
            Reason::CarriageReturn => "a carriage return within the line",
            Reason::SpaceAtStart => "a space at the start",
            Reason::SpaceAtEnd => "a space at the end",
            Reason::TwoSpaces => "two spaces",
            Reason::TooFewWords => "too few words",
            Reason::TooManyWords => "too many words",
            Reason::NoNumber => "no decimal number",
            Reason::LeadingZero => "a number with a leading zero",
            Reason::OutOfRange => "a number out of its range",
            Reason::Version => "a version other than 1 and 2",
            Reason::NoDigit => "no hexadecimal digit",
            Reason::FewDigits => "fewer than 20 hexadecimal digits",
            Reason::OddDigits => "an odd number of hexadecimal digits",
            Reason::SystemDigits => "not eight hexadecimal digits",
            Reason::UnknownWord => "an unknown word",
        }
    }
}

/// The form that a line should have.
#[derive(Clone, Copy, Debug, PartialEq, Eq)]
pub enum Form {
    /// The first line, with the settings.
    Settings,
    /// A line with any entry.
    Entry,
    /// A line with a frame.
    Frame,
    /// A line with the expiry of T3.
    Expiry,
    /// A line with a cut.
    Cut,
}

impl Form {
    /// Returns the text of the form.
    pub fn words(self) -> &'static str {
        match self {
            Form::Settings => "hsms-log VERSION ROLE LINK DEVICE T3 T6 T7 T8 MAX DEPTH",
            Form::Entry =>
                "TIME up, TIME > HEX, TIME < HEX, TIME ! HEX, TIME t3 SYSTEM, TIME cut CAUSE or TIME down",
            Form::Frame => "TIME > HEX, TIME < HEX or TIME ! HEX",
            Form::Expiry => "TIME t3 SYSTEM",
            Form::Cut => "TIME cut t6, TIME cut t7, TIME cut t8 or TIME cut length",
        }
    }
}

impl fmt::Display for Reason {
    fn fmt<W: fmt::Write>(&self, f: &mut fmt::Formatter<W>) -> fmt::Result {
        f.write_str(self.words())
    }
}

impl fmt::Display for Form {
    fn fmt<W: fmt::Write>(&self, f: &mut fmt::Formatter<W>) -> fmt::Result {
        f.write_str(self.words())
    }
}

impl fmt::Display for Unreadable {
    fn fmt<W: fmt::Write>(&self, f: &mut fmt::Formatter<W>) -> fmt::Result {
        let Unreadable {
            column,
            reason,
            form,
        } = *self;
        write!(f, "column {column}: {reason}; expected {form}")
    }
}
