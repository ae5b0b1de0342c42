//! Explanations for people: what an error means, and what to do about it.

use crate::caret::placed;
use capture_errors::{CaptureError, Rejection, Shortfall};
use capture_pcap::FileFault;
use cli_filters::{AuditError, Cause, CommandError, EncodeError, Refusal};
use cli_options::{ToolFault, exit_status};
use cli_serve::ConnectError;
use cli_show::ShowError;
use hsms_frame::ReadFault;
use hsms_log::AuditFault;
use secs_text::TextFault;
use std::alloc::{AllocError, Global};
use std::fmt;
use std::io::{BufRead, ErrorKind};

/// The context of an error, in addition to its name.
#[derive(Drop)]
pub enum Known {
    /// No context.
    Nothing,
    /// A message: what is wrong with the command line, or why there is no connection.
    Said(String),
    /// The input starts like a file of packets, and should not be one.
    Packets,
    /// The input, which should be notation.
    Notation(Vec<u8>),
}

/// Why the command ends before its work is done.
#[derive(Debug, Drop)]
pub enum Fault {
    /// A part between input and output stopped.
    Command(CommandError),
    /// The command line is invalid, or another part stopped.
    Tool(ToolFault),
}

impl fmt::Display for Fault {
    fn fmt<W: fmt::Write>(&self, f: &mut fmt::Formatter<W>) -> fmt::Result {
        match self {
            Fault::Command(error) => write!(f, "{error}"),
            Fault::Tool(fault) => write!(f, "{fault}"),
        }
    }
}

impl Fault {
    // Returns what kind of error it is, as for a part between input and output.
    fn cause(&self) -> Cause {
        match self {
            Fault::Command(error) => error.cause(),
            Fault::Tool(ToolFault::Refused(_)) => Cause::Refused,
            Fault::Tool(ToolFault::Device(word)) => device_cause(word),
            Fault::Tool(ToolFault::Memory) => Cause::Memory,
        }
    }
}

fn device_cause(word: &str) -> Cause {
    match word {
        "Read" => Cause::Read,
        "Endless" => Cause::Endless,
        _ => Cause::Write,
    }
}

/// Why the command ends before its work is done, with the context.
#[derive(Drop)]
pub struct Failure {
    pub fault: Fault,
    pub known: Known,
    /// The name of the file with the input, if the error is of the input, and the command line names the file.
    pub file: Option<String>,
}

impl fmt::Display for Failure {
    fn fmt<W: fmt::Write>(&self, f: &mut fmt::Formatter<W>) -> fmt::Result {
        match &self.file {
            Some(file) => write!(f, "{} file={file}", self.fault),
            None => write!(f, "{}", self.fault),
        }
    }
}

impl Failure {
    /// Creates a failure from an error and its context.
    pub fn new(fault: ToolFault, known: Known) -> Failure {
        Failure {
            fault: Fault::Tool(fault),
            known,
            file: None,
        }
    }

    /// Creates a failure from an error of a part between input and output, and its context.
    pub fn of_command(error: CommandError, known: Known) -> Failure {
        Failure {
            fault: Fault::Command(error),
            known,
            file: None,
        }
    }

    /// Creates a failure from an error and its message. Without a message if its allocation failed.
    pub fn said(fault: ToolFault, words: Result<String, AllocError>) -> Failure {
        Failure::new(fault, words.map_or(Known::Nothing, Known::Said))
    }

    /// Adds the name of the file with the input, if the error is of the input. The name `-` is standard input. If the
    /// name cannot be allocated, the error is `Memory`.
    pub fn of_file(self, alloc: Global, name: &str) -> Failure {
        if name == "-" || !self.is_of_input() {
            return self;
        }
        let Failure {
            fault,
            known,
            file: _,
        } = self;
        match String::from_str(alloc, name) {
            Ok(file) => Failure {
                fault,
                known,
                file: Some(file),
            },
            Err(_) => Failure::from(ToolFault::Memory),
        }
    }

    // Returns true if the input is invalid or too large, or a read failed.
    fn is_of_input(&self) -> bool {
        match self.fault.cause() {
            Cause::Refused | Cause::Read | Cause::Endless => true,
            Cause::Write | Cause::Memory => false,
        }
    }

    // Returns true if a file that the command line names could not be read.
    fn is_unread_file(&self) -> bool {
        self.file.is_some() && self.fault.cause() == Cause::Read
    }

    /// Returns true if an allocation failed.
    pub fn is_memory(&self) -> bool {
        self.fault.cause() == Cause::Memory
    }

    /// Returns the status with which the command ends.
    pub fn status(self) -> u8 {
        let Failure {
            fault,
            known: _,
            file: _,
        } = self;
        match fault {
            Fault::Command(error) => error.status(),
            Fault::Tool(fault) => exit_status(&Err(fault)),
        }
    }
}

impl From<ToolFault> for Failure {
    fn from(fault: ToolFault) -> Failure {
        Failure::new(fault, Known::Nothing)
    }
}

impl From<EncodeError> for Failure {
    fn from(error: EncodeError) -> Failure {
        Failure::of_command(CommandError::Encode(error), Known::Nothing)
    }
}

impl From<AuditError> for Failure {
    fn from(error: AuditError) -> Failure {
        Failure::of_command(CommandError::Audit(error), Known::Nothing)
    }
}

impl From<CaptureError> for Failure {
    fn from(error: CaptureError) -> Failure {
        Failure::of_command(CommandError::Capture(error), Known::Nothing)
    }
}

impl From<AllocError> for Failure {
    fn from(_: AllocError) -> Failure {
        Failure::from(ToolFault::Memory)
    }
}

// The first bytes of a packet capture file: pcap in either byte order, with micro- and nanoseconds, and pcapng.
const CAPTURES: [[u8; 4]; 5] = [
    [0xd4, 0xc3, 0xb2, 0xa1],
    [0xa1, 0xb2, 0xc3, 0xd4],
    [0x4d, 0x3c, 0xb2, 0xa1],
    [0xa1, 0xb2, 0x3c, 0x4d],
    [0x0a, 0x0d, 0x0d, 0x0a],
];

/// Returns the explanation of an error: what happened, and what to do. It may have several lines. For a notation it
/// starts with the position, if the error has one: the line and the column. The line itself follows, with a mark below
/// the position.
pub fn words_for(alloc: Global, failure: &Failure) -> Result<String, AllocError> {
    let advice = advice(&failure.fault);
    let said = match &failure.known {
        Known::Said(words) => words.as_str(),
        Known::Notation(input) => match position(&failure.fault) {
            Some(at) => return placed(alloc, input, at, advice),
            None => advice,
        },
        Known::Packets => { "this is a packet capture: use hsms capture (docs/CAPTURES.md)" }
        Known::Nothing if failure.is_unread_file() => READ_FILE,
        Known::Nothing => advice,
    };
    String::from_str(alloc, said)
}

/// Returns true if this input, of which nothing was read yet, starts like a file of packets.
pub fn begins_as_capture<R: BufRead>(input: &mut R) -> bool {
    input.fill_buf().is_ok_and(|octets| CAPTURES.iter().any(|mark| octets.starts_with(mark)))
}

/// Returns why there is no connection.
pub fn link_words(
    alloc: Global,
    address: &str,
    port: u16,
    error: ConnectError,
) -> Result<String, AllocError> {
    let kind = match error {
        ConnectError::System(kind) => kind,
        ConnectError::NoDescriptor => {
            return String::from_str(
                alloc,
                "no file descriptor is left: close some, or raise the limit (ulimit -n)",
            );
        }
    };
    match kind {
        ErrorKind::ConnectionRefused => format!(in alloc;
            "connection refused by {address}:{port}: nothing listens there. Start the other end first, or check --address and --port"
        ),
        ErrorKind::AddrInUse => format!(in alloc;
            "port {port} is in use: stop the program that uses it, or choose another --port"
        ),
        ErrorKind::Uncategorized | ErrorKind::InvalidInput => format!(in alloc;
            "unknown host: {address}. --address takes an IP address or a resolvable host name"
        ),
        ErrorKind::AddrNotAvailable => format!(in alloc;
            "{address} is not an address of this machine: a passive end cannot listen there. Check --address"
        ),
        ErrorKind::PermissionDenied => format!(in alloc;
            "no permission to use port {port}: choose a port from 1024 up"
        ),
        ErrorKind::TimedOut | ErrorKind::HostUnreachable | ErrorKind::NetworkUnreachable =>
            format!(in alloc;
                "no answer from {address}:{port}: check --address, the network and firewalls"
            ),
        _ => format!(in alloc; "no connection to {address}:{port}: check --address and --port"),
    }
}

/// Returns why a file cannot be opened.
pub fn open_words(alloc: Global, kind: ErrorKind) -> Result<String, AllocError> {
    let words = match kind {
        ErrorKind::NotFound => "no such file: check its name",
        ErrorKind::PermissionDenied => "no permission to read this file",
        ErrorKind::IsADirectory => "this is a directory: name the files in it",
        _ => OPEN,
    };
    String::from_str(alloc, words)
}

// Returns the position of an error in a notation.
fn position(fault: &Fault) -> Option<usize> {
    match fault {
        Fault::Command(CommandError::Encode(EncodeError::Text(fault))) => match *fault {
            TextFault::Syntax { at } | TextFault::Number { at } => Some(at),
            TextFault::Count { at } | TextFault::Deep { at } => Some(at),
            TextFault::Memory => None,
        },
        _ => None,
    }
}

// Returns what an error means, and what to do.
fn advice(fault: &Fault) -> &'static str {
    match fault {
        Fault::Command(CommandError::Help) => WRITE,
        Fault::Command(CommandError::Show(error)) => show_advice(*error),
        Fault::Command(CommandError::Encode(error)) => encode_advice(*error),
        Fault::Command(CommandError::Audit(error)) => audit_advice(*error),
        Fault::Command(CommandError::Capture(error)) => capture_advice(*error),
        Fault::Tool(ToolFault::Refused(words)) => refused_advice(words.as_str()),
        Fault::Tool(ToolFault::Device(word)) => device_advice(word),
        Fault::Tool(ToolFault::Memory) => MEMORY,
    }
}

const TOO_LONG: &str =
    "a message is longer than --max: raise --max, or check that the input is HSMS data";

const ENDLESS: &str = "the input exceeds the program's counters: split it";

const READ: &str = "cannot read standard input: is it open, and not a directory?";

const READ_FILE: &str = "cannot read this file: is its disk or share well?";

const WRITE: &str = "cannot write standard output: is the disk full, or the pipe closed?";

const MEMORY: &str = "out of memory: provide more, or split the input";

fn show_advice(error: ShowError) -> &'static str {
    match error {
        ShowError::Read(ReadFault::TooShort { .. }) => {
            "a message length is below 10: this is not HSMS data, or bytes are missing before it"
        }
        ShowError::Read(ReadFault::TooLong { .. }) => TOO_LONG,
        ShowError::Read(ReadFault::CutOff) => "the input ends inside a message",
        ShowError::Read(ReadFault::Memory) => MEMORY,
        ShowError::Read(ReadFault::Read) => READ,
        ShowError::NoHex { .. } => {
            "this line is not hexadecimal; without --hex the input is read as bytes"
        }
        ShowError::NoMessage { .. } => {
            "this line is not exactly one message within --max; lines of a log have no length bytes: add --bare"
        }
        ShowError::Write => WRITE,
        ShowError::Endless => ENDLESS,
    }
}

fn encode_advice(error: EncodeError) -> &'static str {
    match error {
        EncodeError::Input => "the input is longer than 67108864 bytes: split it",
        EncodeError::Text(fault) => text_advice(fault),
        EncodeError::Frame(Refusal::TooLarge) => {
            "a value or list has more than 16777215 bytes or elements"
        }
        EncodeError::Frame(Refusal::TooLong(_)) => TOO_LONG,
        EncodeError::Read => READ,
        EncodeError::Write => WRITE,
    }
}

fn text_advice(fault: TextFault) -> &'static str {
    match fault {
        TextFault::Syntax { .. } => {
            "unexpected token; a message is S1F1 W <A \"text\"> . and ends with a full stop"
        }
        TextFault::Number { .. } => "not a value of this type, or out of range",
        TextFault::Count { .. } => "the number in brackets does not match the number of values",
        TextFault::Deep { .. } => {
            "lists are nested deeper than --depth: raise --depth, or nest fewer lists"
        }
        TextFault::Memory => MEMORY,
    }
}

fn audit_advice(error: AuditError) -> &'static str {
    match error {
        AuditError::Log(AuditFault::Read) => READ,
        AuditError::Log(AuditFault::Endless) => ENDLESS,
        AuditError::Log(AuditFault::Memory) => MEMORY,
        AuditError::Write => WRITE,
    }
}

fn device_advice(word: &str) -> &'static str {
    match word {
        "Endless" => ENDLESS,
        "Read" => READ,
        "Write" => WRITE,
        "Log" =>
            "cannot write the log: is standard output open, the disk full, or the pipe closed?",
        "Link" => {
            "the connection failed: the peer reset it, or accepted no data for T8. The log shows how far it got"
        }
        "PortFile" => {
            "cannot write the port to the file of --port-file: check its name and its permissions"
        }
        "Turns" => "the turn limit was reached while the connection was up: raise --turns",
        _ => NO_ADVICE,
    }
}

const OPEN: &str = "this file cannot be opened: check its name and its permissions";

const NO_ADVICE: &str = "see docs/CLI.md";

// Returns what the first word of the text of an error of the command line or of a file means, and what to do.
fn refused_advice(words: &str) -> &'static str {
    let (word, _) = words.split_once(' ').unwrap_or((words, ""));
    match word {
        "command" => "run hsms --help, or hsms COMMAND --help",
        "Open" => OPEN,
        word => compare_advice(word),
    }
}

fn compare_advice(word: &str) -> &'static str {
    match word {
        "FirstLine" => "line 1 of this log has no settings: is it a session log?",
        "SameRole" => "both logs are of a host, or both of equipment: name one of each",
        "SameLink" => "both logs are of the active end, or both of the passive one",
        "Device" => "the logs have different device IDs",
        "Undecided" => "both logs pass, and do not show whether they agree (docs/COMPARE.md)",
        _ => NO_ADVICE,
    }
}

fn capture_advice(error: CaptureError) -> &'static str {
    match error {
        CaptureError::Refused(rejection) => rejection_advice(rejection),
        CaptureError::Read => READ,
        CaptureError::Write => WRITE,
        CaptureError::Endless => ENDLESS,
        CaptureError::Memory => MEMORY,
    }
}

fn rejection_advice(rejection: Rejection) -> &'static str {
    match rejection {
        Rejection::Incomplete(shortfall) => shortfall_advice(shortfall),
        Rejection::Overlap { .. } => {
            "a connection starts while another is up, and a log holds one at a time: leave out --log to audit each"
        }
        Rejection::Peer { .. } => {
            "this connection has other addresses, and a log holds one pair of addresses: choose one with --peer"
        }
        Rejection::NoConnection => {
            "no connection came up at --port: check the port; if the capture starts inside a session, add --midstream"
        }
        Rejection::NotJudged => {
            "the last line of the output names HSMS data that was not audited: add --midstream, its --device or its --port"
        }
    }
}

fn shortfall_advice(shortfall: Shortfall) -> &'static str {
    match shortfall {
        Shortfall::Lost(_) => {
            "this packet shows that the capture lost data: capture at the end itself, whole packets (-s 0), without drops"
        }
        Shortfall::Length(_) => {
            "a message is shorter than 10 bytes or longer than --max: is this the HSMS port? If so, raise --max"
        }
        Shortfall::Differs(_) => {
            "a retransmission carries other data than the original: capture closer to the end, where one device sends it"
        }
        Shortfall::Full(_) => {
            "too much data waits for missing packets: capture at the end itself, whole packets, without drops"
        }
        Shortfall::Time(_) => {
            "this packet has no usable time stamp: capture with time stamps, or remove the packet"
        }
        Shortfall::File(fault, _) => file_advice(fault),
    }
}

fn file_advice(fault: FileFault) -> &'static str {
    match fault {
        FileFault::Capture { .. } => {
            "not a valid pcap or pcapng file here: use an uncompressed file from tcpdump, tshark or Wireshark"
        }
        FileFault::CutOff => {
            "the file is empty or ends inside a packet: stop the capturing program first, or check what truncated it"
        }
        FileFault::Read => READ,
        FileFault::Memory => MEMORY,
    }
}
