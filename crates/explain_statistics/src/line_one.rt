//! What the entries of a log show about the settings in its first line.

use explain_lines::Function;
use hsms_frame::{Header, Kind, kind};
use hsms_log::What;
use hsms_machine::{GREATEST_DEVICE, Mark, Role, Settings, Side};
use std::fmt;

// The stream of the messages by which equipment reports errors.
const ERRORS: u8 = 9;

// A message: its line, and its stream and function.
#[derive(Clone, Copy)]
struct Seen {
    line: u64,
    function: Function,
}

/// What the entries so far show: the number of connections; the number of data messages that were sent or accepted, the
/// session ID of the first, and whether all have it; and the first Select.req and the first primary of stream 9 of each
/// direction.
#[derive(Clone, Copy)]
pub struct LogFacts {
    connections: u64,
    data: u64,
    session: u16,
    is_one_session: bool,
    select_sent: Option<u64>,
    select_received: Option<u64>,
    error_sent: Option<Seen>,
    error_received: Option<Seen>,
}

/// A setting in the first line that no entry of the log agrees with.
#[derive(Clone, Copy)]
pub enum Doubt {
    /// All data messages have another session ID.
    Device {
        count: u64,
        session: u16,
        device: u16,
    },
    /// The log has several connections, and its version allows one.
    Version(u64),
    /// The Select.req at the line, and each other one, has the wrong direction.
    Link {
        line: u64,
        side: Side,
    },
    /// The primary of stream 9 at the line, and each other one, has the wrong direction.
    Role {
        line: u64,
        function: Function,
        role: Role,
    },
}

impl LogFacts {
    /// Creates the facts of a log without entries.
    pub fn new() -> LogFacts {
        LogFacts {
            connections: 0,
            data: 0,
            session: 0,
            is_one_session: true,
            select_sent: None,
            select_received: None,
            error_sent: None,
            error_received: None,
        }
    }

    /// Records the entry of a line.
    pub fn note(&mut self, line: u64, what: What) {
        match what {
            What::Up => self.connections = self.connections.saturating_add(1),
            What::Frame(mark, header) => self.note_frame(line, mark, header),
            What::T3(_) | What::Cut(_) | What::Down => {}
        }
    }

    // Records a frame that was sent or accepted.
    fn note_frame(&mut self, line: u64, mark: Mark, header: Header) {
        if mark == Mark::Discarded {
            return;
        }
        match kind(header) {
            Kind::Primary => {
                self.note_data(header);
                self.note_primary(line, mark, header);
            }
            Kind::Reply => self.note_data(header),
            Kind::SelectReq => self.note_select(line, mark),
            _ => {}
        }
    }

    fn note_data(&mut self, header: Header) {
        if self.data == 0 {
            self.session = header.session;
        }
        self.is_one_session = self.is_one_session && self.session == header.session;
        self.data = self.data.saturating_add(1);
    }

    fn note_primary(&mut self, line: u64, mark: Mark, header: Header) {
        if header.stream() != ERRORS {
            return;
        }
        let function = Function::of(header);
        let seen = Seen { line, function };
        if mark == Mark::Sent {
            self.error_sent = Some(self.error_sent.unwrap_or(seen));
        } else {
            self.error_received = Some(self.error_received.unwrap_or(seen));
        }
    }

    fn note_select(&mut self, line: u64, mark: Mark) {
        if mark == Mark::Sent {
            self.select_sent = Some(self.select_sent.unwrap_or(line));
        } else {
            self.select_received = Some(self.select_received.unwrap_or(line));
        }
    }

    /// Returns the settings that no entry agrees with.
    pub fn contradicted(&self, settings: Settings) -> [Option<Doubt>; 4] {
        [
            self.device_doubt(settings),
            self.version_doubt(settings),
            self.link_doubt(settings),
            self.role_doubt(settings),
        ]
    }

    fn device_doubt(&self, settings: Settings) -> Option<Doubt> {
        let is_other = self.is_one_session && self.session != settings.device();
        (self.data > 1 && is_other).then_some(Doubt::Device {
            count: self.data,
            session: self.session,
            device: settings.device(),
        })
    }

    fn version_doubt(&self, settings: Settings) -> Option<Doubt> {
        let is_exceeded = settings.version() == 1 && self.connections > 1;
        is_exceeded.then_some(Doubt::Version(self.connections))
    }

    fn link_doubt(&self, settings: Settings) -> Option<Doubt> {
        let side = settings.link();
        let (right, wrong) = match side {
            Side::Active => (self.select_sent, self.select_received),
            Side::Passive => (self.select_received, self.select_sent),
        };
        if right.is_some() {
            return None;
        }
        wrong.map(|line| Doubt::Link { line, side })
    }

    fn role_doubt(&self, settings: Settings) -> Option<Doubt> {
        let role = settings.role();
        let (right, wrong) = match role {
            Role::Equipment => (self.error_sent, self.error_received),
            Role::Host => (self.error_received, self.error_sent),
        };
        if right.is_some() {
            return None;
        }
        wrong.map(|seen| Doubt::Role {
            line: seen.line,
            function: seen.function,
            role,
        })
    }
}

impl fmt::Display for Doubt {
    fn fmt<W: fmt::Write>(&self, f: &mut fmt::Formatter<W>) -> fmt::Result {
        match *self {
            Doubt::Device {
                count,
                session,
                device,
            } => write_device(f, count, session, device),
            Doubt::Version(connections) => write_version(f, connections),
            Doubt::Link { line, side } => write_link(f, line, side),
            Doubt::Role {
                line,
                function,
                role,
            } => write_role(f, line, function, role),
        }
    }
}

fn write_device<W: fmt::Write>(
    f: &mut fmt::Formatter<W>,
    count: u64,
    session: u16,
    device: u16,
) -> fmt::Result {
    write!(
        f,
        "all {count} data messages have session {session:04x}; line 1 says {device}"
    )?;
    if session <= GREATEST_DEVICE {
        write!(f, ": is the device {session}?")?;
    }
    Ok(())
}

fn write_version<W: fmt::Write>(f: &mut fmt::Formatter<W>, connections: u64) -> fmt::Result {
    write!(
        f,
        "line 1 is of version 1, and the log has {connections} connections: version 2 allows them"
    )
}

fn write_link<W: fmt::Write>(f: &mut fmt::Formatter<W>, line: u64, side: Side) -> fmt::Result {
    match side {
        Side::Active => write!(
            f,
            "Select.req is received at line {line} and line 1 says active"
        ),
        Side::Passive => write!(
            f,
            "Select.req is sent at line {line} and line 1 says passive"
        ),
    }
}

fn write_role<W: fmt::Write>(
    f: &mut fmt::Formatter<W>,
    line: u64,
    function: Function,
    role: Role,
) -> fmt::Result {
    match role {
        Role::Host => write!(f, "{function} is sent at line {line} and line 1 says host"),
        Role::Equipment => write!(
            f,
            "{function} is received at line {line} and line 1 says equipment"
        ),
    }
}
