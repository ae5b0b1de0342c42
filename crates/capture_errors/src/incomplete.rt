//! Why what a connection shows is incomplete.

ghost use Rattle.std.specs.Prelude.{◌≡◌, Some};
ghost use Rattle.capture_errors.specs.Errors.{packet_of, shortfall_text};

use capture_pcap::FileFault;
use std::fmt;

/// Why what connections show is incomplete, with the number of a packet: of a capture loss the packet that shows it,
/// otherwise the first packet from which on nothing is audited. Each is shown as its name and this number, as in
/// `Lost packet=9`, and an error of the file as that error.
#[derive(Clone, Copy, Debug, PartialEq, Eq)]
pub enum Shortfall {
    /// The capture lost something.
    Lost(u64),
    /// A packet carries other bytes than an earlier one.
    Differs(u64),
    /// A message has fewer than ten bytes, or more than an end accepts.
    Length(u64),
    /// More bytes wait than are buffered.
    Full(u64),
    /// A packet has no time in milliseconds since 1970.
    Time(u64),
    /// The file cannot be read further.
    File(FileFault, u64),
}

impl Shortfall {
    /// Returns the number of the packet.
    pub fn packet(self) -> u64
        ensures { result ≡ packet_of self }
    {
        match self {
            Shortfall::Lost(packet)
            | Shortfall::Differs(packet)
            | Shortfall::Length(packet)
            | Shortfall::Full(packet)
            | Shortfall::Time(packet)
            | Shortfall::File(_, packet) => packet,
        }
    }
}

impl fmt::Display for Shortfall {
    ghost output = { λ shortfall. Some (shortfall_text shortfall) };

    fn fmt<W: fmt::Write>(&self, f: &mut fmt::Formatter<W>) -> fmt::Result {
        match *self {
            Shortfall::Lost(packet) => write!(f, "Lost packet={packet}"),
            Shortfall::Differs(packet) => write!(f, "Differs packet={packet}"),
            Shortfall::Length(packet) => write!(f, "Length packet={packet}"),
            Shortfall::Full(packet) => write!(f, "Full packet={packet}"),
            Shortfall::Time(packet) => write!(f, "Time packet={packet}"),
            Shortfall::File(fault, _) => match fault {
                FileFault::Capture { .. } => write!(f, "Capture {fault}"),
                FileFault::CutOff | FileFault::Read | FileFault::Memory => write!(f, "{fault}"),
            },
        }
    }
}
