//! Why a capture is rejected.

ghost use Rattle.std.specs.Prelude.{Some};
ghost use Rattle.capture_errors.specs.Errors.{rejection_text};

use crate::incomplete::Shortfall;
use std::fmt;

/// Why a capture is rejected. Each is shown as its name, and the number of a packet if it has one, as in
/// `Overlap packet=12`.
#[derive(Clone, Copy, Debug, PartialEq, Eq)]
pub enum Rejection {
    /// This was missing first, and no log fails.
    Incomplete(Shortfall),
    /// With this packet a connection comes up while another is up, and the log of an end has one at a time.
    Overlap { packet: u64 },
    /// With this packet a connection of other addresses comes up, and the log of an end has one pair of addresses.
    Peer { packet: u64 },
    /// No connection came up.
    NoConnection,
    /// Each log passes, but HSMS data was not audited that no option excludes.
    NotJudged,
}

impl fmt::Display for Rejection {
    ghost output = { λ rejection. Some (rejection_text rejection) };

    fn fmt<W: fmt::Write>(&self, f: &mut fmt::Formatter<W>) -> fmt::Result {
        match *self {
            Rejection::Incomplete(shortfall) => write!(f, "{shortfall}"),
            Rejection::Overlap { packet } => write!(f, "Overlap packet={packet}"),
            Rejection::Peer { packet } => write!(f, "Peer packet={packet}"),
            Rejection::NoConnection => write!(f, "NoConnection"),
            Rejection::NotJudged => write!(f, "NotJudged"),
        }
    }
}
