//! Errors of reading a capture.

ghost use Rattle.std.specs.Prelude.{◌≡◌, Some};
ghost use Rattle.capture_pcap.specs.declared.fault.CaptureFault.TheVariants.{Memory};
ghost use Rattle.capture_pcap.specs.declared.fault.FileFault.TheVariants as stop;
ghost use Rattle.capture_pcap.specs.BlockReader.{of_ahead};
ghost use Rattle.capture_pcap.specs.Fault.{capture_fault_text, file_fault_text};

use hsms_frame::AheadFault;
use std::alloc::{AllocError, AllocFailed};
use std::error::Error;
use std::fmt;

/// Why bytes cannot be read as a capture. Each error is shown as its name.
#[derive(Clone, Copy, Debug, PartialEq, Eq)]
pub enum CaptureFault {
    /// The first bytes belong to no supported format.
    Unknown,
    /// The first bytes are those of a gzip file.
    Gzip,
    /// The first bytes are those of a zstd file.
    Zstd,
    /// A record or block claims more bytes than the maximum, or fewer than its own fields need. Or a block's length is
    /// not a multiple of the word size.
    Length,
    /// A block's second length differs from its first.
    Trailer,
    /// A section's byte order is neither of the two.
    Order,
    /// A packet names an interface that no block of its section describes.
    Interface,
    /// An interface's resolution is finer than 2^-63 or 10^-19 seconds.
    Resolution,
    /// An allocation failed.
    Memory,
}

impl fmt::Display for CaptureFault {
    ghost output = { λ fault. Some (capture_fault_text fault) };

    fn fmt<W: fmt::Write>(&self, f: &mut fmt::Formatter<W>) -> fmt::Result {
        match *self {
            CaptureFault::Unknown => write!(f, "Unknown"),
            CaptureFault::Gzip => write!(f, "Gzip"),
            CaptureFault::Zstd => write!(f, "Zstd"),
            CaptureFault::Length => write!(f, "Length"),
            CaptureFault::Trailer => write!(f, "Trailer"),
            CaptureFault::Order => write!(f, "Order"),
            CaptureFault::Interface => write!(f, "Interface"),
            CaptureFault::Resolution => write!(f, "Resolution"),
            CaptureFault::Memory => write!(f, "Memory"),
        }
    }
}

impl Error for CaptureFault {}

impl<T: Drop> From<AllocFailed<T>> for CaptureFault {
    ghost from_gives = { λ _ f. f ≡ Memory };

    fn from(_: AllocFailed<T>) -> CaptureFault {
        CaptureFault::Memory
    }
}

/// Why reading a capture file stopped. Each error is shown as its name, and the offset if it has one, as in
/// `Length octet=24`.
#[derive(Clone, Copy, Debug, PartialEq, Eq)]
pub enum FileFault {
    /// At this offset the file has no valid record or block, or the file is not a capture.
    Capture { place: u64, fault: CaptureFault },
    /// The file ends within a record or block, or within its header.
    CutOff,
    /// The read failed.
    Read,
    /// An allocation failed.
    Memory,
}

impl fmt::Display for FileFault {
    ghost output = { λ fault. Some (file_fault_text fault) };

    fn fmt<W: fmt::Write>(&self, f: &mut fmt::Formatter<W>) -> fmt::Result {
        match *self {
            FileFault::Capture { place, fault } => write!(f, "{fault} octet={place}"),
            FileFault::CutOff => write!(f, "CutOff"),
            FileFault::Read => write!(f, "Read"),
            FileFault::Memory => write!(f, "Memory"),
        }
    }
}

impl Error for FileFault {}

impl From<AllocError> for FileFault {
    ghost from_gives = { λ _ f. f ≡ stop.Memory };

    fn from(_: AllocError) -> FileFault {
        FileFault::Memory
    }
}

impl From<AheadFault> for FileFault {
    ghost from_gives = { λ fault f. f ≡ of_ahead fault };

    fn from(fault: AheadFault) -> FileFault {
        match fault {
            AheadFault::Read => FileFault::Read,
            AheadFault::Memory => FileFault::Memory,
        }
    }
}
