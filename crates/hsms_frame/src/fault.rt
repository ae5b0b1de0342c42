//! Errors in the bytes of a message, and errors of reads and writes.

ghost use Rattle.std.specs.Prelude.{◌≡◌, Some};
ghost use Rattle.hsms_frame.specs.Fault.{ahead_fault_text, frame_fault_text, read_fault_text, write_fault_text};
ghost use Rattle.hsms_frame.specs.declared.fault.AheadFault.TheVariants as ahead;
ghost use Rattle.hsms_frame.specs.declared.fault.FrameFault.TheVariants as frame;
ghost use Rattle.hsms_frame.specs.declared.fault.ReadFault.TheVariants.{Memory, Read};
ghost use Rattle.hsms_frame.specs.declared.fault.WriteFault.TheVariants.{Write};

use crate::header::Header;
use crate::io::Failed;
use std::alloc::AllocError;
use std::error::Error;
use std::fmt;

/// Why bytes are not a frame. Each error is shown as its name and its length, if it has one, as in `TooShort length=9`.
#[derive(Clone, Copy, Debug, PartialEq, Eq)]
pub enum FrameFault {
    /// The length field, in bytes, is too small for a header.
    TooShort { length: u64 },
    /// The length field, in bytes of header and text, exceeds the limit.
    TooLong { length: u64, header: Header },
    /// An allocation failed, for the text or for bytes that are pushed or written.
    Memory,
}

impl fmt::Display for FrameFault {
    ghost output = { λ fault. Some (frame_fault_text fault) };

    fn fmt<W: fmt::Write>(&self, f: &mut fmt::Formatter<W>) -> fmt::Result {
        match *self {
            FrameFault::TooShort { length } => write!(f, "TooShort length={length}"),
            FrameFault::TooLong { length, .. } => write!(f, "TooLong length={length}"),
            FrameFault::Memory => write!(f, "Memory"),
        }
    }
}

impl Error for FrameFault {}

impl From<AllocError> for FrameFault {
    ghost from_gives = { λ _ e. e ≡ frame.Memory };

    fn from(_: AllocError) -> FrameFault {
        FrameFault::Memory
    }
}

/// Why no frame was read. Each error is shown as its name and its length, if it has one, as in `TooLong length=257`.
#[derive(Clone, Copy, Debug, PartialEq, Eq)]
pub enum ReadFault {
    /// The length field, in bytes, is too small for a header.
    TooShort { length: u64 },
    /// The length field, in bytes of header and text, exceeds the limit.
    TooLong { length: u64, header: Header },
    /// The allocation for the text failed.
    Memory,
    /// The input ends within a message.
    CutOff,
    /// A read failed.
    Read,
}

impl fmt::Display for ReadFault {
    ghost output = { λ fault. Some (read_fault_text fault) };

    fn fmt<W: fmt::Write>(&self, f: &mut fmt::Formatter<W>) -> fmt::Result {
        match *self {
            ReadFault::TooShort { length } => write!(f, "TooShort length={length}"),
            ReadFault::TooLong { length, .. } => write!(f, "TooLong length={length}"),
            ReadFault::Memory => write!(f, "Memory"),
            ReadFault::CutOff => write!(f, "CutOff"),
            ReadFault::Read => write!(f, "Read"),
        }
    }
}

impl Error for ReadFault {}

/// Why no frame was written. Each error is shown as its name and its length, if it has one, as in `TooLong
/// length=4294967296`.
#[derive(Clone, Copy, Debug, PartialEq, Eq)]
pub enum WriteFault {
    /// Header and text have more bytes than a length field can hold. Nothing was written.
    TooLong { length: u64, header: Header },
    /// A write failed. A prefix of the bytes may have been written.
    Write,
}

impl fmt::Display for WriteFault {
    ghost output = { λ fault. Some (write_fault_text fault) };

    fn fmt<W: fmt::Write>(&self, f: &mut fmt::Formatter<W>) -> fmt::Result {
        match *self {
            WriteFault::TooLong { length, .. } => write!(f, "TooLong length={length}"),
            WriteFault::Write => write!(f, "Write"),
        }
    }
}

impl Error for WriteFault {}

impl From<Failed> for WriteFault {
    ghost from_gives = { λ _ e. e ≡ Write };

    fn from(_: Failed) -> WriteFault {
        WriteFault::Write
    }
}

impl From<Failed> for ReadFault {
    ghost from_gives = { λ _ e. e ≡ Read };

    fn from(_: Failed) -> ReadFault {
        ReadFault::Read
    }
}

impl From<AllocError> for ReadFault {
    ghost from_gives = { λ _ e. e ≡ Memory };

    fn from(_: AllocError) -> ReadFault {
        ReadFault::Memory
    }
}

/// Why no more bytes were read ahead. Each error is shown as its name.
#[derive(Clone, Copy, Debug, PartialEq, Eq)]
pub enum AheadFault {
    /// A read failed.
    Read,
    /// An allocation failed.
    Memory,
}

impl fmt::Display for AheadFault {
    ghost output = { λ fault. Some (ahead_fault_text fault) };

    fn fmt<W: fmt::Write>(&self, f: &mut fmt::Formatter<W>) -> fmt::Result {
        match *self {
            AheadFault::Read => write!(f, "Read"),
            AheadFault::Memory => write!(f, "Memory"),
        }
    }
}

impl Error for AheadFault {}

impl From<Failed> for AheadFault {
    ghost from_gives = { λ _ e. e ≡ ahead.Read };

    fn from(_: Failed) -> AheadFault {
        AheadFault::Read
    }
}

impl From<AllocError> for AheadFault {
    ghost from_gives = { λ _ e. e ≡ ahead.Memory };

    fn from(_: AllocError) -> AheadFault {
        AheadFault::Memory
    }
}
