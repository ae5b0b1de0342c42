//! Errors that end the command before its work is done.

ghost use Rattle.std.specs.Prelude.{◌≡◌, MatchResult, Some, codes};
ghost use Rattle.cli_options.specs.Status.{IsRefusedAs, exit_status_of, fault_text};
ghost use Rattle.cli_options.specs.declared.fault.ToolFault.TheVariants.{Memory};

use std::alloc::{AllocError, Global};
use std::error::Error;
use std::fmt;

/// Why the command ends before its work is done, as it reports it to the user.
#[derive(Debug, Drop)]
pub enum ToolFault {
    /// The command line or the input is invalid, with this text.
    Refused(String),
    /// A reader or writer failed, or the input is larger than the command accepts. The word says which.
    Device(&'static str),
    /// An allocation failed.
    Memory,
}

impl fmt::Display for ToolFault {
    ghost output = { λ fault. Some (fault_text fault) };

    fn fmt<W: fmt::Write>(&self, f: &mut fmt::Formatter<W>) -> fmt::Result {
        match self {
            ToolFault::Refused(words) => write!(f, "{words}"),
            ToolFault::Device(word) => write!(f, "{word}"),
            ToolFault::Memory => write!(f, "Memory"),
        }
    }
}

impl Error for ToolFault {}

impl From<AllocError> for ToolFault {
    ghost from_gives = { λ _ e. e ≡ Memory };

    fn from(_: AllocError) -> ToolFault {
        ToolFault::Memory
    }
}

/// Returns the error for an invalid input, with this text. Returns `Memory` if an allocation fails for the text.
pub fn refused(alloc: Global, words: &str) -> ToolFault
    ensures { IsRefusedAs words.now result }
{
    refusal(String::from_str(alloc, words))
}

/// Returns the error for an invalid input, with this text. Returns `Memory` if the text could not be allocated.
pub fn refusal(words: Result<String, AllocError>) -> ToolFault
    ensures { MatchResult words (λ given. result ≡ ToolFault.Refused given) (λ _. result ≡ ToolFault.Memory) }
{
    match words {
        Ok(words) => ToolFault::Refused(words),
        Err(_) => ToolFault::Memory,
    }
}

/// Returns the status with which the command ends. It is 0 after success, and 1 if the result is false, for example
/// because a log fails its audit. It is 2 if the input or the command line is invalid, and 3 if I/O or an allocation
/// failed.
pub fn exit_status(answer: &Result<bool, ToolFault>) -> u8
    ensures { result ≡ exit_status_of answer.now }
{
    match answer {
        Ok(true) => 0,
        Ok(false) => 1,
        Err(ToolFault::Refused(_)) => 2,
        Err(ToolFault::Device(_) | ToolFault::Memory) => 3,
    }
}

/// Returns the error for a command line that requests nothing that the command does.
pub fn no_request(alloc: Global) -> ToolFault
    ensures { IsRefusedAs (codes "command line") result }
{
    refused(alloc, "command line")
}
