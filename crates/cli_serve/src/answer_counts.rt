//! How many primaries in a log request a reply, and how many replies they got.

ghost use Rattle.std.specs.Prelude.{◌≡◌, ◌==◌, ℕ, List, OnOk};
ghost use Rattle.hsms_machine.specs.Entry.{frame_event};
ghost use Rattle.cli_serve.specs.InnerAnswerCounts.{CountsLine, answers, asks, counted};

use hsms_frame::{Header, Kind, kind};
use hsms_log::{What, read_frame_line};
use hsms_machine::Mark;
use std::alloc::AllocError;

/// The number of sent primaries with W, and of accepted replies whose function is not 0. The counts saturate.
#[derive(Clone, Copy, Default)]
pub struct AnswerCounts {
    pub asked: u64,
    pub answered: u64,
}

impl AnswerCounts {
    /// Returns true if each sent primary with W got a reply whose function is not 0: an accepted reply answers exactly
    /// one of them.
    pub fn is_complete(self) -> bool
        ensures { result ≡ (self.asked == self.answered) }
    {
        self.asked == self.answered
    }

    /// Counts the message of a line of a log, without its end. Overwrites `octets`.
    pub fn count_line(&mut self, line: &[u8], octets: &mut Vec<u8>) -> Result<(), AllocError>
        ensures { OnOk result (CountsLine line.now self.old self.new) }
    {
        if let Some(step) = read_frame_line(line, octets)? {
            *self = match step.what {
                What::Frame(mark, header) => self.after(mark, header),
                What::Up | What::T3(_) | What::Cut(_) | What::Down => *self,
            };
        }
        Ok(())
    }

    // Returns the counts after a message.
    fn after(self, mark: Mark, header: Header) -> AnswerCounts
        ensures { (text : List ℕ) → result ≡ counted self (frame_event mark (record { header = header; text = text })) }
    {
        match mark {
            Mark::Sent => if asks(header) {
                AnswerCounts {
                    asked: self.asked.saturating_add(1),
                    answered: self.answered,
                }
            } else {
                self
            },
            Mark::Taken => if answers(header) {
                AnswerCounts {
                    asked: self.asked,
                    answered: self.answered.saturating_add(1),
                }
            } else {
                self
            },
            Mark::Discarded => self,
        }
    }
}

// Returns true for a primary with W.
fn asks(header: Header) -> bool
    ensures { result ≡ asks header }
{
    matches!(kind(header), Kind::Primary) && header.wait()
}

// Returns true for a reply whose function is not 0.
fn answers(header: Header) -> bool
    ensures { result ≡ answers header }
{
    matches!(kind(header), Kind::Reply) && header.function() != 0
}
