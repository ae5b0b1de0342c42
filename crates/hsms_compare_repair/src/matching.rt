//! What the received frames of one direction are, one after the other.

use crate::finding::Finding;
use crate::numbered_frame::NumberedFrame;
use std::alloc::{AllocError, Global};

/// After this many unknown frames in a row a direction is not looked at any further.
pub const GIVEN_UP: usize = 256;

/// What the received frames of one direction are, one after the other.
#[derive(Drop)]
pub struct Matching {
    pub findings: Vec<Finding>,
    /// Of each sent frame before the next one, whether it is skipped.
    pub skipped: Vec<bool>,
    /// The number of unknown frames at the end.
    pub unknown: usize,
}

impl Matching {
    ghost use Rattle.std.specs.Prelude.{◌≡◌, ◌<◌, ◌++◌, [], replicate, IfOk, OnOk, true};
    ghost use Rattle.hsms_compare_repair.specs.Findings.{AreFindings, marks_after, unknown_after};

    /// Returns what the received frames are of the sent ones.
    pub fn of(
        alloc: Global,
        sent: &[NumberedFrame],
        received: &[NumberedFrame],
        is_open: bool,
    ) -> Result<Matching, AllocError>
        ensures { IfOk result (λ m.
            AreFindings sent.now is_open [] 0 received.now m.findings.items m.skipped.items m.unknown) }
    {
        let mut findings = Vec::new(alloc);
        let mut skipped = Vec::new(alloc);
        let mut unknown = 0;
        for message in received {
            if unknown >= GIVEN_UP {
                return Ok(Matching {
                    findings,
                    skipped,
                    unknown,
                });
            }
            let found = Finding::of(sent, is_open, skipped.as_slice(), &message.frame);
            Self::mark(&mut skipped, found)?;
            unknown = Self::count(unknown, found);
            findings.push(found)?;
        }
        Ok(Matching {
            findings,
            skipped,
            unknown,
        })
    }

    /// Returns the number of unknown frames in a row, after one more frame.
    fn count(unknown: usize, found: Finding) -> usize
        requires { unknown < 256 }
        ensures { result ≡ unknown_after unknown found }
    {
        match found {
            Finding::Next(_, _) => 0,
            Finding::Late(_) => 0,
            Finding::Altered(_) => 0,
            Finding::Repeated => 0,
            Finding::Unknown => unknown + 1,
        }
    }

    /// Marks the sent frames up to a received one.
    fn mark(skipped: &mut Vec<bool>, found: Finding) -> Result<(), AllocError>
        ensures { OnOk result (skipped.new.items ≡ marks_after skipped.old.items found) }
    {
        match found {
            Finding::Next(next, number) => {
                Self::skip(skipped, number.saturating_sub(next))?;
                skipped.push(false)?;
                Ok(())
            }
            Finding::Late(number) => {
                if number < skipped.len() {
                    skipped[number] = false;
                }
                Ok(())
            }
            Finding::Altered(_) => {
                skipped.push(false)?;
                Ok(())
            }
            Finding::Repeated => Ok(()),
            Finding::Unknown => Ok(()),
        }
    }

    /// Marks this many further sent frames as skipped.
    fn skip(skipped: &mut Vec<bool>, count: usize) -> Result<(), AllocError>
        ensures { OnOk result (skipped.new.items ≡ skipped.old.items ++ replicate count true) }
    {
        for _i in 0..count {
            skipped.push(true)?;
        }
        Ok(())
    }
}
