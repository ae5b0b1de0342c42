//! The frames in flight from one endpoint to the other.

ghost use Rattle.std.specs.Prelude.{◌≡◌, ◌↔◌, IsTrue, IfOk};

use crate::stop::MergeResult;
use hsms_frame::Frame;
use std::alloc::{AllocError, Global};
use std::collections::VecDeque;
use std::marker::Model;

/// A frame that was sent, and the position of the entry that sent it.
#[derive(Debug, Drop)]
pub struct SentFrame {
    pub position: u64,
    pub frame: Frame,
}

/// The frames that one log sent and the other one has not received, in order.
#[derive(Drop)]
pub struct Channel {
    in_flight: VecDeque<SentFrame>,
}

impl Model for Channel {
    ghost use Rattle.std.specs.Prelude.{List};
    ghost use Rattle.hsms_compare.specs.declared.channel.SentFrame.{SentFrame};

    ghost Value = { List SentFrame };

    ghost view = { λ channel. channel.in_flight.items };
}

impl Channel {
    ghost use Rattle.std.specs.Prelude.{◌≡◌, ◌++◌, [], ◌∷◌, length, OnOk, OnErr};
    ghost use Rattle.hsms_compare.specs.Merge.{sent_frame};
    ghost use Rattle.hsms_compare.specs.InnerMerge.{Receives};

    /// Returns an empty channel.
    pub fn new(alloc: Global) -> Channel
        ensures { result ≡ [] }
    {
        Channel {
            in_flight: VecDeque::new(alloc),
        }
    }

    /// Returns the number of frames in flight.
    pub fn len(&self) -> usize
        ensures { result ≡ length self.now }
    {
        self.in_flight.len()
    }

    /// Drops all frames.
    pub fn clear(&mut self)
        ensures { self.new ≡ [] }
    {
        self.in_flight.clear();
    }

    /// Appends a copy of a frame that the entry at this position sent.
    pub fn send(&mut self, alloc: Global, position: u64, frame: &Frame) -> Result<(), AllocError>
        ensures ok { OnOk result (self.new ≡ self.old ++ sent_frame position frame.now ∷ []) }
        ensures err { OnErr result (self.new ≡ self.old) }
    {
        let frame = copied(alloc, frame)?;
        self.in_flight.push_back(SentFrame { position, frame })?;
        Ok(())
    }

    /// Removes the first frame in flight if it is the given one.
    pub fn receive(&mut self, frame: &Frame) -> MergeResult
        ensures { Receives self.old frame.now result self.new }
    {
        let Some(first) = self.in_flight.front() else {
            return MergeResult::NoneInFlight;
        };
        if !is_same(&first.frame, frame) {
            return MergeResult::OtherInFlight(first.position);
        }
        let _ = self.in_flight.pop_front();
        MergeResult::Merged
    }
}

/// Returns whether two frames have the same header and text.
fn is_same(one: &Frame, other: &Frame) -> bool
    ensures { IsTrue result ↔ (one.now ≡ other.now) }
{
    one.header == other.header && one.text.as_slice() == other.text.as_slice()
}

/// Returns a copy of a frame.
fn copied(alloc: Global, frame: &Frame) -> Result<Frame, AllocError>
    ensures { IfOk result (λ copy. copy ≡ frame.now) }
{
    let header = frame.header;
    let text = Vec::from_slice(alloc, frame.text.as_slice())?;
    Ok(Frame { header, text })
}
