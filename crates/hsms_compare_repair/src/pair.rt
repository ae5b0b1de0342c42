//! The facts of both directions of a connection.

ghost use Rattle.std.specs.Prelude.{◌≡◌, ◌++◌, [], ◌∷◌, OnOk, OnErr};
ghost use Rattle.hsms_compare_repair.specs.Logs.{numbered_frame};

use crate::fact::Fact;
use crate::facts::{facts_of, shown_line};
use crate::numbered_frame::NumberedFrame;
use hsms_frame::Frame;
use hsms_machine::Event;
use std::alloc::{AllocError, Global};

/// The frames that the log of one endpoint sends and receives in a connection.
#[derive(Drop)]
pub struct LogFrames {
    pub sent: Vec<NumberedFrame>,
    pub received: Vec<NumberedFrame>,
    /// Whether the log may have more entries.
    pub is_open: bool,
}

impl LogFrames {
    ghost use Rattle.std.specs.Prelude.{◌≡◌, ◌++◌, ℕ, List, [], ◌∷◌, OnOk, OnErr};
    ghost use Rattle.hsms_compare.specs.Conversation.{Line};
    ghost use Rattle.hsms_compare_repair.specs.Logs.{HasFramesOf};

    /// Returns the frames of a log without entries.
    pub fn new(alloc: Global, is_open: bool) -> LogFrames
        ensures frames { HasFramesOf [] result }
        ensures open { result.is_open ≡ is_open }
    {
        LogFrames {
            sent: Vec::new(alloc),
            received: Vec::new(alloc),
            is_open,
        }
    }

    /// Adds the frame that the entry at a line sends or receives, if there is one.
    ///
    /// # Errors
    ///
    /// Returns `AllocError` if an allocation fails. The frames stay the same.
    pub fn add(&mut self, alloc: Global, line: u64, event: &Event) -> Result<(), AllocError>
        ensures added { OnOk result ((lines : List Line) (time : ℕ) → HasFramesOf lines self.old
            → HasFramesOf (lines ++ record { position = line; entry = record { time = time; event = event.now } } ∷ []) self.new) }
        ensures err { OnErr result ((lines : List Line) → HasFramesOf lines self.old → HasFramesOf lines self.new) }
        ensures open { self.new.is_open ≡ self.old.is_open }
    {
        match event {
            Event::Sent(frame) => push_copy(alloc, &mut self.sent, line, frame),
            Event::Taken(frame) => push_copy(alloc, &mut self.received, line, frame),
            Event::Discarded(frame) => push_copy(alloc, &mut self.received, line, frame),
            Event::Up => Ok(()),
            Event::T3(_) => Ok(()),
            Event::Cut(_) => Ok(()),
            Event::Down => Ok(()),
        }
    }
}

/// Appends a copy of a frame.
fn push_copy(
    alloc: Global,
    frames: &mut Vec<NumberedFrame>,
    line: u64,
    frame: &Frame,
) -> Result<(), AllocError>
    ensures ok { OnOk result (frames.new.items ≡ frames.old.items ++ numbered_frame line frame.now ∷ []) }
    ensures err { OnErr result (frames.new.items ≡ frames.old.items) }
{
    let header = frame.header;
    let text = Vec::from_slice(alloc, frame.text.as_slice())?;
    frames.push(NumberedFrame {
        line,
        frame: Frame { header, text },
    })?;
    Ok(())
}

/// The facts of a connection, by the lines of the receiver.
#[derive(Drop)]
pub struct ConnectionFacts {
    pub to_equipment: Vec<Fact>,
    pub to_host: Vec<Fact>,
}

impl ConnectionFacts {
    ghost use Rattle.std.specs.Prelude.{IfOk};
    ghost use Rattle.hsms_compare_repair.specs.Connection.{AreFactsTo};

    /// Returns the facts of the logs of one connection.
    ///
    /// # Errors
    ///
    /// Returns `AllocError` if an allocation fails.
    pub fn of(
        alloc: Global,
        host: &LogFrames,
        equipment: &LogFrames,
    ) -> Result<ConnectionFacts, AllocError>
        ensures to_equipment { IfOk result (λ facts. AreFactsTo host.now equipment.now facts.to_equipment.items) }
        ensures to_host { IfOk result (λ facts. AreFactsTo equipment.now host.now facts.to_host.items) }
    {
        Ok(ConnectionFacts {
            to_equipment: Self::between(alloc, host, equipment)?,
            to_host: Self::between(alloc, equipment, host)?,
        })
    }

    /// Returns the facts of the frames from one endpoint to the other.
    fn between(
        alloc: Global,
        sender: &LogFrames,
        receiver: &LogFrames,
    ) -> Result<Vec<Fact>, AllocError>
        ensures { IfOk result (λ facts. AreFactsTo sender.now receiver.now facts.items) }
    {
        let shown = shown_line(
            alloc,
            receiver.sent.as_slice(),
            sender.received.as_slice(),
            receiver.is_open,
        )?;
        facts_of(
            alloc,
            sender.sent.as_slice(),
            receiver.received.as_slice(),
            sender.is_open,
            shown,
        )
    }
}
