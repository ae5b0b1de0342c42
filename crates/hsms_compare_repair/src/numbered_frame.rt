//! Frames with their lines.

use hsms_frame::Frame;

/// A frame that a log sends or receives, and the number of its line.
#[derive(Debug, Drop)]
pub struct NumberedFrame {
    pub line: u64,
    pub frame: Frame,
}
