//! An entry without the text of its frame.

use hsms_frame::Header;
use hsms_machine::{Cause, Mark};

/// The event of an entry, without the text of its frame.
#[derive(Clone, Copy)]
pub enum What {
    Up,
    Frame(Mark, Header),
    T3(u32),
    Cut(Cause),
    Down,
}

/// An entry without the text of its frame. Its time is in ms.
#[derive(Clone, Copy)]
pub struct Step {
    pub time: u64,
    pub what: What,
}
