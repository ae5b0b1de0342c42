//! The direction of a frame.

/// The direction of a frame, as the logging endpoint sees it.
#[derive(Clone, Copy, PartialEq)]
pub enum Flow {
    Outgoing,
    Incoming,
}
