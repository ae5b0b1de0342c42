//! The steps of a script.

use secs_text::Message;

/// An input of an endpoint that is selected and has no open own transaction.
#[derive(Debug, Drop)]
pub enum Step {
    /// Send this message.
    Send(Message),
    /// Send Linktest.req to check that the peer is still there.
    Linktest,
    /// End the session and the connection.
    Separate,
}
