//! The inputs of an endpoint.

use secs_text::Message;

/// An input of an endpoint: one call.
#[derive(Debug, Drop)]
pub enum Input {
    /// The connection was established at this time, in milliseconds.
    Start(u64),
    /// Time has advanced to this time, in milliseconds.
    Tick(u64),
    /// Bytes were received.
    Bytes(Vec<u8>),
    /// Send this message.
    Send(Message),
    /// Send Linktest.req to check that the peer is still there.
    Linktest,
    /// End the session and the connection.
    Separate,
    /// The connection was lost.
    Lost,
}
