//! The calls of an endpoint that serving makes by itself.

/// A call of an endpoint that is not a step of a script.
#[derive(Clone, Copy)]
pub enum Call<'a> {
    /// The connection was established at this time, in milliseconds.
    Start(u64),
    /// Time has advanced to this time, in milliseconds.
    Tick(u64),
    /// These bytes were received.
    Bytes(&'a [u8]),
    /// Send Linktest.req to check that the peer is still there.
    Linktest,
    /// The connection was lost.
    Lost,
}
