//! The kinds of messages (SEMI E37, section 8.2.6).

/// The kind of a message.
#[derive(Clone, Copy, Debug, PartialEq, Eq)]
pub enum Kind {
    /// A data message with an odd function.
    Primary,
    /// A data message with an even function: a reply, or function 0, which aborts a transaction.
    Reply,
    /// Select.req: requests a session.
    SelectReq,
    /// Select.rsp: responds to Select.req with a status in byte 3. Status 0 establishes the session.
    SelectRsp,
    /// Linktest.req: checks whether the other endpoint still responds.
    LinktestReq,
    /// Linktest.rsp: responds to Linktest.req.
    LinktestRsp,
    /// Reject.req: rejects a received message.
    Reject,
    /// Separate.req: ends the session.
    Separate,
    /// A control message of a type that this profile does not have.
    OtherSType,
    /// A message that is not SECS-II.
    OtherPType,
}
