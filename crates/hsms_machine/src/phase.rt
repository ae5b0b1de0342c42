//! The phase of a session.

/// The phase of a session (SEMI E37, section 5, connection states).
///
/// ```text
///            up                  Select.rsp with status 0
///  Before ────────> NotSelected ─────────────────────────> Selected
///                     │     │                              │     │
///                     │     └──────────┐      ┌────────────┘     │
///                     │  Separate, cut v      v Separate, cut    │
///                     │                 Over                     │
///                     │ down             │ down             down │
///                     └───────────────> Gone <───────────────────┘
/// ```
#[derive(Clone, Copy, Debug, PartialEq, Eq)]
pub enum Phase {
    /// There was no connection yet: no entry was logged.
    Before,
    /// The connection is established, and the session is not selected.
    NotSelected,
    /// The session is selected, so data may flow.
    Selected,
    /// A Separate.req or a cut has ended the session, and the connection is not closed yet.
    Over,
    /// The connection was closed. In a log of several connections the next one may be established.
    Gone,
}
