//! The rules of a session log.

/// A rule that an entry breaks. The rules are checked in this order, and the first one that an entry breaks is the
/// result. `TooLong` to `SelectStatus` apply to frames that are sent or accepted.
#[derive(Clone, Copy, Debug, PartialEq, Eq)]
pub enum Rule {
    /// The time is less than that of the entry before.
    Backwards,
    /// An `up` that is not the first entry and, in version 2, does not directly follow a `down`. Or another entry
    /// before the first `up`, or after a `down` without an `up` since.
    NotUp,
    /// A frame that is sent or accepted, a `t3` or a cut, after a Separate.req or a cut ended the session (SEMI E37,
    /// section 7, separate procedure).
    Ended,
    /// An entry other than `t3`, while a sent primary has waited for its reply for longer than T3.
    T3Overdue,
    /// An entry other than an expiry, while T6 or T7 is overdue. A sent Select.req or Linktest.req has waited for
    /// longer than T6, or the connection has not been selected for longer than T7.
    LinkOverdue,
    /// An expiry of T3, T6 or T7 before the timer expires.
    NotDue,
    /// Header and text are longer than the settings allow.
    TooLong,
    /// The PType is not that of SECS-II (SEMI E37, section 8, message format).
    PType,
    /// The SType is not a single-session type (SEMI E37.1).
    SType,
    /// A control message with text.
    ControlText,
    /// Data for another device ID, or a control message except Reject.req whose session ID is not FFFF (SEMI E37.1).
    Session,
    /// A Select.req of the passive endpoint, a Select.rsp of the active endpoint, or a primary of stream 9 from the
    /// host (SEMI E37.1; SEMI E5, stream 9).
    Direction,
    /// Data while the session is not selected (SEMI E37, section 7, data procedure).
    NotSelected,
    /// A reply or a primary of stream 9 with the W bit (SEMI E5).
    WBit,
    /// The text of data is neither empty nor one item within the depth of the settings (SEMI E5, section 9, data
    /// items).
    Text,
    /// A request with the system bytes of an open transaction of its direction.
    SystemInUse,
    /// A reply, a Select.rsp or a Linktest.rsp that answers no open transaction.
    NoTransaction,
    /// A Select.rsp with status 0 while the session is selected.
    SelectStatus,
    /// A discarded frame that could have been accepted.
    NoCause,
}

impl Rule {
    ghost use Rattle.std.specs.Prelude.{◌≡◌};
    ghost use Rattle.hsms_machine.specs.Rule.{rule_name};

    /// Returns its name, as a verdict shows it.
    pub fn name(self) -> &'static str
        ensures { result.now ≡ rule_name self }
    {
        match self {
            Rule::Backwards => "Backwards",
            Rule::NotUp => "NotUp",
            Rule::Ended => "Ended",
            Rule::T3Overdue => "T3Overdue",
            Rule::LinkOverdue => "LinkOverdue",
            Rule::NotDue => "NotDue",
            Rule::TooLong => "TooLong",
            Rule::PType => "PType",
            Rule::SType => "SType",
            Rule::ControlText => "ControlText",
            Rule::Session => "Session",
            Rule::Direction => "Direction",
            Rule::NotSelected => "NotSelected",
            Rule::WBit => "WBit",
            Rule::Text => "Text",
            Rule::SystemInUse => "SystemInUse",
            Rule::NoTransaction => "NoTransaction",
            Rule::SelectStatus => "SelectStatus",
            Rule::NoCause => "NoCause",
        }
    }
}
