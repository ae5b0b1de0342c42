//! The rules of a session log, each in a few words.

ghost use Rattle.std.specs.Prelude.{◌≡◌};
ghost use Rattle.cli_options.specs.RuleTexts.{sentence_of};

use hsms_machine::Rule;

/// Returns what is wrong with an entry that breaks this rule, as in the help of `hsms audit`.
pub fn sentence(rule: Rule) -> &'static str
    ensures { result.now ≡ sentence_of rule }
{
    match rule {
        Rule::Backwards => "the time is earlier than the previous entry's",
        Rule::NotUp => "the connection is not up, or this `up` is out of place",
        Rule::Ended => "the session has ended",
        Rule::T3Overdue => "no reply came within T3, and no `t3` is logged",
        Rule::LinkOverdue => "T6 or T7 has expired, and no `cut` is logged",
        Rule::NotDue => "no such timer has expired",
        Rule::TooLong => "the message is longer than MAX",
        Rule::PType => "PType is not 0",
        Rule::SType => "HSMS-SS does not use this SType",
        Rule::ControlText => "a control message has message text",
        Rule::Session => "wrong session ID for this kind of message",
        Rule::Direction => "this end may not send or receive this message",
        Rule::NotSelected => "data message while the session is not selected",
        Rule::WBit => "the W bit is set in a reply",
        Rule::Text => "the text is not one valid item, or is nested too deeply",
        Rule::SystemInUse => "an open transaction already has these system bytes",
        Rule::NoTransaction => "no matching open transaction",
        Rule::SelectStatus => "status 0, but the session is already selected",
        Rule::NoCause => "a discarded message that breaks no rule",
    }
}
