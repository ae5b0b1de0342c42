//! The repair of a log after an entry that breaks a rule: the log of a late reply, and other entries in its place.

use super::{
    Abort, EntryRef, Global, InlineText, Stop, Tracker, assert_said, check_lines, happened,
    settings,
};

/// The log up to its late reply.
const ASKED: &str = "selected
1000 > 00008101000000000002
";

/// Replies, the rules that they break, and their repairs.
const REPLIES: &str = "46001 < 00000102000000000002 = T3Overdue ExpireFirst(46000, 2)
1001 < 00000102000000000003 = NoTransaction Discard
1001 > 00000102000000000003 = NoTransaction LeaveOut
1001 ! 00000102000000000002 = NoCause LeaveOut
999 < 00000102000000000002 = Backwards Raise(1000)
";

/// Returns the rule that a reply breaks, and its repair.
fn repair_of(tracker: &Tracker, reply: &EntryRef<'_>) -> InlineText<160> {
    match tracker.check_ref(reply) {
        Some(rule) => {
            let repair_action = tracker.repair_action(rule, reply);
            InlineText::of(format_args!("{rule:?} {repair_action:?}"))
        }
        None => InlineText::new(),
    }
}

fn check_reply(rt: &impl Abort, alloc: Global, tracker: &Tracker, row: &str) -> Result<(), Stop> {
    let (line, want) = row.split_once(" = ").ok_or(Stop::Line)?;
    let entry = happened(alloc, line)?;
    assert_said(rt, repair_of(tracker, &entry.as_ref()), want, line);
    Ok(())
}

fn check_replies(rt: &impl Abort, alloc: Global, tracker: &Tracker) -> Result<(), Stop> {
    for row in REPLIES.lines() {
        check_reply(rt, alloc, tracker, row)?;
    }
    Ok(())
}

#[test]
fn what_a_failing_reply_asks_for(rt: HostRuntime) -> Result<(), Stop> {
    let mut tracker = Tracker::new(rt.alloc(), settings(256)?);
    check_lines(&rt, rt.alloc(), &mut tracker, ASKED, "asked")?;
    check_replies(&rt, rt.alloc(), &tracker)
}
