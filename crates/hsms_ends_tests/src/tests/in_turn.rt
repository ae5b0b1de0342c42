//! Several replies of a script to one primary.

use super::reconnect::check_twice;
use super::{
    Abort, EquipmentDesk, Global, Message, Role, Side, Stop, end_of, equipment, judge, read,
    settings,
};
use hsms_ends::{Replies, ScriptedDesk};

/// Three replies to S7F3, and between them two to S10F3.
const REPLIES: &[&str] = &[
    "S7F4 <B 0x00> .",
    "S10F4 <B 0x10> .",
    "S7F4 <B 0x01> .",
    "S10F4 .",
    "S7F4 <B 0x02> .",
];

/// Returns equipment's message handler with these replies before it.
fn scripted(alloc: Global) -> Result<ScriptedDesk<EquipmentDesk>, Stop> {
    let mut replies: Vec<Message> = Vec::new(alloc);
    for text in REPLIES {
        replies.push(read(alloc, text.as_bytes(), 32)?)?;
    }
    let own = equipment(alloc)?;
    let replies = Replies::of(alloc, replies)?;
    Ok(ScriptedDesk { replies, own })
}

/// Another primary has its own order, and one without a reply has none. Two arrive in one chunk, and the last reply
/// repeats.
const IN_TURN: &str = "start 0
0 up
comes ffff0000000100000001
0 < ffff0000000100000001
0 > ffff0000000200000001
comes 00008703000000000007
0 < 00008703000000000007
0 > 00000704000000000007210100
comes 00008a03000000000007
0 < 00008a03000000000007
0 > 00000a04000000000007210110
comes 00008101000000000007
0 < 00008101000000000007
0 > 00000102000000000007010241014d410131
octets 0000000a000087030000000000080000000a00008703000000000009
0 < 00008703000000000008
0 > 00000704000000000008210101
0 < 00008703000000000009
0 > 00000704000000000009210102
comes 00008703000000000007
0 < 00008703000000000007
0 > 00000704000000000007210102
comes 00008703000000000007
0 < 00008703000000000007
0 > 00000704000000000007210102
comes 00008a03000000000007
0 < 00008a03000000000007
0 > 00000a04000000000007
";

/// Checks a session of equipment with this message handler.
fn check_scripted(rt: &impl Abort, alloc: Global, session: &str, name: &str) -> Result<(), Stop> {
    let given = settings(Role::Equipment, Side::Passive, 256).ok_or(Stop::Line)?;
    let mut end = end_of(alloc, given, scripted(alloc)?, 1);
    judge(rt, alloc, &mut end, session, name)
}

#[test]
fn replies_in_turn(rt: HostRuntime) -> Result<(), Stop> {
    check_scripted(&rt, rt.alloc(), IN_TURN, "replies in turn")
}

/// A primary without the W bit also uses up its reply, which is not sent. A discarded primary uses up none.
const WITHOUT_W: &str = "start 0
0 up
comes 00008703000000000007
0 ! 00008703000000000007
0 > 00000004000700000007
comes ffff0000000100000001
0 < ffff0000000100000001
0 > ffff0000000200000001
comes 00000703000000000007
0 < 00000703000000000007
comes 00008703000000000007
0 < 00008703000000000007
0 > 00000704000000000007210101
";

#[test]
fn a_turn_without_a_reply(rt: HostRuntime) -> Result<(), Stop> {
    check_scripted(&rt, rt.alloc(), WITHOUT_W, "a turn without W")
}

const TWICE: &str = "hsms-log 2 equipment passive 0 45000 6000 10000 5000 1048576 32
7 up
7 < ffff0000000100000001
7 > ffff0000000200000001
7 < 00008703000000000002
7 > 00000704000000000002210100
7 < 00008703000000000003
7 > 00000704000000000003210101
7 < ffff0000000900000004
7 down
7 up
7 < ffff0000000100000001
7 > ffff0000000200000001
7 < 00008703000000000002
7 > 00000704000000000002210100
7 < ffff0000000900000003
7 down
";

/// The messages received in two connections.
const ASKED_TWICE: &str = "ffff0000000100000001
00008703000000000002
00008703000000000003
ffff0000000900000004
ffff0000000100000001
00008703000000000002
ffff0000000900000003
";

/// With each connection the order starts again.
#[test]
fn turns_begin_anew(rt: HostRuntime) -> Result<(), Stop> {
    let alloc = rt.alloc();
    let desk = scripted(alloc)?;
    check_twice(&rt, alloc, &[7; 16], ASKED_TWICE, &desk, TWICE, 16)
}
