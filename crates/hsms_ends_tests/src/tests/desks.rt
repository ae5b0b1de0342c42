//! Answers of message handlers that are called directly.

use super::{Abort, Answer, Desk, Global, HostDesk, Message, Stop, assert_so, equipment, read};
use secs_text::print;

/// Messages, and a host's answer to each. Neither the W bit nor an item other than S2F25's is considered.
const ASKED_HOST: &str = "S1F1 W . = <L [0]>
S1F13 W <L> . = <L [2] <B [1] 0x00> <L [0]>>
S2F25 W <B 0x01 0x02> . = <B [2] 0x01 0x02>
S2F25 W <A \"AB\"> . = Illegal
S2F25 W . = Illegal
S2F25 W <B> . = <B [0]>
S2F25 W <L <B 0x01>> . = Illegal
S1F3 W . = NoFunction
S1F25 W <B 0x01> . = NoFunction
S2F1 W . = NoFunction
S2F13 W . = NoFunction
S3F1 W . = NoStream
S8F1 W . = NoStream
S10F1 W . = NoStream
S13F1 W . = NoStream
S127F255 W . = NoStream
S2F17 W . = NoFunction
S9F1 . = Quiet
S7F3 W . = NoStream
S0F1 W . = NoStream
S1F1 <B 0x01> . = <L [0]>
S1F13 . = <L [2] <B [1] 0x00> <L [0]>>
S2F25 <B 0x01> . = <B [1] 0x01>
S1F3 . = NoFunction
";

/// The answers of equipment with model M and revision 1 to the same messages.
const ASKED_EQUIPMENT: &str = "S1F1 W . = <L [2] <A [1] \"M\"> <A [1] \"1\">>
S1F13 W <L> . = <L [2] <B [1] 0x00> <L [2] <A [1] \"M\"> <A [1] \"1\">>>
S2F25 W <B 0x01 0x02> . = <B [2] 0x01 0x02>
S2F25 W <A \"AB\"> . = Illegal
S2F25 W . = Illegal
S2F25 W <B> . = <B [0]>
S2F25 W <L <B 0x01>> . = Illegal
S1F3 W . = NoFunction
S1F25 W <B 0x01> . = NoFunction
S2F1 W . = NoFunction
S2F13 W . = NoFunction
S3F1 W . = NoStream
S8F1 W . = NoStream
S10F1 W . = NoStream
S13F1 W . = NoStream
S127F255 W . = NoStream
S2F17 W . = NoFunction
S9F1 . = NoStream
S7F3 W . = NoStream
S0F1 W . = NoStream
S1F1 <B 0x01> . = <L [2] <A [1] \"M\"> <A [1] \"1\">>
S1F13 . = <L [2] <B [1] 0x00> <L [2] <A [1] \"M\"> <A [1] \"1\">>>
S2F25 <B 0x01> . = <B [1] 0x01>
S1F3 . = NoFunction
";

/// Returns the item of a printed message S0F0.
fn item_in(printed: &str) -> &str {
    let item = printed.strip_prefix("S0F0 ").unwrap_or("no head");
    item.strip_suffix(" .").unwrap_or("no point")
}

/// Returns whether an answer has this text: its name, or the item of a reply.
fn is_said(alloc: Global, answer: Answer, want: &str) -> Result<bool, Stop> {
    match answer {
        Answer::Reply(item) => {
            let printed = print(alloc, &Message::new(0, 0, false, item))?;
            Ok(item_in(printed.as_str()) == want)
        }
        Answer::Quiet => Ok(want == "Quiet"),
        Answer::NoStream => Ok(want == "NoStream"),
        Answer::NoFunction => Ok(want == "NoFunction"),
        Answer::Illegal => Ok(want == "Illegal"),
    }
}

/// Returns whether a handler gives this answer to a message.
fn says<D: Desk>(alloc: Global, desk: &D, text: &str, want: &str) -> Result<bool, Stop> {
    let message = read(alloc, text.as_bytes(), 100)?;
    is_said(alloc, desk.answer(alloc, &message)?, want)
}

/// Checks that a handler gives the answer that each line has after its message.
fn check_desk<D: Desk>(rt: &impl Abort, alloc: Global, desk: &D, lines: &str) -> Result<(), Stop> {
    for line in lines.lines() {
        let (text, want) = line.split_once(" = ").unwrap_or((line, ""));
        assert_so(rt, says(alloc, desk, text, want)?, line);
    }
    Ok(())
}

#[test]
fn calls_desks_directly(rt: HostRuntime) -> Result<(), Stop> {
    check_desk(&rt, rt.alloc(), &HostDesk, ASKED_HOST)?;
    let desk = equipment(rt.alloc())?;
    check_desk(&rt, rt.alloc(), &desk, ASKED_EQUIPMENT)
}
