//! Pairs of logs as text, with the expected facts.

mod pairs;

use hsms_compare_repair::{ConnectionFacts, Fact, LogFrames, NumberedFrame, facts_of};
use hsms_frame::{Frame, Header};
use hsms_log::{Line, LineFault, read_line};
use pairs::PAIRS;
use std::alloc::{AllocError, Global};
use std::fmt::InlineText;
use std::process::Abort;

/// Why a test ends: an allocation fails, or a line cannot be read.
#[derive(Clone, Copy, Debug)]
enum Stop {
    Memory,
    Line,
}

impl From<AllocError> for Stop {
    fn from(_: AllocError) -> Stop {
        Stop::Memory
    }
}

// The pairs are one text, since a constant of many parts takes the check longer. Each begins with `# ` and its name.
// Its lines begin with a keyword: `host` and `equipment` add an entry to a log, after its line number, and `open` says
// that a log may have more. `to` states the next fact of the frames to an endpoint.

/// Adds an entry, after its line number.
fn add_entry(alloc: Global, log: &mut LogFrames, text: &str) -> Result<(), Stop> {
    let (number, entry) = text.split_once(' ').ok_or(Stop::Line)?;
    let line = number_of(number)?;
    match read_line(alloc, entry.as_bytes(), 1_048_576) {
        Ok(Line::Entry(entry)) => Ok(log.add(alloc, line, &entry.event)?),
        Ok(Line::Nothing) => Err(Stop::Line),
        Err(LineFault::Memory) => Err(Stop::Memory),
        Err(LineFault::Unreadable) => Err(Stop::Line),
    }
}

fn number_of(digits: &str) -> Result<u64, Stop> {
    let number = u128::from_str_radix(digits, 10).ok().ok_or(Stop::Line)?;
    u64::try_from(number).ok().ok_or(Stop::Line)
}

/// Checks that the facts to an endpoint are those that the lines state, in order.
fn check_facts(
    rt: &impl Abort,
    facts: &[Fact],
    lines: &str,
    end: &str,
    name: &str,
) -> Result<(), Stop> {
    let mut left = facts.iter();
    for line in lines.lines() {
        let (word, rest) = line.split_once(' ').ok_or(Stop::Line)?;
        if word == "to" {
            let (to, want) = rest.split_once(' ').ok_or(Stop::Line)?;
            if to == end {
                match left.next() {
                    Some(fact) => {
                        let text: InlineText<200> = InlineText::of(format_args!("{fact:?}"));
                        assert!(rt; text.as_str() == want, "{name}");
                    }
                    None => assert!(rt; false, "{name}"),
                }
            }
        }
    }
    assert!(rt; left.next().is_none(), "{name}");
    Ok(())
}

fn check_pair(rt: &impl Abort, alloc: Global, lines: &str, name: &str) -> Result<(), Stop> {
    let mut host = LogFrames::new(alloc, false);
    let mut equipment = LogFrames::new(alloc, false);
    for line in lines.lines() {
        let (word, rest) = line.split_once(' ').ok_or(Stop::Line)?;
        match word {
            "host" => add_entry(alloc, &mut host, rest)?,
            "equipment" => add_entry(alloc, &mut equipment, rest)?,
            "open" if rest == "host" => host.is_open = true,
            "open" => equipment.is_open = true,
            _ => {}
        }
    }
    let facts = ConnectionFacts::of(alloc, &host, &equipment)?;
    check_facts(rt, facts.to_host.as_slice(), lines, "host", name)?;
    check_facts(rt, facts.to_equipment.as_slice(), lines, "equipment", name)
}

#[test]
fn continues_behind_a_contradiction(rt: HostRuntime) -> Result<(), Stop> {
    for pair in PAIRS.split("# ") {
        if let Some((name, lines)) = pair.split_once('\n') {
            check_pair(&rt, rt.alloc(), lines, name)?;
        }
    }
    Ok(())
}

/// Returns a frame whose header has this number.
fn numbered(alloc: Global, number: u32) -> NumberedFrame {
    let header = Header {
        session: 0,
        byte2: 129,
        byte3: 1,
        ptype: 0,
        stype: 0,
        system: number,
    };
    NumberedFrame {
        line: u64::from(number),
        frame: Frame {
            header,
            text: Vec::new(alloc),
        },
    }
}

/// Returns the frames with the numbers of a range.
fn range(alloc: Global, from: u32, to: u32) -> Result<Vec<NumberedFrame>, AllocError> {
    let mut frames = Vec::new(alloc);
    for number in from..to {
        frames.push(numbered(alloc, number))?;
    }
    Ok(frames)
}

/// Returns how many facts two ranges of frames have, and the first one.
fn first_fact(
    alloc: Global,
    sent: (u32, u32),
    received: (u32, u32),
    is_open: bool,
) -> Result<(usize, Option<Fact>), AllocError> {
    let sent = range(alloc, sent.0, sent.1)?;
    let received = range(alloc, received.0, received.1)?;
    let facts = facts_of(alloc, sent.as_slice(), received.as_slice(), is_open, 0)?;
    Ok((facts.len(), facts.first().copied()))
}

#[test]
fn searches_256_frames(rt: HostRuntime) -> Result<(), AllocError> {
    let alloc = rt.alloc();
    let skipped = Fact::Skipped {
        sender: 1,
        receiver: 256,
    };
    let unfound = Fact::Unfound { receiver: 257 };
    assert!(&rt;
        first_fact(alloc, (1, 300), (256, 300), false)? == (255, Some(skipped)),
        "the 256th"
    );
    assert!(&rt;
        first_fact(alloc, (1, 300), (257, 300), false)? == (1, Some(unfound)),
        "the 257th"
    );
    let later = Fact::Later {
        receiver: 10,
        received: 90,
    };
    assert!(&rt;
        first_fact(alloc, (1, 10), (1, 100), true)? == (1, Some(later)),
        "an open end"
    );
    assert!(&rt;
        first_fact(alloc, (1, 10), (1, 100), false)? == (90, Some(Fact::Unsent { receiver: 10 })),
        "an end"
    );
    Ok(())
}
