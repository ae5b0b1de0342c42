//! Pairs of logs as text, with the expected output.

mod pairs;

use cli_compare::{CompareError, compare_to};
use hsms_compare::ReadFault;
use hsms_compare_logs::CompareFault;
use hsms_frame::{Feed, Store};
use pairs::PAIRS;
use std::alloc::{AllocError, Global};
use std::fmt::InlineText;
use std::process::Abort;

/// Why a test ends: an allocation fails, or a line of a pair has no known keyword.
#[derive(Clone, Copy, Debug)]
enum Stop {
    Memory,
    Line,
}

impl From<AllocError> for Stop {
    fn from(_: AllocError) -> Stop {
        Stop::Memory
    }
}

// The pairs are one text, since a constant of many parts takes the check longer. Each begins with `# ` and its name.
// Its lines begin with a keyword: `host` and `equipment` add a line to a log, and `wants` a line to the expected output.
// `result` compares the logs in both orders, and `first` only with the host's log first. Both state the result.

/// Adds a line to a text.
fn push_line(text: &mut Vec<u8>, line: &str) -> Result<(), AllocError> {
    text.extend_from_slice(line.as_bytes())?;
    text.push(b'\n')?;
    Ok(())
}

/// Returns the result as text. A failed allocation is passed on.
fn result_text(answer: Result<bool, CompareError>) -> Result<InlineText<200>, Stop> {
    match answer {
        Err(CompareError::Logs(CompareFault::Log(ReadFault::Memory))) => Err(Stop::Memory),
        answer => Ok(InlineText::of(format_args!("{answer:?}"))),
    }
}

/// Checks the output and the result for two texts. Each read returns seven bytes.
fn check(
    rt: &impl Abort,
    alloc: Global,
    first: &[u8],
    second: &[u8],
    wants: &[u8],
    answer: &str,
) -> Result<(), Stop> {
    let one = Feed::new(Vec::from_slice(alloc, first)?, 7, u64::MAX);
    let other = Feed::new(Vec::from_slice(alloc, second)?, 7, u64::MAX);
    let mut sink = Store::new(vec![in alloc; 0u8; 2048]?, 11, u64::MAX);
    let found = result_text(compare_to(alloc, one, other, &mut sink))?;
    assert!(rt; found.as_str() == answer, "{answer}");
    assert!(rt; sink.written() == wants, "the output");
    Ok(())
}

/// The texts of a pair, and the expected output.
#[derive(Drop)]
struct Pair {
    host: Vec<u8>,
    equipment: Vec<u8>,
    wants: Vec<u8>,
}

/// Processes a line of a pair.
fn process_line(rt: &impl Abort, alloc: Global, pair: &mut Pair, line: &str) -> Result<(), Stop> {
    let (word, rest) = line.split_once(' ').ok_or(Stop::Line)?;
    match word {
        "host" => push_line(&mut pair.host, rest)?,
        "equipment" => push_line(&mut pair.equipment, rest)?,
        "wants" => push_line(&mut pair.wants, rest)?,
        "first" => check(rt, alloc, &pair.host, &pair.equipment, &pair.wants, rest)?,
        "result" => {
            check(rt, alloc, &pair.host, &pair.equipment, &pair.wants, rest)?;
            check(rt, alloc, &pair.equipment, &pair.host, &pair.wants, rest)?;
        }
        _ => return Err(Stop::Line),
    }
    Ok(())
}

fn check_pair(rt: &impl Abort, alloc: Global, lines: &str) -> Result<(), Stop> {
    let mut pair = Pair {
        host: Vec::new(alloc),
        equipment: Vec::new(alloc),
        wants: Vec::new(alloc),
    };
    for line in lines.lines() {
        process_line(rt, alloc, &mut pair, line)?;
    }
    Ok(())
}

#[test]
fn writes_the_comparison(rt: HostRuntime) -> Result<(), Stop> {
    for pair in PAIRS.split("# ") {
        if let Some((_, lines)) = pair.split_once('\n') {
            check_pair(&rt, rt.alloc(), lines)?;
        }
    }
    Ok(())
}

const HOST: &[u8] = b"hsms-log 1 host active 0 45000 6000 10000 5000 1048576 32\n0 up\n";

const EQUIPMENT: &[u8] = b"hsms-log 1 equipment passive 0 45000 6000 10000 5000 1048576 32\n0 up\n";

/// Checks the result if reads and writes fail after this number of calls.
fn check_failing(
    rt: &impl Abort,
    alloc: Global,
    reads: u64,
    writes: u64,
    answer: &str,
) -> Result<(), Stop> {
    let one = Feed::new(Vec::from_slice(alloc, HOST)?, 7, u64::MAX);
    let other = Feed::new(Vec::from_slice(alloc, EQUIPMENT)?, 7, reads);
    let mut sink = Store::new(vec![in alloc; 0u8; 2048]?, 11, writes);
    let found = result_text(compare_to(alloc, one, other, &mut sink))?;
    assert!(rt; found.as_str() == answer, "{answer}");
    assert!(rt;
        sink.written().len() as u64 == writes.saturating_mul(11),
        "the output"
    );
    Ok(())
}

#[test]
fn returns_failed_reads_and_writes(rt: HostRuntime) -> Result<(), Stop> {
    check_failing(&rt, rt.alloc(), 0, 0, "Err(Logs(Log(Read)))")?;
    check_failing(&rt, rt.alloc(), 10, 0, "Err(Logs(Log(Read)))")?;
    check_failing(&rt, rt.alloc(), u64::MAX, 0, "Err(Write)")?;
    check_failing(&rt, rt.alloc(), u64::MAX, 3, "Err(Write)")
}
