use super::assert_so;
use hsms_frame::{Ahead, AheadFault, Feed};
use std::alloc::{AllocError, Global};
use std::process::Abort;

// Returns the result of a read, or of a pass over three bytes if there are more. Propagates a failed allocation.
fn answer_to(ahead: &mut Ahead, source: &mut Feed, step: &str) -> Result<&'static str, AllocError> {
    if step == "pass" {
        if 3 < ahead.as_slice().len() {
            ahead.pass(3);
        }
        return Ok("pass");
    }
    match ahead.read_more(source) {
        Ok(true) => Ok("more"),
        Ok(false) => Ok("end"),
        Err(AheadFault::Read) => Ok("failed"),
        Err(AheadFault::Memory) => Err(AllocError),
    }
}

// A step with its result, and the buffered bytes after it, if they are checked.
type Step = (&'static str, Option<&'static [u8]>);

fn check_steps(
    rt: &impl Abort,
    ahead: &mut Ahead,
    source: &mut Feed,
    steps: &[Step],
) -> Result<(), AllocError> {
    for (step, octets) in steps {
        let answer = answer_to(ahead, source, step)?;
        let octets = octets.unwrap_or(ahead.as_slice());
        assert_so(rt, answer == *step && octets == ahead.as_slice(), step);
    }
    Ok(())
}

// Checks steps on a source with this many bytes a call and this many calls that succeed. At first no byte is buffered,
// at the end `length` bytes.
fn check_ahead(
    rt: &impl Abort,
    alloc: Global,
    source: &mut Feed,
    steps: &[Step],
    length: usize,
) -> Result<(), AllocError> {
    let mut ahead = Ahead::new(alloc)?;
    assert_so(rt, ahead.as_slice().is_empty(), "nothing");
    check_steps(rt, &mut ahead, source, steps)?;
    assert_so(rt, ahead.as_slice().len() == length, "all of it");
    Ok(())
}

const PASSED: &[Step] = &[
    ("more", Some(b"0123")),
    ("pass", Some(b"3")),
    ("more", Some(b"3456")),
    ("end", Some(b"3456")),
    ("failed", Some(b"3456")),
];

#[test]
fn reads_ahead_of_what_is_passed(rt: HostRuntime) -> Result<(), AllocError> {
    let octets = Vec::from_slice(rt.alloc(), b"0123456")?;
    let mut source = Feed::new(octets, 4, 3);
    check_ahead(&rt, rt.alloc(), &mut source, PASSED, 4)
}

const FAR: &[Step] = &[
    ("more", None),
    ("more", None),
    ("more", None),
    ("end", None),
];

// Passes nothing, so each read needs more capacity than the one before.
#[test]
fn reads_far_ahead(rt: HostRuntime) -> Result<(), AllocError> {
    let octets = vec![in rt.alloc(); 7u8; 200_000]?;
    let mut source = Feed::new(octets, 100_000, u64::MAX);
    check_ahead(&rt, rt.alloc(), &mut source, FAR, 200_000)
}
