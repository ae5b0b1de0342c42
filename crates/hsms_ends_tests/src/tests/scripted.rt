//! The link in memory: its clock, its waits, its capacity and its fuse.

ghost use Rattle.std.specs.Prelude.{◌<◌};

use super::{Stop, assert_octets, assert_so};
use hsms_ends::{Got, Link, LinkFault, Scripted};
use std::alloc::{AllocError, Global};
use std::process::Abort;

/// Returns a link with these times.
fn clock(alloc: Global, moments: &[u64]) -> Result<Scripted, AllocError> {
    let moments = Vec::from_slice(alloc, moments)?;
    Ok(Scripted::new(moments, Vec::new(alloc), Vec::new(alloc), 1, u64::MAX))
}

/// Returns a link with these waits, a capacity of four bytes, and a clock that stays at 0.
fn peer(
    alloc: Global,
    waits: &[Option<&[u8]>],
    piece: usize,
    fuse: u64,
) -> Result<Scripted, AllocError>
    requires { 0 < piece }
{
    let mut said = Vec::new(alloc);
    for wait in waits {
        match wait {
            Some(octets) => said.push(Some(Vec::from_slice(alloc, octets)?))?,
            None => said.push(None)?,
        }
    }
    let room = vec![in alloc; 0u8; 4]?;
    Ok(Scripted::new(Vec::new(alloc), said, room, piece, fuse))
}

/// Waits with space for three bytes, and checks the result and the bytes received.
fn assert_wait(rt: &impl Abort, link: &mut Scripted, want: Got, octets: &[u8]) {
    let mut into = [b'.'; 3];
    let got = link.wait(None, &mut into);
    assert_so(rt, got == Ok(want) && into.starts_with(octets), "a wait");
}

/// Checks the next time of a link.
fn assert_now(rt: &impl Abort, link: &mut Scripted, want: u64) {
    assert_so(rt, link.now() == want, "a moment");
}

/// Sends bytes, and checks the result.
fn assert_send(
    rt: &impl Abort,
    link: &mut Scripted,
    octets: &[u8],
    want: Result<usize, LinkFault>,
) {
    assert_so(rt, link.send(octets) == want, "a send");
}

/// Waits until a time. Checks whether the wait fails, and that the link records the time.
fn assert_until(rt: &impl Abort, link: &mut Scripted, until: Option<u64>, fails: bool) {
    let answer = link.wait(until, &mut [0u8; 3]);
    let is_noted = link.until() == until;
    assert_so(rt, answer.is_err() == fails && is_noted, "until when");
}

fn assert_taken(rt: &impl Abort, link: &Scripted, want: &[u8]) {
    assert_octets(rt, link.taken(), want, "taken");
}

fn assert_moments(rt: &impl Abort, link: &mut Scripted, moments: &[u64]) {
    for moment in moments {
        assert_now(rt, link, *moment);
    }
}

/// Checks that a link with these times returns them.
fn check_times(
    rt: &impl Abort,
    alloc: Global,
    given: &[u64],
    moments: &[u64],
) -> Result<(), AllocError> {
    let mut link = clock(alloc, given)?;
    assert_moments(rt, &mut link, moments);
    Ok(())
}

#[test]
fn moments_in_order(rt: HostRuntime) -> Result<(), AllocError> {
    check_times(&rt, rt.alloc(), &[3, 7, 5], &[3, 7, 5, 5, 5])?;
    check_times(&rt, rt.alloc(), &[], &[0, 0])
}

const WAITS: &[Option<&[u8]>] = &[
    Some(b""),
    Some(b"abcd"),
    None,
    Some(b""),
    Some(b""),
    Some(b"ef"),
];

/// The results of waits, and the start of their bytes.
const WAITED: &[(Got, &[u8])] = &[
    (Got::Octets(3), b"abc"),
    (Got::Octets(1), b"d"),
    (Got::Quiet, b"..."),
    (Got::Octets(2), b"ef."),
    (Got::Closed, b"..."),
    (Got::Closed, b"..."),
];

/// The results if a wait returns one byte at most.
const WAITED_FOR_ONE: &[(Got, &[u8])] = &[
    (Got::Octets(1), b"a"),
    (Got::Octets(1), b"b"),
    (Got::Octets(1), b"c"),
    (Got::Octets(1), b"d"),
    (Got::Quiet, b"..."),
    (Got::Octets(1), b"e.."),
];

fn assert_waits(rt: &impl Abort, link: &mut Scripted, waited: &[(Got, &[u8])]) {
    for (want, octets) in waited {
        assert_wait(rt, link, *want, octets);
    }
}

/// Checks the results of waits that return at most `piece` bytes.
fn check_waits(
    rt: &impl Abort,
    alloc: Global,
    piece: usize,
    waited: &[(Got, &[u8])],
) -> Result<(), AllocError>
    requires { 0 < piece }
{
    let mut link = peer(alloc, WAITS, piece, u64::MAX)?;
    assert_waits(rt, &mut link, waited);
    Ok(())
}

#[test]
fn waits_in_order(rt: HostRuntime) -> Result<(), AllocError> {
    check_waits(&rt, rt.alloc(), 10, WAITED)?;
    check_waits(&rt, rt.alloc(), 1, WAITED_FOR_ONE)
}

fn check_capacity(rt: &impl Abort, link: &mut Scripted) {
    assert_taken(rt, link, b"");
    assert_send(rt, link, b"abcde", Ok(3));
    assert_send(rt, link, b"", Ok(0));
    assert_send(rt, link, b"fg", Ok(1));
    assert_taken(rt, link, b"abcf");
    assert_send(rt, link, b"g", Err(LinkFault));
    assert_send(rt, link, b"", Err(LinkFault));
    assert_taken(rt, link, b"abcf");
}

#[test]
fn room_and_pieces(rt: HostRuntime) -> Result<(), Stop> {
    let mut link = peer(rt.alloc(), &[], 3, u64::MAX)?;
    check_capacity(&rt, &mut link);
    Ok(())
}

fn check_fuse(rt: &impl Abort, link: &mut Scripted) {
    assert_wait(rt, link, Got::Octets(1), b"a");
    assert_send(rt, link, b"x", Ok(1));
    assert_now(rt, link, 0);
    assert_send(rt, link, b"y", Err(LinkFault));
    assert_until(rt, link, None, true);
    assert_taken(rt, link, b"x");
}

#[test]
fn waits_and_sends_share_a_fuse(rt: HostRuntime) -> Result<(), Stop> {
    let mut link = peer(rt.alloc(), &[Some(b"ab")], 1, 2)?;
    check_fuse(&rt, &mut link);
    Ok(())
}

fn check_until(rt: &impl Abort, link: &mut Scripted) {
    assert_so(rt, link.until().is_none(), "no wait");
    assert_until(rt, link, Some(9), false);
    assert_until(rt, link, None, false);
    assert_until(rt, link, Some(8), true);
}

#[test]
fn until_is_noted(rt: HostRuntime) -> Result<(), Stop> {
    let mut link = peer(rt.alloc(), &[], 1, 2)?;
    check_until(&rt, &mut link);
    Ok(())
}
