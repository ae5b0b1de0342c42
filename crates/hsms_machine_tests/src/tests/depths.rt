//! The maximum depth of a text.

use super::{
    Abort, AllocError, Entry, Event, Frame, Global, Role, SELECTED, Settings, Side, Stop, Tracker,
    assert_so, check_lines, header_of,
};
use hsms_machine::Rule;

fn settings(depth: u8) -> Result<Settings, Stop> {
    Settings::new(
        Role::Host,
        Side::Active,
        0,
        45000,
        6000,
        10000,
        5000,
        256,
        depth,
    )
    .ok_or(Stop::Line)
}

/// Returns this many nested lists, the innermost one empty.
fn lists(alloc: Global, count: u8) -> Result<Vec<u8>, AllocError> {
    let ones = [1u8; 510];
    let (outer, _) = ones.split_at(2 * usize::from(count.saturating_sub(1)));
    let mut text = Vec::from_slice(alloc, outer)?;
    text.extend_from_slice(&[1, 0])?;
    Ok(text)
}

/// Returns an accepted S1F1 W with them. If an allocation fails, a retry succeeds.
fn taken(alloc: Global, count: u8) -> Result<Entry, Stop> {
    let header = header_of("00008101000000000002")?;
    let text = match lists(alloc, count) {
        Ok(text) => text,
        Err(_) => lists(alloc, count)?,
    };
    Ok(Entry {
        time: 6,
        event: Event::Taken(Frame { header, text }),
    })
}

fn check_lists(
    rt: &impl Abort,
    alloc: Global,
    tracker: &Tracker,
    count: u8,
    want: Option<Rule>,
) -> Result<(), Stop> {
    let entry = taken(alloc, count)?;
    assert_so(rt, tracker.check(&entry) == want, "the depth");
    Ok(())
}

/// Checks that as many lists as the depth are accepted, and no more.
fn check_depth(rt: &impl Abort, alloc: Global, depth: u8) -> Result<(), Stop> {
    let mut tracker = Tracker::new(alloc, settings(depth)?);
    check_lines(rt, alloc, &mut tracker, SELECTED, "selected")?;
    check_lists(rt, alloc, &tracker, depth, None)?;
    check_lists(
        rt,
        alloc,
        &tracker,
        depth.saturating_add(1),
        Some(Rule::Text),
    )
}

#[test]
fn texts_as_deep_as_the_settings_say(rt: HostRuntime) -> Result<(), Stop> {
    check_depth(&rt, rt.alloc(), 1)?;
    for depth in 91..=100 {
        check_depth(&rt, rt.alloc(), depth)?;
    }
    Ok(())
}
