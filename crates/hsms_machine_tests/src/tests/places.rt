//! The line that an entry closes: the log of a late reply, whose lines are counted from 1.

ghost use Rattle.std.specs.Prelude.{◌≤◌};

use super::{Abort, AllocError, Entry, EntryRef, Global, Stop, assert_so, happened, settings};
use hsms_machine::Places;

/// Asserts that an entry closes the entry in this line.
fn assert_closes(rt: &impl Abort, places: &Places, entry: &Entry, want: Option<u64>, name: &str) {
    assert_so(rt, places.closes(&entry.as_ref()) == want, name);
}

fn assert_oldest(rt: &impl Abort, places: &Places, want: Option<u64>) {
    assert_so(rt, places.oldest_data() == want, "the oldest");
}

/// Asserts that a sent primary has the system bytes of the one in this line.
fn assert_outcome(
    rt: &impl Abort,
    alloc: Global,
    places: &Places,
    primary: &str,
    want: Option<u64>,
) -> Result<(), Stop> {
    let entry = happened(alloc, primary)?;
    assert_so(rt, places.in_use(&entry.as_ref()) == want, primary);
    Ok(())
}

/// Records an entry. If an allocation fails, a retry succeeds.
fn note(places: &mut Places, place: u64, entry: &EntryRef<'_>) -> Result<(), AllocError>
    requires rising { places.old.last_time ≤ place }
    ensures last { places.new.last_time ≤ place }
{
    match places.note(place, entry) {
        Ok(()) => Ok(()),
        Err(_) => places.note(place, entry),
    }
}

/// Checks that the entry in this line closes the expected one, and records it.
fn note_line(
    rt: &impl Abort,
    alloc: Global,
    places: &mut Places,
    place: u64,
    line: &str,
    want: Option<u64>,
) -> Result<(), Stop>
    requires rising { places.old.last_time ≤ place }
    ensures last { places.new.last_time ≤ place }
{
    let entry = happened(alloc, line)?;
    assert_closes(rt, places, &entry, want, line);
    Ok(note(places, place, &entry.as_ref())?)
}

#[test]
fn a_late_reply_closes_its_primary(rt: HostRuntime) -> Result<(), Stop> {
    let alloc = rt.alloc();
    let mut places = Places::new(alloc, settings(256)?);
    note_line(&rt, alloc, &mut places, 2, "0 up", None)?;
    note_line(&rt, alloc, &mut places, 3, "0 > ffff0000000100000001", None)?;
    note_line(
        &rt,
        alloc,
        &mut places,
        4,
        "5 < ffff0000000200000001",
        Some(3),
    )?;
    note_line(
        &rt,
        alloc,
        &mut places,
        5,
        "1000 > 00008101000000000002",
        None,
    )?;
    assert_oldest(&rt, &places, Some(5));
    assert_outcome(&rt, alloc, &places, "1001 > 00008101000000000002", Some(5))?;
    assert_outcome(&rt, alloc, &places, "1001 > 00008101000000000003", None)?;
    note_line(
        &rt,
        alloc,
        &mut places,
        6,
        "46001 < 00000102000000000002",
        Some(5),
    )?;
    assert_oldest(&rt, &places, None);
    Ok(())
}
