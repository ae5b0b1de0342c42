//! The limits of settings, and the values in settings.

use super::{Abort, InlineText, Role, Settings, Side, Stop, assert_said, assert_so};

/// The device ID, T3, T6, T7, T8, the maximum size and the depth that settings can have.
const WITHIN: &str = "0 1 1 1 1 256 1 the least
32767 3600000 3600000 3600000 3600000 33554432 100 the greatest
";

/// Rows in which one number is outside its limit.
const PAST: &str = "32768 1 1 1 1 256 1 device
0 0 1 1 1 256 1 T3 of 0
0 3600001 1 1 1 256 1 T3
0 1 0 1 1 256 1 T6 of 0
0 1 3600001 1 1 256 1 T6
0 1 1 0 1 256 1 T7 of 0
0 1 1 3600001 1 256 1 T7
0 1 1 1 0 256 1 T8 of 0
0 1 1 1 3600001 256 1 T8
0 1 1 1 1 255 1 a small max
0 1 1 1 1 33554433 1 max
0 1 1 1 1 256 0 a depth of 0
0 1 1 1 1 256 101 depth
";

/// Returns the numbers of a row. Those that are missing have an invalid value.
fn numbers_of(row: &str) -> [u32; 7] {
    let mut numbers = [u32::MAX; 7];
    for (number, word) in numbers.iter_mut().zip(row.split(' ')) {
        *number = u32::from_str_radix(word, 10).unwrap_or(u32::MAX);
    }
    numbers
}

/// Returns the settings of equipment that listens, with these numbers, if there are such settings.
fn settings_of(numbers: [u32; 7]) -> Result<Option<Settings>, Stop> {
    let [device, t3, t6, t7, t8, max, depth] = numbers;
    let device = u16::try_from(device).ok().ok_or(Stop::Line)?;
    let depth = u8::try_from(depth).ok().ok_or(Stop::Line)?;
    Ok(Settings::new(
        Role::Equipment,
        Side::Passive,
        device,
        t3,
        t6,
        t7,
        t8,
        max,
        depth,
    ))
}

fn check_rows(rt: &impl Abort, rows: &str, is_within: bool) -> Result<(), Stop> {
    for row in rows.lines() {
        let settings = settings_of(numbers_of(row))?;
        assert_so(rt, settings.is_some() == is_within, row);
    }
    Ok(())
}

#[test]
fn the_limits_of_settings(rt: HostRuntime) -> Result<(), Stop> {
    check_rows(&rt, WITHIN, true)?;
    check_rows(&rt, PAST, false)
}

/// Returns the role and the side, the device ID, the maximum size and the depth.
fn ends_of(settings: Settings) -> InlineText<160> {
    let ends = (settings.role(), settings.link());
    let limits = (settings.device(), settings.max(), settings.depth());
    InlineText::of(format_args!("{ends:?} {limits:?}"))
}

/// Returns T3, T6, T7, T8, the version, and the version for several connections.
fn timeouts_of(settings: Settings) -> InlineText<160> {
    let timeouts = (settings.t3(), settings.t6(), settings.t7(), settings.t8());
    let versions = (settings.version(), settings.several().version());
    InlineText::of(format_args!("{timeouts:?} {versions:?}"))
}

#[test]
fn the_readers_of_settings(rt: HostRuntime) -> Result<(), Stop> {
    let settings = settings_of([1, 3, 6, 7, 8, 257, 9])?.ok_or(Stop::Line)?;
    assert_said(
        &rt,
        ends_of(settings),
        "(Equipment, Passive) (1, 257, 9)",
        "ends",
    );
    assert_said(
        &rt,
        timeouts_of(settings),
        "(3, 6, 7, 8) (1, 2)",
        "timeouts",
    );
    Ok(())
}
