//! A time of a log, as it is written.

use jiff::Timestamp;
use std::fmt;

/// A time in ms. It is written as it is, or, if `utc` is set, as a date. The date is in UTC, counted from the start of
/// 1970, to the millisecond, up to the end of the year 9999.
#[derive(Clone, Copy)]
pub struct Moment {
    pub time: u64,
    pub utc: bool,
}

impl Moment {
    /// Returns the date. `None` if the time is written in ms.
    pub fn date(self) -> Option<Date> {
        if !self.utc {
            return None;
        }
        let ms = i64::try_from(self.time).ok()?;
        let timestamp = Timestamp::from_millisecond(ms).ok()?;
        Some(Date { timestamp })
    }
}

impl fmt::Display for Moment {
    fn fmt<W: fmt::Write>(&self, f: &mut fmt::Formatter<W>) -> fmt::Result {
        match self.date() {
            Some(date) => write!(f, "{date}"),
            None => {
                let time = self.time;
                write!(f, "{time}")
            }
        }
    }
}

/// A date and its time in UTC, to the millisecond.
#[derive(Clone, Copy)]
pub struct Date {
    timestamp: Timestamp,
}

impl fmt::Display for Date {
    fn fmt<W: fmt::Write>(&self, f: &mut fmt::Formatter<W>) -> fmt::Result {
        let timestamp = self.timestamp;
        write!(f, "{timestamp:.3}")
    }
}
