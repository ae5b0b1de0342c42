//! A histogram of times.

ghost use Rattle.std.specs.Prelude.{◌≡◌, ◌<◌, ◌^◌};
ghost use Rattle.explain_statistics.specs.InnerHistogram.{time_at, IsNear};

use std::alloc::{AllocError, Global};

// The number of counters: 256 for the times below 256 ms, and 128 for each further power of two below 2^32 ms.
const PLACES: usize = 3328;

// The maximum number of times that a time is halved until it is below 256.
const HALVINGS: usize = 24;

/// Times in ms, counted by their eight highest binary digits. A returned time is less than one part in 128 too low. A
/// time of 2^32 ms or more is counted as the maximum below.
#[derive(Drop)]
pub struct Histogram {
    counts: Vec<u64>,
    all: u64,
}

impl Histogram {
    /// Creates a histogram without times.
    pub fn new(alloc: Global) -> Result<Histogram, AllocError> {
        let counts = vec![in alloc; 0u64; PLACES]?;
        Ok(Histogram { counts, all: 0 })
    }

    /// Counts a time.
    pub fn count(&mut self, ms: u64) {
        if let Some(count) = self.counts.get_mut(place_of(ms)) {
            *count = count.saturating_add(1);
            self.all = self.all.saturating_add(1);
        }
    }

    /// Returns the minimum time that at least half of the times do not exceed.
    pub fn median(&self) -> u64 {
        self.time_at(self.all - self.all / 2)
    }

    /// Returns the minimum time that at least 99 of 100 times do not exceed.
    pub fn most(&self) -> u64 {
        self.time_at(self.all - self.all / 100)
    }

    // Returns the time of this rank, from 1, in increasing order.
    fn time_at(&self, rank: u64) -> u64 {
        let mut so_far = 0u64;
        for (place, count) in self.counts.iter().enumerate() {
            so_far = so_far.saturating_add(*count);
            if so_far >= rank {
                return time_of(place);
            }
        }
        0
    }
}

// Returns the index of the counter of a time.
fn place_of(ms: u64) -> usize
    ensures within { result < 3328 }
    ensures near { ms < 2 ^ 32 → IsNear ms (time_at result) }
{
    let mut rest = ms.min(u64::from(u32::MAX));
    for halvings in 0..HALVINGS {
        if rest < 256 {
            return 128 * halvings + rest as usize;
        }
        rest /= 2;
    }
    128 * HALVINGS + (rest % 256) as usize
}

// Returns the minimum time that a counter counts.
fn time_of(place: usize) -> u64
    ensures { place < 3328 → result ≡ time_at place }
{
    if place < 256 {
        return place as u64;
    }
    let halvings = (place / 128 - 1).min(HALVINGS);
    let rest = 128 + (place % 128) as u64;
    rest.saturating_mul(1 << halvings)
}
