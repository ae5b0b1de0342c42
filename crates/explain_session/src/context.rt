//! Context of a log line: what the earlier lines showed.

ghost use Rattle.std.specs.Prelude.{◌≡◌, []};
ghost use Rattle.explain_session.specs.Clock.{steady};
ghost use Rattle.explain_session.specs.RepairedSession.{HasProgress};

use crate::clock::Clock;
use crate::history::Past;
use crate::repaired_session::RepairedSession;
use explain_statistics::{Lists, Primaries};
use hsms_machine::Settings;
use std::alloc::Global;

/// The settings of a log, its clock, its repaired session, the history of its connection, and the statistics and lists
/// of its primaries.
#[derive(Drop)]
pub struct Known {
    pub settings: Settings,
    pub clock: Clock,
    pub repaired_session: RepairedSession,
    pub(crate) past: Past,
    pub primaries: Primaries,
    pub lists: Lists,
}

impl Known {
    /// Creates the context after the first line of a log, with lists of primaries if these are requested.
    pub fn new(alloc: Global, settings: Settings, with_lists: bool) -> Known
        ensures settings { result.settings ≡ settings }
        ensures repaired_session { HasProgress settings [] [] result.repaired_session }
        ensures clock { result.clock ≡ steady }
        ensures line { result.repaired_session.line ≡ 1 }
    {
        Known {
            settings,
            clock: Clock::new(),
            repaired_session: RepairedSession::new(alloc, settings),
            past: Past::new(alloc, settings.t3()),
            primaries: Primaries::new(alloc),
            lists: Lists::new(alloc, with_lists),
        }
    }
}
