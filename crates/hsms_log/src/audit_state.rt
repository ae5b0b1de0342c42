ghost use Rattle.std.specs.Prelude.{◌≡◌};
ghost use Rattle.hsms_log.specs.AuditState.{message_size};

use crate::entry_check::{carried_entry, check_entry_line};
use crate::ranges::{entry_is_in_range, settings_are_in_range};
use crate::settings_line::read_settings;
use crate::tally::Tally;
use crate::verdict::{Verdict, Why};
use hsms_machine::{Entry, Event, Settings, Tracker};
use std::alloc::{AllocError, Global};

/// The maximum number of bytes of the settings line, without its end.
pub const SETTINGS_LIMIT: usize = 256;

/// The settings of a log, and the tracker that checks its entries.
#[derive(Drop)]
pub struct Session {
    pub settings: Settings,
    pub tracker: Tracker,
}

/// The state of an audit between two lines, and a buffer for the bytes of a frame, reused from line to line.
#[derive(Drop)]
pub struct LineChecker {
    pub session: Option<Session>,
    pub tally: Tally,
    pub octets: Vec<u8>,
}

impl LineChecker {
    ghost use Rattle.std.specs.Prelude.{◌≡◌, ◌↔◌, ◌+◌, ◌-◌, ◌<◌, ◌^◌, ◌++◌, [], ◌∷◌, List, ℕ, None, IfOk, IsSome, IsTrue};
    ghost use Rattle.hsms_log.specs.Verdict.{LinesAudited};
    ghost use Rattle.hsms_log.specs.AuditState.{Allows, Follows, limit_after};
    ghost use Rattle.hsms_log.specs.InnerAuditState.{IsChecked};
    ghost use Rattle.hsms_log.specs.LineFormat.{IsComment, entry_line};

    pub fn new(alloc: Global) -> LineChecker
        ensures { Follows result [] }
    {
        LineChecker {
            session: None,
            tally: Tally::default(),
            octets: Vec::new(alloc),
        }
    }

    /// Checks the next line. Returns why it fails, if it does.
    pub fn line(&mut self, alloc: Global, line: &[u8]) -> Result<Option<Why>, AllocError>
        requires { self.old.tally.lines < 2 ^ 64 - 1 }
        ensures { IfOk result (IsChecked self.old.tally.lines self.new.tally.lines (Follows self.old) (Follows self.new) line.now) }
    {
        match &mut self.session {
            None => Ok(self.first_line(alloc, line)),
            Some(session) => {
                check_entry_line(session, &mut self.tally, &mut self.octets, alloc, line)
            }
        }
    }

    /// Checks an entry in place of its line. Returns why it fails, if it does.
    pub fn entry(&mut self, entry: &Entry) -> Result<Option<Why>, AllocError>
        requires room { self.old.tally.lines < 2 ^ 64 - 1 }
        requires allowed { Allows self.old.session entry.now }
        ensures { IfOk result (IsChecked self.old.tally.lines self.new.tally.lines (Follows self.old) (Follows self.new) (entry_line entry.now)) }
    {
        match &mut self.session {
            None => Ok(Some(Why::Unreadable)),
            Some(session) => {
                entry_is_in_range(entry);
                carried_entry(session, &mut self.tally, entry)
            }
        }
    }

    /// Returns whether an entry can be checked in place of its line.
    pub fn allows(&self, entry: &Entry) -> bool
        ensures { IsTrue result ↔ Allows self.now.session entry.now }
    {
        match &self.session {
            None => false,
            Some(session) => size_of(&entry.event) <= u64::from(session.settings.max()),
        }
    }

    /// Counts a line that is a comment.
    pub fn comment(&mut self)
        requires room { self.old.tally.lines < 2 ^ 64 - 1 }
        requires settings { IsSome self.old.session }
        ensures follows { (before : List (List ℕ)) (line : List ℕ) → IsComment line → Follows self.old before → Follows self.new (before ++ line ∷ []) }
        ensures number { self.new.tally.lines ≡ self.old.tally.lines + 1 }
    {
        if let Some(session) = &self.session {
            settings_are_in_range(&session.settings);
            self.tally.count_line();
        }
    }

    /// Checks the first line. Returns why it fails, if it does.
    #[inline(never)]
    fn first_line(&mut self, alloc: Global, line: &[u8]) -> Option<Why>
        requires first { self.old.session ≡ None }
        requires room { self.old.tally.lines < 2 ^ 64 - 1 }
        ensures { IsChecked self.old.tally.lines self.new.tally.lines (Follows self.old) (Follows self.new) line.now result }
    {
        let Some(settings) = read_settings(line) else {
            return Some(Why::Unreadable);
        };
        let tracker = Tracker::new(alloc, settings);
        self.session = Some(Session { settings, tracker });
        self.tally.count_line();
        None
    }

    /// Returns the verdict if the next line fails.
    pub fn failure(&self, why: Why) -> Verdict
        requires { self.now.tally.lines < 2 ^ 64 - 1 }
        ensures { result ≡ Verdict.Fail (self.now.tally.lines + 1) why }
    {
        let line = self.tally.lines() + 1;
        Verdict::Fail { line, why }
    }

    /// Returns the verdict if no line follows.
    pub fn verdict(&self) -> Verdict
        ensures { (lines : List (List ℕ)) → Follows self.now lines → LinesAudited lines result }
    {
        match &self.session {
            None => Verdict::Fail {
                line: 1,
                why: Why::Unreadable,
            },
            Some(session) => Verdict::Pass(self.tally.summary(session.tracker.waiting() as u64)),
        }
    }

    /// Returns the maximum length of the next line, without its end.
    pub fn line_limit(&self) -> usize
        ensures value { result ≡ limit_after self.now.session }
        ensures small { result < 2 ^ 33 }
    {
        match &self.session {
            None => SETTINGS_LIMIT,
            Some(session) => 2 * session.settings.max() as usize + 64,
        }
    }
}

/// Returns the number of bytes of header and text of an event's message.
fn size_of(event: &Event) -> u64
    ensures { result ≡ message_size event.now }
{
    match event {
        Event::Sent(frame) | Event::Taken(frame) | Event::Discarded(frame) => frame.length(),
        _ => 0,
    }
}
