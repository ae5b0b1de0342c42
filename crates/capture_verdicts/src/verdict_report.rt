//! The lines of the verdicts, and the result.

ghost use Rattle.std.specs.Prelude.{◌≡◌, [], IfOk, IfErr, OnOk, None, Some};
ghost use Rattle.capture_log.specs.Stop.{IsNoRefusal};
ghost use Rattle.capture_verdicts.specs.VerdictReport.{fails_log, shortfall_or};
ghost use Rattle.capture_verdicts.specs.ReportState.{ReportIs, Takes};
ghost use Rattle.capture_verdicts.specs.InnerReportState.{AppendsLines, AreAlike, Concludes, HasOpened, HaveVerdicts, LogsOn, SetsLog};

use crate::pair_logs::PairLogs;
use crate::skipped_packets::SkippedPackets;
use crate::verdict_line::end_line;
use capture_events::{Event, LogItem, Shortfall};
use capture_log::{LogVerdict, Pair, Stop, Text};
use capture_tcp::Side;
use hsms_log::Verdict;
use hsms_machine::{Role, Settings};
use indexmap::IndexMap;
use std::alloc::Global;

/// The verdicts on the logs of the connections of a capture, from its events so far.
#[derive(Drop)]
pub struct VerdictReport {
    active: Settings,
    passive: Settings,
    // The logs of both endpoints of each connection that has items and has not ended.
    logs: IndexMap<Pair, PairLogs>,
    shortfall: Option<Shortfall>,
    has_failed: bool,
    has_verdicts: bool,
    counts: SkippedPackets,
    // The lines that are not written yet.
    page: Text,
}

// The verdicts on the logs of both endpoints, if the connection has items.
#[derive(Clone, Copy)]
struct LogVerdicts {
    active: Option<LogVerdict>,
    passive: Option<LogVerdict>,
}

impl VerdictReport {
    /// Creates a report without events.
    pub fn new(alloc: Global, active: Settings, passive: Settings) -> VerdictReport
        ensures blank { ReportIs active passive [] [] result }
        ensures page { result.page.octets ≡ [] }
    {
        VerdictReport {
            active,
            passive,
            logs: IndexMap::new(alloc),
            shortfall: None,
            has_failed: false,
            has_verdicts: false,
            counts: SkippedPackets::new(),
            page: Text::new(alloc),
        }
    }

    /// Processes an event.
    ///
    /// # Errors
    ///
    /// Returns `Memory` if an allocation fails, or if a log may have more than 2^62 lines.
    pub fn take(&mut self, alloc: Global, event: Event) -> Result<(), Stop>
        ensures takes { OnOk result (Takes event self.old self.new) }
        ensures unrefused { IfErr result IsNoRefusal }
    {
        are_alike::<Pair>();
        match event {
            Event::Logged(pair, item) => self.log(alloc, pair, item),
            Event::Ended(pair, shortfall) => self.conclude(alloc, pair, shortfall),
            Event::Incomplete(shortfall) => {
                self.note(shortfall);
                Ok(())
            }
            Event::Skipped(reason) => {
                self.counts.count(reason);
                Ok(())
            }
        }
    }

    // Logs an item of the pair's connection at both endpoints.
    fn log(&mut self, alloc: Global, pair: Pair, item: LogItem) -> Result<(), Stop>
        ensures logs { OnOk result (LogsOn pair item self.old self.new) }
        ensures unrefused { IfErr result IsNoRefusal }
    {
        let mut both = self.take_logs(alloc, &pair)?;
        both.log(alloc, item)?;
        if self.logs.insert(pair, both).is_err() {
            return Err(Stop::Memory);
        }
        Ok(())
    }

    // Removes and returns the logs of a pair. Creates them if there are none.
    fn take_logs(&mut self, alloc: Global, pair: &Pair) -> Result<PairLogs, Stop>
        ensures logs { IfOk result (HasOpened self.old pair.now) }
        ensures gone { SetsLog pair.now None self.old self.new }
        ensures unrefused { IfErr result IsNoRefusal }
    {
        match self.logs.swap_remove(pair) {
            Some(both) => Ok(both),
            None => PairLogs::new(alloc, &self.active, &self.passive),
        }
    }

    // Appends the lines of a connection that has ended.
    fn conclude(
        &mut self,
        alloc: Global,
        pair: Pair,
        shortfall: Option<Shortfall>,
    ) -> Result<(), Stop>
        ensures concludes { OnOk result (Concludes pair shortfall self.old self.new) }
        ensures unrefused { IfErr result IsNoRefusal }
    {
        let verdicts = self.take_verdicts(alloc, &pair)?;
        self.has_verdicts = true;
        self.note_if(shortfall);
        self.append_lines(alloc, &pair, shortfall, verdicts.active, verdicts.passive)
    }

    // Removes the logs of a pair, and returns the verdicts on them.
    fn take_verdicts(&mut self, alloc: Global, pair: &Pair) -> Result<LogVerdicts, Stop>
        ensures says { IfOk result (HaveVerdicts self.old pair.now) }
        ensures gone { SetsLog pair.now None self.old self.new }
        ensures unrefused { IfErr result IsNoRefusal }
    {
        match self.logs.swap_remove(pair) {
            Some(both) => {
                let (active, passive) = both.verdicts(alloc)?;
                Ok(LogVerdicts {
                    active: Some(active),
                    passive: Some(passive),
                })
            }
            None => Ok(LogVerdicts {
                active: None,
                passive: None,
            }),
        }
    }

    // Records what is missing, if anything is.
    fn note_if(&mut self, shortfall: Option<Shortfall>)
        ensures { self.new ≡ record self.old { shortfall = shortfall_or self.old.shortfall shortfall } }
    {
        if let Some(shortfall) = shortfall {
            self.note(shortfall);
        }
    }

    // Records what is missing, unless something was missing before.
    fn note(&mut self, shortfall: Shortfall)
        ensures { self.new ≡ record self.old { shortfall = shortfall_or self.old.shortfall (Some shortfall) } }
    {
        if self.shortfall.is_none() {
            self.shortfall = Some(shortfall);
        }
    }

    // Appends the lines of both endpoints.
    fn append_lines(
        &mut self,
        alloc: Global,
        pair: &Pair,
        shortfall: Option<Shortfall>,
        active: Option<LogVerdict>,
        passive: Option<LogVerdict>,
    ) -> Result<(), Stop>
        ensures verdict { OnOk result (AppendsLines
            (record { pair = pair.now; shortfall = shortfall; active = active; passive = passive }) self.old self.new) }
        ensures unrefused { IfErr result IsNoRefusal }
    {
        let line = end_line(
            alloc,
            pair,
            self.active.role(),
            Side::Active,
            shortfall,
            active,
        )?;
        self.page.append_chunk(line.as_bytes())?;
        let line = end_line(
            alloc,
            pair,
            self.passive.role(),
            Side::Passive,
            shortfall,
            passive,
        )?;
        self.page.append_chunk(line.as_bytes())?;
        self.has_failed = self.has_failed || fails(active) || fails(passive);
        Ok(())
    }
}

// Shows that `==` is an equivalence.
fn are_alike<K: Eq>()
    ensures { AreAlike K.eq }
{}

// Returns true if a log fails.
fn fails(verdict: Option<LogVerdict>) -> bool
    ensures { result ≡ fails_log verdict }
{
    match verdict {
        None => false,
        Some(verdict) => match verdict.verdict {
            Verdict::Pass(_) => false,
            Verdict::Fail { .. } => true,
        },
    }
}
