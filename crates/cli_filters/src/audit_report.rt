//! `hsms audit` of several logs: a line for each, and their counts.

use crate::audit_error::AuditError;
use cli_output::verdict_line;
use hsms_frame::{Sink, Source, give_all};
use hsms_log::{Verdict, audit};
use std::alloc::{AllocError, Global};

/// What the audits of several logs have found so far. A count stays at its maximum, 18,446,744,073,709,551,615.
#[derive(Clone, Copy)]
pub struct AuditReport {
    /// True if only the lines of failing logs are written.
    pub quiet: bool,
    /// How many logs passed.
    pub passed: u64,
    /// How many logs failed.
    pub failed: u64,
    /// How many files could not be opened.
    pub unopened: u64,
}

impl AuditReport {
    ghost use Rattle.std.specs.Prelude.{◌≡◌, IfOk, option_map, string_bytes};
    ghost use Rattle.hsms_frame.specs.CallCounts.{next_count};
    ghost use Rattle.hsms_frame.specs.Io.{IfRecorded};
    ghost use Rattle.hsms_log.specs.Auditing.{HasEnded};
    ghost use Rattle.cli_filters.specs.Audit.{AuditsAsText, CountsVerdict, writes_after};
    ghost use Rattle.cli_filters.specs.AuditReport.{after_audit, after_verdict, counts_line, report_line, report_status};

    /// Creates a report on no log.
    pub fn new(quiet: bool) -> AuditReport
        ensures { result ≡ record { quiet = quiet; passed = 0; failed = 0; unopened = 0 } }
    {
        AuditReport {
            quiet,
            passed: 0,
            failed: 0,
            unopened: 0,
        }
    }

    /// Audits a log, counts it, and writes its line, as [`verdict_to`](crate::verdict_to) does: the name of its file, if
    /// that is given, and the verdict. If only the lines of failing logs are written, the line of a pass is left out.
    ///
    /// # Errors
    ///
    /// Those of [`verdict_to`](crate::verdict_to). The log is not counted.
    pub fn audit<R: Source, W: Sink>(
        &mut self,
        alloc: Global,
        name: Option<&str>,
        source: &mut R,
        sink: &mut W,
    ) -> Result<Verdict, AuditError>
        ensures line { IfRecorded (R.state source.old).left (λ input.
            AuditsAsText (report_line self.old.quiet (option_map (λ name. name.now) name.entry)) input result
            (R.state source.new).left (HasEnded (R.state source.old).ends (R.state source.new).ends)
            (W.state sink.old).written (W.state sink.new).written) }
        ensures reads { CountsVerdict result (R.state source.old) (R.state source.new) }
        ensures writes { (W.state sink.new).failures ≡ writes_after result (W.state sink.old).failures }
        ensures counts { self.new ≡ after_audit self.old result }
    {
        let verdict = audit(alloc, source)?;
        let line = self.line(alloc, name, verdict)?;
        give_all(sink, line.as_bytes())?;
        *self = self.counting(verdict);
        Ok(verdict)
    }

    // Returns the line of a log.
    fn line(self, alloc: Global, name: Option<&str>, verdict: Verdict) -> Result<String, AllocError>
        ensures { IfOk result (λ line. string_bytes line
            ≡ report_line self.quiet (option_map (λ name. name.now) name.entry) verdict) }
    {
        if self.quiet && matches!(verdict, Verdict::Pass(_)) {
            return Ok(String::new(alloc));
        }
        let line = verdict_line(alloc, verdict)?;
        match name {
            Some(name) => format!(in alloc; "{name}: {line}"),
            None => Ok(line),
        }
    }

    /// Returns the report after one more log.
    pub fn counting(self, verdict: Verdict) -> AuditReport
        ensures { result ≡ after_verdict self verdict }
    {
        match verdict {
            Verdict::Pass(_) => AuditReport {
                passed: self.passed.saturating_add(1),
                ..self
            },
            Verdict::Fail { .. } => AuditReport {
                failed: self.failed.saturating_add(1),
                ..self
            },
        }
    }

    /// Counts a file that cannot be opened.
    pub fn skip(&mut self)
        ensures { self.new ≡ record self.old { unopened = next_count self.old.unopened } }
    {
        self.unopened = self.unopened.saturating_add(1);
    }

    /// Returns the last line: the counts. If only the lines of failing logs are written, it is empty.
    pub fn last_line(self, alloc: Global) -> Result<String, AllocError>
        ensures { IfOk result (λ line. string_bytes line ≡ counts_line self) }
    {
        if self.quiet {
            return Ok(String::new(alloc));
        }
        format!(in alloc;
            "logs passed={} failed={} unopened={}\n",
            self.passed, self.failed, self.unopened
        )
    }

    /// Returns the status with which the command ends: 2 if a file cannot be opened, otherwise 1 if a log fails,
    /// otherwise 0.
    pub fn status(self) -> u8
        ensures { result ≡ report_status self }
    {
        if self.unopened > 0 {
            2
        } else if self.failed > 0 {
            1
        } else {
            0
        }
    }
}
