//! A report on logs, in one format.

use crate::json_object::unopened_object;
use crate::object_audit::write_object;
use crate::test_case::{CaseCounts, END, push_failure, push_pass, push_unopened};
use cli_explain::FirstFailure;
use cli_filters::{AuditError, AuditReport};
use cli_options::ReportForm;
use hsms_frame::{Reader, Sink, give_all};
use hsms_log::{Verdict, audit};
use std::alloc::{AllocError, Global};
use std::io::Read;

/// A report on logs, in one format.
#[derive(Drop)]
pub struct LogReport {
    form: ReportForm,
    counts: AuditReport,
    // The test cases so far, as XML of JUnit.
    cases: String,
}

impl LogReport {
    /// Creates a report on no log. If it is quiet, passing logs are left out.
    pub fn new(alloc: Global, form: ReportForm, quiet: bool) -> LogReport {
        LogReport {
            form,
            counts: AuditReport::new(quiet),
            cases: String::new(alloc),
        }
    }

    /// Audits the log in a file, and counts it. Its object is written, or its test case is kept.
    ///
    /// # Errors
    ///
    /// Those of [`verdict_to`](cli_filters::verdict_to).
    pub fn audit<I: Read + Drop, W: Sink>(
        &mut self,
        alloc: Global,
        file: &str,
        input: I,
        sink: &mut W,
    ) -> Result<(), AuditError> {
        match self.form {
            ReportForm::Json => {
                write_object(&mut self.counts, alloc, file, &mut Reader::new(input), sink)?;
                Ok(())
            }
            ReportForm::Junit => self.audit_case(alloc, file, input),
        }
    }

    // Audits the log in a file, counts it, and keeps its test case.
    fn audit_case<I: Read + Drop>(
        &mut self,
        alloc: Global,
        file: &str,
        input: I,
    ) -> Result<(), AuditError> {
        let mut log = FirstFailure::new(alloc, input)?;
        let verdict = audit(alloc, &mut Reader::new(&mut log))?;
        self.counts = self.counts.counting(verdict);
        match verdict {
            Verdict::Pass(_) => self.keep_pass(file)?,
            Verdict::Fail { line, why } => {
                let explained = log.explained(alloc)?;
                push_failure(&mut self.cases, file, line, why, &explained)?;
            }
        }
        Ok(())
    }

    fn keep_pass(&mut self, file: &str) -> Result<(), AllocError> {
        if self.counts.quiet {
            return Ok(());
        }
        push_pass(&mut self.cases, file)
    }

    /// Counts a file that cannot be opened. Its object is written, or its test case is kept.
    pub fn skip<W: Sink>(
        &mut self,
        alloc: Global,
        file: &str,
        sink: &mut W,
    ) -> Result<(), AuditError> {
        self.counts.skip();
        match self.form {
            ReportForm::Json => {
                let object = unopened_object(alloc, file)?;
                give_all(sink, object.as_bytes())?;
            }
            ReportForm::Junit => push_unopened(&mut self.cases, file)?,
        }
        Ok(())
    }

    /// Writes the test cases of all logs.
    pub fn finish<W: Sink>(&self, alloc: Global, sink: &mut W) -> Result<(), AuditError> {
        match self.form {
            ReportForm::Json => Ok(()),
            ReportForm::Junit => {
                let mut start = String::new(alloc);
                self.case_counts().push_start(&mut start)?;
                give_all(sink, start.as_bytes())?;
                give_all(sink, self.cases.as_bytes())?;
                give_all(sink, END.as_bytes())?;
                Ok(())
            }
        }
    }

    fn case_counts(&self) -> CaseCounts {
        let passed = if self.counts.quiet {
            0
        } else {
            self.counts.passed
        };
        let failures = self.counts.failed;
        let errors = self.counts.unopened;
        CaseCounts {
            tests: passed.saturating_add(failures).saturating_add(errors),
            failures,
            errors,
        }
    }

    /// Returns the status with which the command ends.
    pub fn status(&self) -> u8 {
        self.counts.status()
    }
}
