//! A log, explained line by line and checked.

use crate::audit_state::Stage;
use crate::log_line::emit_line;
use crate::report::Report;
use cli_options::Excerpt;
use explain_lines::Unjudged;
use hsms_log::{Verdict, split_at_first, without_carriage_return};
use std::alloc::{AllocError, Global};

/// Explains and checks a log that arrives in chunks. Of an incomplete line, it buffers no more bytes than make the line
/// too long.
pub struct Explainer {
    held: Vec<u8>,
    stage: Stage,
    octets: Vec<u8>,
    pub report: Report,
}

// Written out so that a proof has one step for a dropped value, not one for each field.
impl Drop for Explainer {
    fn drop(self) {
        let Explainer {
            held,
            stage,
            octets,
            report,
        } = self;
        drop(held);
        drop(stage);
        drop(octets);
        drop(report);
    }
}

impl Explainer {
    ghost use Rattle.std.specs.Prelude.{◌≡◌, ◌+◌, ◌<◌, ◌≤◌, ◌^◌, ◌++◌, ◌∷◌, [], ℕ, List, OnOk, IfOk, length, take};
    ghost use Rattle.hsms_log.specs.Lines.{HasNone, lines_of};
    ghost use Rattle.hsms_log.specs.Verdict.{HasAuditVerdict, LinesAudited};
    ghost use Rattle.cli_options.specs.declared.explain_options.OutputFormat.TheVariants.{Text};
    ghost use Rattle.cli_explain.specs.InnerFirstFailureOutput.{IsOfFirst, KeepsShown, ShowsWith};
    ghost use Rattle.cli_explain.specs.InnerLinesProcessed.{HasProcessed, ProcessedAfter};

    /// Creates an explainer that has read nothing.
    pub fn new(alloc: Global, excerpt: Excerpt) -> Result<Explainer, AllocError>
        ensures reception { IfOk result (λ explainer. HasProcessed explainer []) }
        ensures shown { IfOk result (λ explainer. excerpt.form ≡ Text → ShowsWith excerpt explainer.report [] []) }
    {
        let report = Report::new(alloc, excerpt)?;
        Ok(Explainer {
            held: Vec::new(alloc),
            stage: Stage::Unjudged(0),
            octets: Vec::new(alloc),
            report,
        })
    }

    /// Processes the next bytes of the log, and writes each line that ends in them.
    pub fn take(&mut self, alloc: Global, octets: &[u8]) -> Result<(), AllocError>
        ensures reception { OnOk result ((text : List ℕ) → HasProcessed self.old text → HasProcessed self.new (text ++ octets.now)) }
        ensures shown { OnOk result (KeepsShown self.old.report self.new.report) }
    {
        let mut rest = octets;
        while let Some((part, more)) = split_at_first(rest, b'\n') {
            self.end_line(alloc, part)?;
            rest = more;
        }
        self.hold(rest)
    }

    // Writes the line that ends with `part`. If nothing is buffered, the line is not copied.
    fn end_line(&mut self, alloc: Global, part: &[u8]) -> Result<(), AllocError>
        ensures reception { OnOk result ((text : List ℕ) → HasNone 10 part.now → HasProcessed self.old text
            → HasProcessed self.new (text ++ (part.now ++ 10 ∷ []))) }
        ensures shown { OnOk result (KeepsShown self.old.report self.new.report) }
    {
        if self.held.is_empty() {
            return emit_line(
                alloc,
                &mut self.stage,
                &mut self.octets,
                &mut self.report,
                without_carriage_return(part),
            );
        }
        self.hold(part)?;
        self.emit_held(alloc)
    }

    // Writes the buffered line.
    fn emit_held(&mut self, alloc: Global) -> Result<(), AllocError>
        ensures reception { OnOk result ((text : List ℕ) → HasProcessed self.old text → HasProcessed self.new (text ++ 10 ∷ [])) }
        ensures shown { OnOk result (KeepsShown self.old.report self.new.report) }
    {
        let shown_line = emit_line(
            alloc,
            &mut self.stage,
            &mut self.octets,
            &mut self.report,
            without_carriage_return(&self.held),
        );
        self.held.clear();
        shown_line
    }

    // Buffers further bytes of a line, but no more than make the line too long.
    fn hold(&mut self, part: &[u8]) -> Result<(), AllocError>
        ensures reception { OnOk result ((text : List ℕ) → HasNone 10 part.now → HasProcessed self.old text → HasProcessed self.new (text ++ part.now)) }
        ensures report { self.new.report ≡ self.old.report }
    {
        let room = (self.stage.limit() + 2).saturating_sub(self.held.len());
        let kept = part.len().min(room);
        self.held.extend_from_slice(&part[..kept])
    }

    /// Writes the line that only the end of the input ended, and what follows all lines. Returns the verdict: the first
    /// failure of a line, or otherwise that the log passes.
    pub fn finish(&mut self, alloc: Global) -> Result<Verdict, AllocError>
        ensures gives_verdict { IfOk result (λ verdict. (text : List ℕ) → length text < 2 ^ 63 → HasProcessed self.old text → HasAuditVerdict text verdict) }
        ensures first { IfOk result (λ verdict. (text : List ℕ) → HasProcessed self.old text → (lines_of text ≡ [] → ⊥)
            → IsOfFirst verdict self.new.report.tally.first) }
        ensures shown { OnOk result (KeepsShown self.old.report self.new.report) }
    {
        self.end_last(alloc)?;
        let verdict = self.verdict();
        self.emit_rest();
        Ok(verdict)
    }

    // Writes what follows all lines.
    fn emit_rest(&mut self)
        ensures tally { self.new.report.tally ≡ self.old.report.tally }
        ensures shown { KeepsShown self.old.report self.new.report }
    {
        self.report.emit_gap(self.stage.lines());
        match &self.stage {
            Stage::Unjudged(lines) => {
                self.report
                    .emit_unjudged(Unjudged::without_settings(*lines))
            }
            Stage::Checked(known) => self.report.emit_end(known),
        }
    }

    // Writes the line that only the end of the input ended, if there is one.
    fn end_last(&mut self, alloc: Global) -> Result<(), AllocError>
        ensures shown_line { OnOk result ((text : List ℕ) → HasProcessed self.old text
            → ProcessedAfter self.new.stage self.new.report.tally (lines_of text) × (length (lines_of text) ≤ length text + 1)) }
        ensures shown { OnOk result (KeepsShown self.old.report self.new.report) }
    {
        if self.held.is_empty() {
            return Ok(());
        }
        self.emit_held(alloc)
    }

    // Returns the verdict on the processed lines.
    fn verdict(&self) -> Verdict
        ensures gives_verdict { (lines : List (List ℕ)) → length lines ≤ 2 ^ 63 → ProcessedAfter self.now.stage self.now.report.tally lines
            → LinesAudited lines result }
        ensures first { (lines : List (List ℕ)) → ProcessedAfter self.now.stage self.now.report.tally lines → (lines ≡ [] → ⊥)
            → IsOfFirst result self.now.report.tally.first }
    {
        match &self.stage {
            Stage::Unjudged(_) => self.report.tally.unjudged_verdict(),
            Stage::Checked(known) => self
                .report
                .tally
                .verdict(known.repaired_session.waiting() as u64),
        }
    }
}
