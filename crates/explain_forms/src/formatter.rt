//! Output format of an explained log.

ghost use Rattle.std.specs.Prelude.{◌≡◌, ℕ, List};
ghost use Rattle.cli_options.specs.declared.explain_options.OutputFormat.TheVariants.{Text};
ghost use Rattle.explain_forms.specs.OutputBuffer.{Adds, AddsSome};
ghost use Rattle.explain_forms.specs.TextOutput.{LineWritten, gap_text};

use crate::html_links::{Links, Skipped};
use crate::json::AsObject;
use crate::output_buffer::Page;
use crate::{html, json, text};
use cli_options::{Excerpt, OutputFormat};
use explain_lines::{ExplainedLine, Gap, Jump, Note, Unjudged};
use explain_statistics::{Doubt, Groups, Listed, Lists, Primaries, Tally};
use hsms_machine::Settings;
use std::alloc::AllocError;
use std::fmt;

/// Writes the output in the selected format, with times in ms or as dates.
#[derive(Clone, Copy)]
pub struct Emitter {
    pub form: OutputFormat,
    utc: bool,
}

impl Emitter {
    /// Creates the emitter for these options.
    pub fn new(excerpt: Excerpt) -> Emitter
        ensures { result.form ≡ excerpt.form }
    {
        Emitter {
            form: excerpt.form,
            utc: excerpt.utc,
        }
    }

    /// Writes what precedes all lines.
    pub fn begin(self, page: &mut Page)
        ensures { self.form ≡ Text → page.new ≡ page.old }
    {
        match self.form {
            OutputFormat::Text | OutputFormat::Json => {}
            OutputFormat::Html => html::begin(page, self.utc),
        }
    }

    /// Writes the roles of the two endpoints, before the lines of a log with these settings.
    pub fn ends(self, page: &mut Page, settings: Settings)
        ensures { self.form ≡ Text → page.new ≡ page.old }
    {
        match self.form {
            OutputFormat::Text | OutputFormat::Json => {}
            OutputFormat::Html => html::write_ends(page, settings),
        }
    }

    /// Writes what follows all lines. From line `shortened` on only failures are shown.
    pub fn end_lines(self, page: &mut Page, links: &Links, shortened: Option<u64>)
        ensures { self.form ≡ Text → page.new ≡ page.old }
    {
        match self.form {
            OutputFormat::Text | OutputFormat::Json => {}
            OutputFormat::Html => html::end_lines(page, links, shortened),
        }
    }

    /// Writes a line and its annotations.
    pub fn line(
        self,
        page: &mut Page,
        links: &mut Links,
        shown_line: ExplainedLine<'_, '_>,
        notes: &[Note],
    )
        ensures { self.form ≡ Text → (words : List ℕ) × LineWritten shown_line.entry notes.now words × Adds page.old page.new words }
    {
        match self.form {
            OutputFormat::Text => text::write_line(page, shown_line, notes, self.utc),
            OutputFormat::Json => json::write_line(page, shown_line, notes, self.utc),
            OutputFormat::Html => html::write_line(page, links, shown_line, notes, self.utc),
        }
    }

    /// Writes an earlier line, which a failure names, and its annotations.
    pub fn named_line(
        self,
        page: &mut Page,
        links: &mut Links,
        shown_line: ExplainedLine<'_, '_>,
        notes: &[Note],
    )
        ensures { self.form ≡ Text → AddsSome page.old page.new }
    {
        match self.form {
            OutputFormat::Text => text::write_line(page, shown_line, notes, self.utc),
            OutputFormat::Json => json::write_line(page, shown_line, notes, self.utc),
            OutputFormat::Html => html::write_named_line(page, links, shown_line, notes, self.utc),
        }
    }

    /// Writes that the next line is not the one after the last line written.
    pub fn jump(self, page: &mut Page, jump: Jump)
        ensures { self.form ≡ Text → AddsSome page.old page.new }
    {
        match self.form {
            OutputFormat::Text => text::write_gap(page),
            OutputFormat::Json => {}
            OutputFormat::Html => html::write_jump(page, jump),
        }
    }

    /// Records a line that is not written, with its annotations.
    pub fn skip(
        self,
        links: &mut Links,
        skipped: Skipped,
        notes: &[Note],
    ) -> Result<(), AllocError> {
        match self.form {
            OutputFormat::Text | OutputFormat::Json => Ok(()),
            OutputFormat::Html => links.skip(skipped, notes),
        }
    }

    /// Writes that lines are skipped.
    pub fn gap(self, page: &mut Page, links: &mut Links, gap: Gap)
        ensures { self.form ≡ Text → Adds page.old page.new gap_text }
    {
        match self.form {
            OutputFormat::Text => text::write_gap(page),
            OutputFormat::Json => json::write_object(page, &gap),
            OutputFormat::Html => html::write_gap(page, links, gap),
        }
    }

    /// Writes that nothing was checked.
    pub fn unjudged(self, page: &mut Page, unjudged: Unjudged)
        ensures { self.form ≡ Text → AddsSome page.old page.new }
    {
        match self.form {
            OutputFormat::Html => html::write_words(page, "<p>", &unjudged),
            OutputFormat::Text | OutputFormat::Json => self.remark(page, &unjudged),
        }
    }

    /// Writes which settings in line 1 no entry agrees with.
    pub fn doubts(self, page: &mut Page, doubts: &[Option<Doubt>])
        ensures { self.form ≡ Text → AddsSome page.old page.new }
    {
        for doubt in doubts {
            self.doubt(page, *doubt);
        }
    }

    fn doubt(self, page: &mut Page, doubt: Option<Doubt>)
        ensures { self.form ≡ Text → AddsSome page.old page.new }
    {
        match self.form {
            OutputFormat::Html => html::write_doubt(page, doubt),
            OutputFormat::Text | OutputFormat::Json => self.optional(page, doubt),
        }
    }

    /// Writes for each group the number of its failures, or the number of those not written in full.
    pub fn groups(self, page: &mut Page, groups: &Groups)
        ensures { self.form ≡ Text → AddsSome page.old page.new }
    {
        match self.form {
            OutputFormat::Html => html::write_groups(page, groups),
            OutputFormat::Text | OutputFormat::Json => self.rests(page, groups),
        }
    }

    // Writes for each group the number of failures not written in full.
    fn rests(self, page: &mut Page, groups: &Groups)
        ensures { self.form ≡ Text → AddsSome page.old page.new }
    {
        for group in groups.iter() {
            self.optional(page, group.rest());
        }
    }

    /// Writes how often each rule was broken.
    pub fn failures(self, page: &mut Page, tally: &Tally)
        ensures { self.form ≡ Text → AddsSome page.old page.new }
    {
        match self.form {
            OutputFormat::Html => html::write_words(page, "<p class=\"counts\">", tally),
            OutputFormat::Text | OutputFormat::Json => self.remark(page, tally),
        }
    }

    /// Writes the outcomes of the primaries of each kind.
    pub fn primaries(self, page: &mut Page, links: &Links, primaries: &Primaries)
        ensures { self.form ≡ Text → AddsSome page.old page.new }
    {
        match self.form {
            OutputFormat::Html => html::write_primaries(page, links, primaries),
            OutputFormat::Text | OutputFormat::Json => self.outcomes(page, primaries),
        }
    }

    /// Writes the lists of primaries.
    pub fn lists(self, page: &mut Page, links: &Links, lists: &Lists)
        ensures { self.form ≡ Text → AddsSome page.old page.new }
    {
        match lists.all(page.alloc()) {
            Ok(all) => self.listed(page, links, &all),
            Err(_) => page.refuse(),
        }
    }

    fn listed(self, page: &mut Page, links: &Links, all: &[Listed])
        ensures { self.form ≡ Text → AddsSome page.old page.new }
    {
        for listed in all {
            self.list_item(page, links, listed);
        }
    }

    fn list_item(self, page: &mut Page, links: &Links, listed: &Listed)
        ensures { self.form ≡ Text → AddsSome page.old page.new }
    {
        match self.form {
            OutputFormat::Html => html::write_listed(page, links, listed),
            OutputFormat::Text | OutputFormat::Json => self.remark(page, listed),
        }
    }

    fn outcomes(self, page: &mut Page, primaries: &Primaries)
        ensures { self.form ≡ Text → AddsSome page.old page.new }
    {
        for place in 0..primaries.len() {
            self.optional(page, primaries.outcome(place));
        }
    }

    // Writes a remark, if there is one.
    fn optional<T: fmt::Display + AsObject + Drop>(self, page: &mut Page, remark: Option<T>)
        ensures { self.form ≡ Text → AddsSome page.old page.new }
    {
        match remark {
            Some(remark) => self.remark(page, &remark),
            None => {}
        }
    }

    // Writes a remark on a line of its own, as text or as an object.
    fn remark<T: fmt::Display + AsObject>(self, page: &mut Page, remark: &T)
        ensures { self.form ≡ Text → AddsSome page.old page.new }
    {
        match self.form {
            OutputFormat::Text => text::write_words(page, remark),
            OutputFormat::Json => json::write_object(page, remark),
            OutputFormat::Html => {}
        }
    }
}
