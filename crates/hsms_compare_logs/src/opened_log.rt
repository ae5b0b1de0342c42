//! A log whose settings were read.

use crate::bounded_audit::BoundedAudit;
use crate::entry_reader::EntryReader;
use crate::input::{Input, InputLine};
use crate::log_entries::LogEntries;
use crate::log_record::LogRecord;
use hsms_compare::ReadFault;
use hsms_frame::Source;
use hsms_log::{read_settings, without_carriage_return};
use hsms_machine::Settings;
use std::alloc::Global;

// The maximum number of bytes of the first line.
const SETTINGS_LIMIT: usize = 256;

/// A log whose settings were read, and the entries of its first connection.
#[derive(Drop)]
pub struct OpenedLog<R> {
    pub settings: Settings,
    pub entries: LogEntries<R>,
}

impl<R: Source + Drop> OpenedLog<R> {
    ghost use Rattle.std.specs.Prelude.{◌≡◌, ◌++◌, ◌∷◌, ℕ, Bool, List, Some, None, IfOk, IfSome};
    ghost use Rattle.hsms_machine.specs.Settings.{Parameters};
    ghost use Rattle.hsms_compare.specs.Conversation.{Line};
    ghost use Rattle.hsms_compare_logs.specs.Audited.{ReadsText};
    ghost use Rattle.hsms_compare_logs.specs.LogEntries.{HasEntries, HasSettings, connection_of, has_later_connections, is_open_connection};
    ghost use Rattle.hsms_compare_logs.specs.Connection.{LogLeft, ReadsConnection};
    ghost use Rattle.hsms_compare_logs.specs.InnerConnection.{IsFirstLine};

    /// Reads the settings of a log. Returns `None` if its first line encodes none.
    ///
    /// # Errors
    ///
    /// Returns `Read` if a read fails, `Endless` after 2^62 bytes, or `Memory` if an allocation fails.
    pub fn open(alloc: Global, source: R) -> Result<Option<OpenedLog<R>>, ReadFault>
        ensures settings { IfOk result (λ log. IfSome log (λ log. (text : List ℕ)
            → (R.state source).left ≡ Some text → HasSettings text log.settings)) }
        ensures entries { IfOk result (λ log. IfSome log (λ log. (text : List ℕ) (found : List Line)
            → (R.state source).left ≡ Some text → HasEntries text log.settings found
            → LogLeft log.entries.reader.input.block.items (R.state log.entries.reader.input.source).left log.entries.reader.max
            log.entries.reader.lines log.entries.reader.is_ended log.entries.next log.entries.is_down log.entries.is_followed
            (connection_of found) (is_open_connection found) (has_later_connections found))) }
        ensures text { IfOk result (λ log. IfSome log (λ log. (text : List ℕ) → (R.state source).left ≡ Some text
            → ReadsText text log.entries.reader.input.audit (R.state log.entries.reader.input.source).left)) }
        ensures connection { IfOk result (λ log. IfSome log (λ log. (text : List ℕ) → (R.state source).left ≡ Some text
            → ReadsConnection text log.entries.reader.input.block.items (R.state log.entries.reader.input.source).left
            log.entries.reader.max log.entries.reader.lines log.entries.reader.is_ended log.entries.next log.entries.is_down
            log.entries.is_followed log.entries.up log.entries.kept)) }
        ensures none { IfOk result (λ log. log ≡ None → (text : List ℕ) (s : Parameters)
            → (R.state source).left ≡ Some text → HasSettings text s → ⊥) }
    {
        let mut input = Input {
            source,
            audit: BoundedAudit::new(alloc),
            block: Vec::new(alloc),
        };
        match input.line(alloc, SETTINGS_LIMIT)? {
            InputLine::Ended(line) => Self::after(alloc, input, &line, false),
            InputLine::Last(line) => Self::after(alloc, input, &line, true),
            InputLine::TooLong => Ok(None),
        }
    }

    /// Reads the settings in the first line, and the first entry.
    fn after(
        alloc: Global,
        input: Input<R>,
        line: &[u8],
        is_ended: bool,
    ) -> Result<Option<OpenedLog<R>>, ReadFault>
        ensures settings { IfOk result (λ log. IfSome log (λ log. (text left : List ℕ)
            → IsFirstLine text line.now left is_ended → HasSettings text log.settings)) }
        ensures entries { IfOk result (λ log. IfSome log (λ log. (text octets : List ℕ) (found : List Line)
            → (R.state input.source).left ≡ Some octets → IsFirstLine text line.now (input.block.items ++ octets) is_ended
            → HasEntries text log.settings found
            → LogLeft log.entries.reader.input.block.items (R.state log.entries.reader.input.source).left log.entries.reader.max
            log.entries.reader.lines log.entries.reader.is_ended log.entries.next log.entries.is_down log.entries.is_followed
            (connection_of found) (is_open_connection found) (has_later_connections found))) }
        ensures text { IfOk result (λ log. IfSome log (λ log. (text : List ℕ) → ReadsText text input.audit (R.state input.source).left
            → ReadsText text log.entries.reader.input.audit (R.state log.entries.reader.input.source).left)) }
        ensures connection { IfOk result (λ log. IfSome log (λ log. (text octets : List ℕ)
            → (R.state input.source).left ≡ Some octets → IsFirstLine text line.now (input.block.items ++ octets) is_ended
            → ReadsConnection text log.entries.reader.input.block.items (R.state log.entries.reader.input.source).left
            log.entries.reader.max log.entries.reader.lines log.entries.reader.is_ended log.entries.next log.entries.is_down
            log.entries.is_followed log.entries.up log.entries.kept)) }
        ensures none { IfOk result (λ log. log ≡ None → (text left : List ℕ) (s : Parameters)
            → IsFirstLine text line.now left is_ended → HasSettings text s → ⊥) }
    {
        let Some(settings) = read_settings(without_carriage_return(line)) else {
            return Ok(None);
        };
        let mut reader = EntryReader {
            input,
            max: settings.max(),
            lines: 1,
            is_ended,
        };
        let up = reader.skip_to_up(alloc)?;
        let mut entries = LogEntries {
            reader,
            up,
            kept: LogRecord::new(alloc),
            next: None,
            is_down: false,
            is_followed: false,
        };
        entries.advance(alloc)?;
        Ok(Some(OpenedLog { settings, entries }))
    }
}
