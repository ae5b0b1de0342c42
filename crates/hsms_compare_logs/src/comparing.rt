//! The comparison of two logs.

use crate::log_entries::LogEntries;
use crate::pair_failures::{PairFailures, has_data};
use crate::read_log::{FinishedLog, ReadLog};
use hsms_compare::{LineContradiction, ReadFault};
use hsms_compare_repair::{ConnectionFacts, LogFrames};
use hsms_frame::Source;
use hsms_machine::Settings;
use std::alloc::Global;

/// The comparison of two logs: the first contradiction of their first connections, if there is one, the facts of both
/// directions, and what was read of each log.
#[derive(Drop)]
pub struct LogComparison {
    pub contradiction: Option<LineContradiction>,
    pub facts: ConnectionFacts,
    /// The failed requests, if the logs decide what became of them.
    pub failures: PairFailures,
    pub host: ReadLog,
    pub equipment: ReadLog,
    /// True if both logs are of version 1, so that their connections are paired in order.
    pub is_in_order: bool,
}

impl LogComparison {
    ghost use Rattle.std.specs.Prelude.{◌≡◌, ℕ, Bool, List, IfOk};
    ghost use Rattle.hsms_compare.specs.Conversation.{Line};
    ghost use Rattle.hsms_compare.specs.LineContradiction.{FirstByLines};
    ghost use Rattle.hsms_compare_repair.specs.Connection.{AreFactsTo};
    ghost use Rattle.hsms_compare_logs.specs.Audited.{ReadsText};
    ghost use Rattle.hsms_compare_logs.specs.Connection.{LogLeft, ReadsConnection};
    ghost use Rattle.hsms_compare_logs.specs.ReadLogs.{IsOfText};
    ghost use Rattle.hsms_compare_logs.specs.LogEntries.{HasEntries};
    ghost use Rattle.hsms_compare_logs.specs.Comparison.{AreFailuresOf};

    /// Compares two opened logs, and reads both to their ends.
    ///
    /// # Errors
    ///
    /// Returns `Read` if a read fails, `Endless` after 2^62 bytes, or `Memory` if an allocation fails.
    pub fn of<H: Source + Drop, E: Source + Drop>(
        alloc: Global,
        host: LogEntries<H>,
        equipment: LogEntries<E>,
        host_settings: &Settings,
        equipment_settings: &Settings,
        is_in_order: bool,
    ) -> Result<LogComparison, ReadFault>
        ensures contradiction { IfOk result (λ comparison. (h e : List Line) (host_more equipment_more host_others equipment_others : Bool)
            → LogLeft host.reader.input.block.items (H.state host.reader.input.source).left host.reader.max host.reader.lines
            host.reader.is_ended host.next host.is_down host.is_followed h host_more host_others
            → LogLeft equipment.reader.input.block.items (E.state equipment.reader.input.source).left equipment.reader.max
            equipment.reader.lines equipment.reader.is_ended equipment.next equipment.is_down equipment.is_followed e equipment_more
            equipment_others → FirstByLines host_more equipment_more h e comparison.contradiction) }
        ensures host { IfOk result (λ comparison. (text : List ℕ)
            → ReadsText text host.reader.input.audit (H.state host.reader.input.source).left
            → ReadsConnection text host.reader.input.block.items (H.state host.reader.input.source).left host.reader.max
            host.reader.lines host.reader.is_ended host.next host.is_down host.is_followed host.up host.kept
            → IsOfText text comparison.host) }
        ensures equipment { IfOk result (λ comparison. (text : List ℕ)
            → ReadsText text equipment.reader.input.audit (E.state equipment.reader.input.source).left
            → ReadsConnection text equipment.reader.input.block.items (E.state equipment.reader.input.source).left
            equipment.reader.max equipment.reader.lines equipment.reader.is_ended equipment.next equipment.is_down
            equipment.is_followed equipment.up equipment.kept → IsOfText text comparison.equipment) }
        ensures to_equipment { IfOk result (λ comparison.
            AreFactsTo comparison.host.frames comparison.equipment.frames comparison.facts.to_equipment.items) }
        ensures to_host { IfOk result (λ comparison.
            AreFactsTo comparison.equipment.frames comparison.host.frames comparison.facts.to_host.items) }
        ensures failures { IfOk result (λ comparison. (text other : List ℕ)
            → ReadsText text host.reader.input.audit (H.state host.reader.input.source).left
            → ReadsConnection text host.reader.input.block.items (H.state host.reader.input.source).left host.reader.max
            host.reader.lines host.reader.is_ended host.next host.is_down host.is_followed host.up host.kept
            → ReadsText other equipment.reader.input.audit (E.state equipment.reader.input.source).left
            → ReadsConnection other equipment.reader.input.block.items (E.state equipment.reader.input.source).left
            equipment.reader.max equipment.reader.lines equipment.reader.is_ended equipment.next equipment.is_down
            equipment.is_followed equipment.up equipment.kept
            → (h e : List Line) → HasEntries text host_settings.now h → HasEntries other equipment_settings.now e
            → AreFailuresOf h host_settings.now e equipment_settings.now comparison) }
        ensures order { IfOk result (λ comparison. comparison.is_in_order ≡ is_in_order) }
    {
        let mut host = host;
        let mut equipment = equipment;
        let contradiction = LineContradiction::first(alloc, &mut host, &mut equipment)?;
        let host_end = host.finish(alloc)?;
        let equipment_end = equipment.finish(alloc)?;
        let FinishedLog {
            log: host,
            entries: host_entries,
        } = host_end;
        let FinishedLog {
            log: equipment,
            entries: equipment_entries,
        } = equipment_end;
        let facts = ConnectionFacts::of(alloc, &host.frames, &equipment.frames)?;
        let is_decided = are_decided(&contradiction, is_in_order, &host.frames, &equipment.frames);
        let failures = PairFailures::of(
            alloc,
            is_decided,
            host_entries,
            equipment_entries,
            host_settings,
            equipment_settings,
        )?;
        Ok(LogComparison {
            contradiction,
            facts,
            failures,
            host,
            equipment,
            is_in_order,
        })
    }
}

ghost use Rattle.std.specs.Prelude.{◌≡◌};
ghost use Rattle.hsms_compare_logs.specs.PairFailures.{are_decided as decide};

/// Returns whether two logs decide what became of their requests.
fn are_decided(
    contradiction: &Option<LineContradiction>,
    is_in_order: bool,
    host: &LogFrames,
    equipment: &LogFrames,
) -> bool
    ensures { result ≡ decide contradiction.now is_in_order host.now equipment.now }
{
    match contradiction {
        Some(_) => false,
        None => is_in_order || has_data(host) || has_data(equipment),
    }
}
