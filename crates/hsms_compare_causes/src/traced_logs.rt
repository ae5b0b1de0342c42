//! The logs of both endpoints of a connection, traced.

ghost use Rattle.std.specs.Prelude.{◌≡◌, IfOk};

use crate::connection_log::ConnectionLog;
use crate::counterparts::counterparts;
use crate::indexed_log::IndexedLog;
use crate::traced_log::{Counterpart, TracedLog};
use std::alloc::{AllocError, Global};

/// The logs of both endpoints of a connection, traced.
#[derive(Drop)]
pub struct TracedLogs {
    pub host: TracedLog,
    pub equipment: TracedLog,
}

impl TracedLogs {
    ghost use Rattle.std.specs.Prelude.{IfOk};
    ghost use Rattle.hsms_compare_causes.specs.Counterparts.{IsTracedLog};

    /// Traces two logs that agree: the frame that a log receives with a number is the one that the other log sends with
    /// this number.
    ///
    /// # Errors
    ///
    /// Returns `AllocError` if an allocation fails.
    pub fn of(
        alloc: Global,
        host: ConnectionLog,
        equipment: ConnectionLog,
    ) -> Result<TracedLogs, AllocError>
        ensures host { IfOk result (λ logs. IsTracedLog host equipment logs.host) }
        ensures equipment { IfOk result (λ logs. IsTracedLog equipment host logs.equipment) }
    {
        let of_host = counterparts(alloc, &host, &equipment)?;
        let of_equipment = counterparts(alloc, &equipment, &host)?;
        Ok(TracedLogs {
            host: traced(alloc, host, of_host)?,
            equipment: traced(alloc, equipment, of_equipment)?,
        })
    }
}

/// Returns a log with these counterparts of its entries.
fn traced(
    alloc: Global,
    log: ConnectionLog,
    counterparts: Vec<Counterpart>,
) -> Result<TracedLog, AllocError>
    ensures entries { IfOk result (λ traced. traced.entries ≡ log.entries.items) }
    ensures lines { IfOk result (λ traced. traced.lines.items ≡ log.lines.items) }
    ensures counterparts { IfOk result (λ traced. traced.counterparts.items ≡ counterparts.items) }
    ensures more { IfOk result (λ traced. traced.is_open ≡ log.is_open) }
{
    let ConnectionLog {
        entries,
        lines,
        is_open,
    } = log;
    let entries = IndexedLog::of(alloc, entries)?;
    Ok(TracedLog {
        entries,
        lines,
        counterparts,
        is_open,
    })
}
