//! The failed requests of both endpoints.

ghost use Rattle.std.specs.Prelude.{◌≡◌, ◌≤◌, count_by, length};
ghost use Rattle.hsms_machine.specs.Message.{is_data as carries_data};
ghost use Rattle.hsms_compare_logs.specs.DataFrames.{has_data as has_data_frame, is_data_frame};

use hsms_compare_causes::{ConnectionLog, FailedRequest, TracedLogs, failures_of};
use hsms_compare_repair::{LogFrames, NumberedFrame};
use hsms_frame::{Header, Kind, kind};
use hsms_machine::Settings;
use std::alloc::{AllocError, Global};

/// The requests of both endpoints that were not answered in time. There are none if the logs do not decide what became
/// of them.
#[derive(Drop)]
pub struct PairFailures {
    pub of_host: Vec<FailedRequest>,
    pub of_equipment: Vec<FailedRequest>,
}

impl PairFailures {
    ghost use Rattle.std.specs.Prelude.{IfOk, true};
    ghost use Rattle.hsms_compare_logs.specs.PairFailures.{AreFailuresIf};

    /// Returns the failed requests of two logs with these settings, if they are to be found.
    ///
    /// # Errors
    ///
    /// Returns `AllocError` if an allocation fails.
    pub fn of(
        alloc: Global,
        is_decided: bool,
        host: ConnectionLog,
        equipment: ConnectionLog,
        host_settings: &Settings,
        equipment_settings: &Settings,
    ) -> Result<PairFailures, AllocError>
        ensures { IfOk result (AreFailuresIf is_decided host equipment host_settings.now equipment_settings.now) }
    {
        if is_decided {
            return Self::found(alloc, host, equipment, host_settings, equipment_settings);
        }
        Ok(PairFailures {
            of_host: Vec::new(alloc),
            of_equipment: Vec::new(alloc),
        })
    }

    fn found(
        alloc: Global,
        host: ConnectionLog,
        equipment: ConnectionLog,
        host_settings: &Settings,
        equipment_settings: &Settings,
    ) -> Result<PairFailures, AllocError>
        ensures { IfOk result (AreFailuresIf true host equipment host_settings.now equipment_settings.now) }
    {
        let logs = TracedLogs::of(alloc, host, equipment)?;
        Ok(PairFailures {
            of_host: failures_of(alloc, &logs.host, &logs.equipment, host_settings)?,
            of_equipment: failures_of(alloc, &logs.equipment, &logs.host, equipment_settings)?,
        })
    }
}

/// Returns whether a log receives a data message.
pub fn has_data(log: &LogFrames) -> bool
    ensures { result ≡ has_data_frame log.now }
{
    count_of_data(log.received.as_slice()) > 0
}

/// Returns the number of data messages.
fn count_of_data(frames: &[NumberedFrame]) -> usize
    ensures count { result ≡ count_by is_data_frame frames.now }
    ensures few { result ≤ length frames.now }
{
    let mut count = 0;
    for i in 0..frames.len() {
        if is_data(&frames[i]) {
            count += 1;
        }
    }
    count
}

/// Returns whether a frame is a data message.
fn is_data(numbered: &NumberedFrame) -> bool
    ensures { result ≡ is_data_frame numbered.now }
{
    has_data_kind(numbered.frame.header)
}

/// Returns whether a header is that of a data message.
#[tactic(auto, unfolding(hsms_machine::specs::Message::is_data))]
fn has_data_kind(header: Header) -> bool
    ensures { result ≡ carries_data header }
{
    matches!(kind(header), Kind::Primary | Kind::Reply)
}
