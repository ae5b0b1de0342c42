//! The comparison of two logs of version 1, in either order.

ghost use Rattle.std.specs.Prelude.{◌≡◌, ◌==◌, ◌&&◌};

use crate::comparing::LogComparison;
use crate::opened_log::OpenedLog;
use hsms_compare::ReadFault;
use hsms_frame::Source;
use hsms_machine::{Role, Settings};
use std::alloc::Global;

/// Why two logs are not compared.
#[derive(Clone, Copy, Debug, PartialEq, Eq)]
pub enum CompareFault {
    /// A log was not read to its end.
    Log(ReadFault),
    /// The first line of the first log encodes no settings.
    FirstLineOfFirst,
    /// The first line of the second log encodes no settings.
    FirstLineOfSecond,
    /// Both logs are of a host, or both of equipment.
    SameRole,
    /// Both logs are of the active end, or both of the passive one.
    SameLink,
    /// The logs have different device IDs.
    Device,
}

impl From<ReadFault> for CompareFault {
    ghost use Rattle.std.specs.Prelude.{◌≡◌};
    ghost use Rattle.hsms_compare_logs.specs.declared.comparing_logs.CompareFault.TheVariants.{Log};

    ghost from_gives = { λ fault e. e ≡ Log fault };

    fn from(fault: ReadFault) -> CompareFault {
        CompareFault::Log(fault)
    }
}

impl CompareFault {
    ghost use Rattle.std.specs.Prelude.{◌≡◌, None, IfSome};
    ghost use Rattle.hsms_compare_logs.specs.Comparison.{CanCompare, CannotCompare};

    /// Returns why logs with these settings are not compared, if they are not.
    fn of(first: &Settings, second: &Settings) -> Option<CompareFault>
        ensures none { result ≡ None → CanCompare first.now second.now }
        ensures some { IfSome result (CannotCompare first.now second.now) }
    {
        if first.role() == second.role() {
            return Some(CompareFault::SameRole);
        }
        if first.link() == second.link() {
            return Some(CompareFault::SameLink);
        }
        if first.device() != second.device() {
            return Some(CompareFault::Device);
        }
        None
    }
}

impl LogComparison {
    ghost use Rattle.std.specs.Prelude.{◌≡◌, ℕ, List, Some, IfOk, IfErr};
    ghost use Rattle.hsms_compare_logs.specs.Comparison.{AreCompared, AreNotCompared};

    /// Compares two logs, the host's and equipment's in either order, each from its first `up` to the next one.
    ///
    /// # Errors
    ///
    /// Returns the reason why the settings do not allow it, or why a log was not read to its end.
    pub fn of_logs<R: Source + Drop, S: Source + Drop>(
        alloc: Global,
        first: R,
        second: S,
    ) -> Result<LogComparison, CompareFault>
        ensures ok { IfOk result (λ comparison. (one other : List ℕ)
            → (R.state first).left ≡ Some one → (S.state second).left ≡ Some other → AreCompared one other comparison) }
        ensures err { IfErr result (λ fault. (one other : List ℕ)
            → (R.state first).left ≡ Some one → (S.state second).left ≡ Some other → AreNotCompared one other fault) }
    {
        let Some(first) = OpenedLog::open(alloc, first)? else {
            return Err(CompareFault::FirstLineOfFirst);
        };
        let Some(second) = OpenedLog::open(alloc, second)? else {
            return Err(CompareFault::FirstLineOfSecond);
        };
        if let Some(fault) = CompareFault::of(&first.settings, &second.settings) {
            return Err(fault);
        }
        let role = first.settings.role();
        let is_in_order = are_in_order(&first.settings, &second.settings);
        let settings = first.settings;
        let other = second.settings;
        match role {
            Role::Host => Ok(LogComparison::of(
                alloc,
                first.entries,
                second.entries,
                &settings,
                &other,
                is_in_order,
            )?),
            Role::Equipment => Ok(LogComparison::of(
                alloc,
                second.entries,
                first.entries,
                &other,
                &settings,
                is_in_order,
            )?),
        }
    }
}

/// Returns whether both logs are of version 1, so that their connections are paired in order.
fn are_in_order(first: &Settings, second: &Settings) -> bool
    ensures { result ≡ ((first.now.version == 1) && (second.now.version == 1)) }
{
    first.version() == 1 && second.version() == 1
}
