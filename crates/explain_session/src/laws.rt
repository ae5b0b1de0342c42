//! Laws of the definitions that repair a log. A law is a function that does nothing: its contract is what is proved.

ghost use Rattle.explain_session.specs.RepairSteps.{StepsRepair};
ghost use Rattle.explain_session.specs.RepairedLines.{LinesAreRepaired};

/// If the checks of an entry leave no entry pending, what they append to the log repairs it, by the definition of
/// repaired logs. The laws of `hsms_machine` describe the repaired log.
pub fn checked_entry_is_repaired()
    ensures { StepsRepair }
{}

/// The log with which the audit continues is the log that was read, repaired by the definition of `hsms_machine`. That
/// crate proves that each log is repaired in exactly one way, and that the repaired log is a run.
pub fn lines_are_repaired()
    ensures { LinesAreRepaired }
{}
