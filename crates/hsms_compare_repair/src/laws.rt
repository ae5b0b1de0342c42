//! Laws of the facts of a direction. Each is the contract of a function with an empty body.

ghost use Rattle.hsms_compare_repair.specs.Laws.{OneListOfFacts, RepairedFramesAgree, RepairKeepsWhatAgrees, NoFactsExactlyIfPrefix, NoFactsIfItMayAgree};
ghost use Rattle.hsms_compare_repair.specs.Logs.{NoFactsOfLogsThatCanAgree, CanAgreeBothWays, LogsThatEndEarlyAgree, NoContradictionOfLogsThatEndEarly};

/// Ensures that a direction has one list of facts.
pub fn one_list_of_facts()
    ensures { OneListOfFacts }
{}

/// Ensures that after the repair what is received is a prefix of what is sent, and that the repair does not change
/// what is received as far as it is that already.
pub fn repaired_frames_agree()
    ensures agree { RepairedFramesAgree }
    ensures keeps { RepairKeepsWhatAgrees }
{}

/// Ensures that a direction has no fact exactly if what is received is a prefix of what is sent, and none but of frames
/// that may be sent later if it agrees with what may follow.
pub fn no_facts_if_it_agrees()
    ensures exactly { NoFactsExactlyIfPrefix }
    ensures may_agree { NoFactsIfItMayAgree }
{}

/// Ensures the same of two logs that agree with what may follow them. Either log may be taken as the host's.
pub fn no_facts_of_logs_that_can_agree()
    ensures facts { NoFactsOfLogsThatCanAgree }
    ensures both_ways { CanAgreeBothWays }
{}

/// Ensures that the prefixes of two logs that agree can agree, and have no contradiction.
pub fn logs_that_end_early_agree()
    ensures agree { LogsThatEndEarlyAgree }
    ensures none { NoContradictionOfLogsThatEndEarly }
{}
