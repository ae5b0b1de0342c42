//! Laws about the definition of a run. Each is the contract of a function that does nothing.

ghost use Rattle.hsms_machine.specs.Laws.{EachResponseAnswersOne, DataFlowsWhileSelected, ExpiryIsLoggedFirst, RepliesComeWithinT3, SystemBytesAreUnique, OneConnectionInVersionOne, EachConnectionFollowsDown, NothingIsOpenOverUp, VersionOneKeepsRuns, VersionOneKeepsAnswers, VersionOneIsOneConnection, ViewListsWhatIsOpen, ValidEntryExtendsRun, FrontOfRunIsRun, NextOfRunIsValid, EachEntryHasAnAnswer, NoEntryHasTwoAnswers, EmptyLogIsRun, RunIsRunOfSeveral, SingleRunOfSeveralIsRun, JoinedRunsAreARun, JoinedConnectionsAreARun};
ghost use Rattle.hsms_machine.specs.RepairLaws.{CutPutIsValid, EachEntryIsRepaired, EachLogIsRepaired, ExpiryPutIsValid, NoEntryIsRepairedTwice, NoLogIsRepairedTwice};
ghost use Rattle.hsms_machine.specs.Repair.{RepairedLogPasses, ValidEntryIsKept, RunIsItsRepair, FrontIsKept};

/// Proves that each sent or accepted response of a run answers exactly one open transaction, which it closes.
pub fn each_response_answers_one()
    ensures { EachResponseAnswersOne }
{}

/// Proves that in a run, data flows only while the session is selected and not ended.
pub fn data_flows_while_selected()
    ensures { DataFlowsWhileSelected }
{}

/// Proves that in a run, sent data that has waited for longer than T3 is closed before any entry except a `t3`.
pub fn expiry_is_logged_first()
    ensures { ExpiryIsLoggedFirst }
{}

/// Proves that in a run each reply that closes sent data therefore comes within T3.
pub fn replies_come_within_t3()
    ensures { RepliesComeWithinT3 }
{}

/// Proves that in a run, no two open transactions of one direction have the same system bytes.
pub fn system_bytes_are_unique()
    ensures { SystemBytesAreUnique }
{}

/// Proves that in a run of version 1 only the first entry is an `up`. In version 2 each later `up` directly follows a
/// `down`. No transaction that was opened before an `up` is open after it.
pub fn connections_are_separate()
    ensures one { OneConnectionInVersionOne }
    ensures several { EachConnectionFollowsDown }
    ensures apart { NothingIsOpenOverUp }
{}

/// Proves that a log of version 1 is checked without regard to connections. The same logs are runs, each entry has the
/// same result after them, and the last connection is the complete log.
pub fn version_one_is_kept()
    ensures runs { VersionOneKeepsRuns }
    ensures answers { VersionOneKeepsAnswers }
    ensures whole { VersionOneIsOneConnection }
{}

/// Proves that the lists of a view contain exactly the open transactions, in order of opening.
pub fn view_lists_what_is_open()
    ensures { ViewListsWhatIsOpen }
{}

/// Proves that an entry that breaks no rule after a run extends it.
pub fn valid_entry_extends_run()
    ensures { ValidEntryExtendsRun }
{}

/// Proves that a prefix of a run is a run, and the next entry breaks no rule after it.
pub fn front_of_run_is_run()
    ensures front { FrontOfRunIsRun }
    ensures next { NextOfRunIsValid }
{}

/// Proves that after a run each entry has exactly one result: the first rule that it breaks, or none.
pub fn each_entry_has_one_answer()
    ensures some { EachEntryHasAnAnswer }
    ensures one { NoEntryHasTwoAnswers }
{}

/// Proves that the empty log is a run.
pub fn empty_log_is_run()
    ensures { EmptyLogIsRun }
{}

/// Proves that runs of single connections, joined, are a run of several connections. Each ends with `down` before the
/// next `up`, and times do not decrease.
pub fn joined_connections_are_a_run()
    ensures kept { RunIsRunOfSeveral }
    ensures single { SingleRunOfSeveralIsRun }
    ensures joined { JoinedRunsAreARun }
    ensures connections { JoinedConnectionsAreARun }
{}

/// Proves that a log that was repaired after each failure is a run. A valid entry, a run, and each log up to its first
/// failure stay unchanged.
pub fn repaired_log_passes()
    ensures passes { RepairedLogPasses }
    ensures kept { ValidEntryIsKept }
    ensures run { RunIsItsRepair }
    ensures front { FrontIsKept }
{}

/// Proves that a T3 expiry that a repair inserts before an entry breaks no rule there.
pub fn expiry_put_is_valid()
    ensures { ExpiryPutIsValid }
{}

/// Proves that a cut that a repair inserts before an entry breaks no rule there.
pub fn cut_put_is_valid()
    ensures { CutPutIsValid }
{}

/// Proves that after a run each entry has exactly one repair, which takes few checks.
pub fn each_entry_is_repaired()
    ensures some { EachEntryIsRepaired }
    ensures one { NoEntryIsRepairedTwice }
{}

/// Proves that each log has exactly one repair.
pub fn each_log_is_repaired()
    ensures some { EachLogIsRepaired }
    ensures one { NoLogIsRepairedTwice }
{}
