//! Laws over the definitions of the endpoints and of served connections. Each is the contract of a function that does
//! nothing.

ghost use Rattle.hsms_ends.specs.Laws.{ServedLogPasses, ServedAgainLogPasses};

use hsms_endpoint::TurnDesk;
pub use hsms_endpoint::laws::{
    all_expiries_are_logged_before_any_s9f9, each_act_has_one_outcome, each_turn_has_one_outcome,
    free_number_is_among_the_next_65, next_number_follows_the_taken_one, octets_are_kept,
    overdue_link_timer_leaves_s9f9_out,
};

/// Ensures that the log of a served connection passes the audit, unless a write failed. The verdict of `hsms_log` on
/// it (`HasAuditVerdict`, the headline of its `audit`) is `Pass` with the summary of the entries that the endpoint
/// returned.
pub fn served_log_passes<D: TurnDesk>()
    ensures { ServedLogPasses D.answers_after }
{}

/// Ensures that the log of connections served one after the other also passes the audit, with the summary of all
/// entries.
pub fn served_again_log_passes<D: TurnDesk>()
    ensures { ServedAgainLogPasses D.answers_after }
{}
