//! Laws over the definitions of an endpoint. Each is the contract of a function that does nothing.

ghost use Rattle.hsms_endpoint.specs.Laws.{TurnKeepsOctets, DriveKeepsOctets, FaultIsUnique, ActsHaveOneOutcome, TurnHasOneOutcome, DriveHasOneOutcome, FreeNumberIsAmongTheNext65, FirstFreeIsOne, NextNumberFollowsTheTakenOne, AllExpiriesAreLoggedBeforeAnyS9F9, OverdueLinkTimerLeavesS9F9Out};

use hsms_frame::laws::one_answer_to_pending;
use secs_item::laws::one_answer_of_text;

/// Ensures that no byte is lost. The pending bytes and the received ones are the frames of the accepted and discarded
/// entries, in order, followed by the bytes still pending. This holds for one input, and for the accepted inputs of a
/// list.
pub fn octets_are_kept()
    ensures turn { TurnKeepsOctets }
    ensures drive { DriveKeepsOctets }
{}

/// Ensures that an input is accepted or has one error, and that acts have one outcome.
pub fn each_act_has_one_outcome()
    ensures fault { FaultIsUnique }
    ensures acts { ActsHaveOneOutcome }
{}

/// Ensures that an input has one outcome. The settings, the handler, the endpoint's state and the input determine the
/// new entries and the endpoint's next state. So does a list of inputs.
pub fn each_turn_has_one_outcome()
    ensures turn { TurnHasOneOutcome }
    ensures drive { DriveHasOneOutcome }
{
    one_answer_to_pending();
    one_answer_of_text();
}

/// Ensures that free system bytes are among the next 65 values if at most 64 own transactions are open. The first
/// free value is unique.
pub fn free_number_is_among_the_next_65()
    ensures some { FreeNumberIsAmongTheNext65 }
    ensures one { FirstFreeIsOne }
{}

/// Ensures that the next value tried for own system bytes is one past the value just used. This also holds if values
/// before that were in use and skipped.
pub fn next_number_follows_the_taken_one()
    ensures { NextNumberFollowsTheTakenOne }
{}

/// Ensures that a tick logs all expiries of own data messages before any S9F9 that reports one.
pub fn all_expiries_are_logged_before_any_s9f9()
    ensures { AllExpiriesAreLoggedBeforeAnyS9F9 }
{}

/// Ensures that a tick with an overdue link timer cuts the connection after the expiries and sends no S9F9.
pub fn overdue_link_timer_leaves_s9f9_out()
    ensures { OverdueLinkTimerLeavesS9F9Out }
{}
