//! Statistics of an explained log: how often each rule was broken, groups of similar failures, and the outcomes of the
//! primaries that request a reply.
//!
//! A [`Tally`] counts the entries and failures. [`group_notes`] lets a failure refer to an earlier one of its group.
//! [`Primaries`] count the outcomes, and the times until the replies. [`LogFacts`] show which settings in line 1 no entry
//! agrees with.
#![tactic(auto)]

mod failure_counts;
mod failure_groups;
mod grouped_annotations;
mod histogram;
pub mod laws;
mod line_one;
mod primary_lists;
mod primary_stats;
mod reply_stats;

pub use failure_counts::{Failed, Tally};
pub use failure_groups::{Group, Groups, MOST_GROUPS};
pub use grouped_annotations::group_notes;
pub use line_one::{Doubt, LogFacts};
pub use primary_lists::{Asked, Ended, Listed, Lists};
pub use primary_stats::{Outcome, Primaries, Times, Wait};
pub use reply_stats::Counts;
