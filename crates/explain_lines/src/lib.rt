//! The lines of an explained log, and what is written below each: plain types and their texts.
//!
//! An [`ExplainedLine`] has the content of a log line, as [`carried_by`] reads it. A [`Note`] is an annotation of it: the
//! line that its entry closes, or a failure, with a hint and the repair.
#![tactic(auto)]

mod annotation;
mod expected;
mod explained_line;
mod failure_kind;
pub mod laws;
mod phrases;
mod timestamp;

pub use annotation::{Failing, Note, UNREADABLE, has_failure, is_named};
pub use expected::{ClockStep, Expected, Fit, Function, MOST_CLOSED, Setting};
pub use explained_line::{Carried, ExplainedLine, SETTINGS_LIMIT, carried_by, limit_of};
pub use failure_kind::failure_kind_of;
pub use phrases::{
    Closing, Concern, Continuation, FailureGroup, Gap, Jump, Overdue, Put, Rest, System, Tie,
    Unjudged, Waiting, name_of, word_of,
};
pub use timestamp::{Date, Moment};
