//! Explanations of errors for people: what happened, and what to do. The program writes them if they are requested.
//!
//! A [`Failure`] is an error with its context, and [`words_for`] returns its explanation:
//!
//! ```
//! let words = words_for(alloc, &Failure::said(fault, refused_words(alloc, &words)))?;
//! ```
#![tactic(auto)]

mod attempts;
mod caret;
mod error_help;
mod kept_lines;
mod listening;
mod usage_error;

pub use attempts::{ExplainedLog, FailedAttempts};
pub use error_help::{Failure, Fault, Known, begins_as_capture, link_words, open_words, words_for};
pub use kept_lines::KeptLines;
pub use listening::report_listener;
pub use usage_error::{doubtful_times, refused_words};
