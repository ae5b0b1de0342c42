//! `hsms compare`: whether two session logs describe one conversation, and where they contradict each other.
//!
//! [`compare_to`] reads both logs and writes what it finds. Its result is true if both logs pass and agree:
//!
//! ```
//! let agree = compare_to(alloc, host, equipment, &mut sink)?; // `Undecided` is an error, after all is written
//! ```
#![tactic(auto)]

mod compare_error;
mod comparing;
mod comparison_text;
mod fact_lines;
mod failure_lines;

pub use compare_error::{CompareError, fault_of};
pub use comparing::compare_to;
