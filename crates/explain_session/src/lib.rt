//! The session of an explained log, as repaired.
//!
//! [`check_logged_entry`] checks an entry after the earlier ones, which are in [`Known`], by the clock of the log. It
//! records the transaction that the entry closes, and each rule that it breaks, with a hint. It applies the repairs with
//! which the log continues.
#![tactic(auto)]

mod check_step;
mod clock;
mod clocked_entry;
mod context;
mod hint;
mod history;
pub mod laws;
mod overdue;
mod repair_entry;
mod repaired_session;

pub use clock::Clock;
pub use clocked_entry::check_logged_entry;
pub use context::Known;
pub use repaired_session::{Checked, Failure, Opening, RepairedSession};
