//! The text of a session log, and its audit.
//!
//! A log is text. Its first line contains the version of the log, 1 for one connection or 2 for several, and the
//! settings of the logging endpoint. Then follow a line for each entry, comments and empty lines. [`write_settings`]
//! and [`write_entry`] write such lines, and [`read_settings`] and [`read_line`] read them. [`audit`] audits a complete
//! log. The log passes, with a summary of its entries, or fails at its first line that is unreadable or whose entry
//! breaks a rule of the session machine (SEMI E37, E37.1; `hsms_machine`). The format is project-specific.
//!
//! A log is written line by line, the settings first, and audited from any source:
//!
//! ```
//! write_settings(&mut sink, &settings)?;
//! write_entry(&mut sink, &entry)?;
//!
//! match audit(alloc, &mut source)? {
//!     Verdict::Pass(summary) => {}       // its entries, and how many were sent, taken, ..
//!     Verdict::Fail { line, why } => {}  // the first line that continues no run
//! }
//! ```
#![tactic(auto)]

mod audit_state;
mod auditing;
mod auditor;
mod diagnosis;
mod digits;
mod entry_check;
mod fault;
mod hexadecimal;
pub mod laws;
mod line;
mod line_reader;
mod number;
mod ranges;
mod reading;
mod reasons;
mod settings_line;
mod step;
mod tally;
mod verdict;
mod writing;

pub use auditing::{audit, audit_within};
pub use auditor::Auditor;
pub use diagnosis::{unreadable_entry, unreadable_settings};
pub use fault::{AuditFault, LineFault, LogFault};
pub use hexadecimal::{digits_of_few, digits_of_sixteen};
pub use line::{split_at_first, without_carriage_return};
pub use line_reader::audit_text;
pub use reading::{Line, is_blank, read_frame_line, read_line, read_plain_line};
pub use reasons::{Form, Reason, Unreadable};
pub use settings_line::read_settings;
pub use step::{Step, What};
pub use verdict::{Summary, Verdict, Why};
pub use writing::{cause_word, write_entry, write_settings};
