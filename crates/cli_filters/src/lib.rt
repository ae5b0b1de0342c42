//! What the command does between its input and its output: it shows messages, audits a log, and encodes notation.
//!
//! [`perform`] performs a task, by `show` and `show_hex` of `cli_show`, [`verdict_to`] and [`encode_input`]. Its errors
//! are those of the parts, as a [`CommandError`]. [`show`], [`show_hex`], [`audit_to`] and [`encode_all`] are the same
//! parts, with errors as `ToolFault`. An [`AuditReport`] is on several logs. [`read_whole`] reads notation for other
//! uses:
//!
//! ```
//! let well = perform(alloc, Task::Audit, &mut source, &mut sink)?; // false if the log fails
//! ```
#![tactic(auto)]

mod audit_error;
mod audit_report;
mod auditing;
mod command_error;
mod dispatch;
mod encode_error;
mod encoding;
mod frame_output;
mod frames;
mod read_input;
mod tool_results;

pub use audit_error::AuditError;
pub use audit_report::AuditReport;
pub use auditing::verdict_to;
pub use command_error::{Cause, CommandError, fault_of};
pub use dispatch::perform;
pub use encode_error::{EncodeError, Refusal};
pub use encoding::{INPUT_LIMIT, encode_input};
pub use read_input::read_whole;
pub use tool_results::{audit_to, encode_all, show, show_hex};
