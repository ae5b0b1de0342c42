//! `hsms audit --format` and `hsms capture --format`: reports on logs and captures, for programs.
//!
//! A [`LogReport`] audits logs one after another. In JSON it writes an object for each log at once. As XML of JUnit it
//! writes the test cases of all logs at the end, with what `hsms explain` shows of the first failure of each:
//!
//! ```
//! let mut report = LogReport::new(alloc, ReportForm::Junit, false);
//! report.audit(alloc, "session.log", input, &mut sink)?;
//! report.finish(alloc, &mut sink)?;
//! let status = report.status();
//! ```
//!
//! [`ObjectLines`] takes the lines of `hsms capture`, and writes an object for each.
#![tactic(auto)]

mod connection_object;
mod json_object;
mod object_audit;
mod object_lines;
mod report;
mod test_case;
mod xml_text;

pub use json_object::{log_object, unopened_object};
pub use object_audit::write_object;
pub use object_lines::ObjectLines;
pub use report::LogReport;
pub use xml_text::push_text;
