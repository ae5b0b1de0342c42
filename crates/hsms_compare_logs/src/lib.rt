//! Comparison of the texts of two session logs, each read once from a source and audited in the same pass: of their first
//! connections.
#![tactic(auto)]

mod bounded_audit;
mod comparing;
mod comparing_logs;
mod entry_reader;
mod input;
mod line_read;
mod log_entries;
mod log_record;
mod opened_log;
mod pair_failures;
mod pair_verdict;
mod read_entry;
mod read_log;

pub use comparing::LogComparison;
pub use comparing_logs::CompareFault;
pub use log_entries::LogEntries;
pub use log_record::LogRecord;
pub use opened_log::OpenedLog;
pub use pair_failures::PairFailures;
pub use pair_verdict::{FactKind, PairVerdict};
pub use read_log::{FinishedLog, ReadLog};
