//! The log of one connection.

use hsms_machine::Entry;

/// The entries that an endpoint logs of one connection.
#[derive(Drop)]
pub struct ConnectionLog {
    pub entries: Vec<Entry>,
    /// Of each entry, its line number.
    pub lines: Vec<u64>,
    /// Whether the connection may have more entries.
    pub is_open: bool,
}
