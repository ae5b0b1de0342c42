//! The events of one connection of a capture that starts with a SYN, as both of its endpoints log them.
//!
//! A [`ConnectionState`] processes the packets of one connection, one after another, and appends [`Event`]s. An event
//! has a [`LogItem`], which both endpoints log, or states how the connection ends: with a [`Shortfall`], if data is
//! missing.
#![tactic(auto)]

mod bare_resets;
mod connection_state;
mod event;
mod incomplete;
mod log_item;
mod logging;
mod tracked_connection;
mod waiting;

pub use connection_state::{CapturedSegment, ConnectionState};
pub use event::Event;
pub use incomplete::Shortfall;
pub use log_item::{EntryKind, LogItem};
pub use tracked_connection::TrackedConnection;
pub use waiting::Waiting;
