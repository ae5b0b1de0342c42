//! The session machine of HSMS (SEMI E37, E37.1): the rules for the entries of a session log, and a tracker that
//! returns the first rule that each entry breaks. A log is a list of entries, each with its time in milliseconds. An
//! entry is one of these events: the connection was established, a frame was sent, accepted or discarded, a timer
//! expired, the connection was cut or closed. The tracker keeps what the rules need to know of the entries so far, and
//! no log. It reads no clock and no socket. So an auditor can check logged entries with it, and an endpoint can check
//! what it is about to do.
//!
//! Create a tracker with the settings, and pass each entry in turn:
//!
//! ```
//! let settings = Settings::new(Role::Host, Side::Active, 0, 45000, 6000, 10000, 5000, 1048576, 32).ok_or("settings")?;
//! let mut tracker = Tracker::new(alloc, settings);
//! let broken = tracker.check(&entry);  // what `step` would return; the tracker is unchanged
//! match tracker.step(&entry)? {
//!     None => {}                       // the entry is valid, and is added
//!     Some(rule) => {}                 // the first rule that it breaks; the tracker is unchanged
//! }
//! let due = tracker.next_due();        // when the next timer expires, in ms
//! ```
#![tactic(auto)]

mod direction;
mod entry;
pub mod laws;
mod message;
mod open_transactions;
mod opening_lines;
mod phase;
mod repair;
mod rule;
mod rule_check;
mod settings;
mod tracker;
mod transaction_map;
mod view;

pub use entry::{Cause, Entry, EntryRef, Event, Mark};
pub use message::{Message, concludes};
pub use open_transactions::earlier;
pub use opening_lines::Places;
pub use phase::Phase;
pub use repair::RepairAction;
pub use rule::Rule;
pub use settings::{
    GREATEST_DEPTH, GREATEST_DEVICE, GREATEST_MAX, GREATEST_TIME, LEAST_DEPTH, LEAST_MAX,
    LEAST_TIME, Role, Settings, Side,
};
pub use tracker::Tracker;
