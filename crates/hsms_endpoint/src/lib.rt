//! An endpoint of an HSMS session (SEMI E37, E37.1): what it logs, sends and answers.
//!
//! An [`End`] receives events: the connection is established, time passes, bytes arrive, a message is to be sent. It
//! returns the new entries of its log, which include what it sent. It reads no clock and opens no socket: the caller
//! passes times, in milliseconds, and bytes. The tracker of `hsms_machine` checks each entry before it is logged, so
//! the log passes the audit. A [`Desk`] answers the accepted messages. So does a [`TurnDesk`], whose answer may
//! depend on the number of earlier messages with that stream and function. [`drive`] passes a list of inputs to an
//! endpoint.
//!
//! An endpoint is created with its settings, its message handler and its first own system bytes. The caller first
//! calls `start`, once the connection is established. Then it calls `bytes` with the received bytes, `tick` when the
//! time of `next_due` is past, and `send`, `linktest` and `separate` as needed. The endpoint is finished when it is
//! [`Phase::Gone`](hsms_machine::Phase), or when the caller reports with `lost` that the connection broke:
//!
//! ```
//! let mut end = End::new(alloc, settings, HostDesk, 1);
//! let entries = end.start(0)?;      // up, and a Select.req if it connected
//! let entries = end.bytes(octets)?; // what was accepted or discarded, and what was sent for it
//! let entries = end.tick(6000)?;    // what has expired
//! let entries = end.send(&message)?;
//! let entries = end.separate()?;    // a Separate.req, and down
//! ```
//!
//! The caller writes the sent messages of the entries in that order, and passes later events in later calls.
#![tactic(auto)]

mod answer;
mod desk;
mod driving;
mod end;
mod fault;
mod frame_handling;
mod input;
pub mod laws;
mod primary_counts;
mod reaction;
mod receive;
mod sending;
mod state;
mod timers;

pub use answer::{Answer, Desk, TurnDesk};
pub use desk::{EquipmentDesk, HostDesk};
pub use driving::{Driven, drive};
pub use end::End;
pub use fault::EndFault;
pub use input::Input;
