//! The HSMS in a capture that `hsms capture` does not audit.
//!
//! An [`Unjudged`] receives what no connection accepts: segments of other ports and addresses ([`Unjudged::pass`]),
//! those of midstream sessions ([`Unjudged::run`]), and the packets of midstream sessions without a certain sync point
//! ([`Unjudged::give_up`]). It counts those in which a segment is one HSMS message ([`message_of`]). [`emit_unjudged`]
//! writes the counts in one line.
#![tactic(auto)]

mod devices;
mod line;
mod message;
mod numbers;
mod pairs;
mod unjudged;
mod unjudged_output;

pub use message::message_of;
pub use unjudged::Unjudged;
pub use unjudged_output::emit_unjudged;
