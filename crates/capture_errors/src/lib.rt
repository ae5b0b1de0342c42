//! Why the connections of a capture are not audited, or not in full.
//!
//! A [`Shortfall`] is why what a connection shows is incomplete. A [`Rejection`] is why a capture is rejected, and a
//! [`CaptureError`] also has the errors of reads, writes and allocations:
//!
//! ```
//! let error = CaptureError::Refused(Rejection::Incomplete(Shortfall::Lost(9))); // shown as: Lost packet=9
//! ```
#![tactic(auto)]

mod capture_error;
mod incomplete;
mod rejection;

pub use capture_error::CaptureError;
pub use incomplete::Shortfall;
pub use rejection::Rejection;
