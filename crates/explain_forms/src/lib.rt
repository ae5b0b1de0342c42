//! The output formats of an explained log: text, JSON and HTML.
//!
//! An [`Emitter`] writes lines and statistics in the selected format to a [`Page`], the output that is not yet written.
#![tactic(auto)]

mod formatter;
mod html;
mod html_escape;
mod html_links;
mod html_style;
mod json;
mod output_buffer;
mod text;
mod visible;

pub use formatter::Emitter;
pub use html_links::{Links, Skipped};
pub use output_buffer::Page;
