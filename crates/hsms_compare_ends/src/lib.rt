//! Two endpoints of `hsms_endpoint` that are connected by byte streams: their logs describe one conversation.
#![tactic(auto)]

pub mod laws;
