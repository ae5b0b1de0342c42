//! The options of `hsms capture`: which connections of a capture are tracked, and what is written of them.

ghost use Rattle.std.specs.Prelude.{◌≡◌, Bool, Option, IfSome, None, codes};
ghost use Rattle.std.specs.declared.net.ip_addr.IpAddr.{IpAddr};
ghost use Rattle.clap.specs.Words.{first_of, found_of, rows_of};
ghost use Rattle.hsms_machine.specs.declared.settings.Role.{Role};
ghost use Rattle.cli_options.specs.CaptureOptions.{HasCapturing, HasPeer, HasVerdictForm, IsCapturingWithinLimits, log_word, other_role, verdict_form_word};
ghost use Rattle.cli_options.specs.declared.capture_options.Capturing.{Capturing};

use crate::option_tables::CAPTURED_PORT;
use crate::option_values::{flag_of, short_of, text_of, text_or};
use crate::serve_options::{role_named, settings_with};
use clap::ArgMatches;
use hsms_machine::{Role, Settings, Side};
use std::net::IpAddr;

/// What is tracked in a capture, and what is written of it.
#[derive(Clone, Copy)]
pub struct Capturing {
    /// The TCP port of the listening ends, from 1.
    pub port: u16,
    /// The address of one end of each tracked connection. `None` for all connections at the port.
    pub peer: Option<IpAddr>,
    /// The role whose log is written. `None` for verdicts on the logs of both ends.
    pub log: Option<Role>,
    /// True if verdicts are written as JSON objects.
    pub json: bool,
    /// True if midstream sessions are tracked.
    pub joined: bool,
    /// The settings of a connecting end, for a log of several connections.
    pub active: Settings,
    /// The settings of a listening end: it has the other role, and otherwise the same numbers.
    pub passive: Settings,
}

/// Returns what the options of `hsms capture` request. Returns `None` if a value is invalid.
pub fn capturing_of(options: &ArgMatches<'_>) -> Option<Capturing>
    ensures asks { IfSome result (HasCapturing (rows_of (found_of options.now))) }
    ensures within { IfSome result IsCapturingWithinLimits }
    ensures none { result ≡ None → (capturing : Capturing)
        → HasCapturing (rows_of (found_of options.now)) capturing → ⊥ }
{
    let port = short_of(options, CAPTURED_PORT)?;
    let peer = peer_of(options)?;
    let log = log_of(options)?;
    let json = is_json(options)?;
    let role = role_named(text_or(options, "active", "host"))?;
    let active = settings_with(options, role, Side::Active)?.several();
    let passive = settings_with(options, other_role(role), Side::Passive)?.several();
    Some(Capturing {
        port,
        peer,
        log,
        json,
        joined: flag_of(options, "midstream"),
        active,
        passive,
    })
}

// Returns the address that one end must have, if it is given. Returns `None` if the option's text is not an address.
fn peer_of(options: &ArgMatches<'_>) -> Option<Option<IpAddr>>
    ensures some { IfSome result (HasPeer (rows_of (found_of options.now))) }
    ensures none { result ≡ None → (peer : Option IpAddr) → HasPeer (rows_of (found_of options.now)) peer → ⊥ }
{
    match text_of(options, "peer") {
        Some(text) => Some(Some(text.parse::<IpAddr>().ok()?)),
        None => Some(None),
    }
}

// Returns the role whose log is requested, if there is one. Returns `None` if the option has another text.
fn log_of(options: &ArgMatches<'_>) -> Option<Option<Role>>
    ensures some { IfSome result (λ log. first_of (codes "log") (rows_of (found_of options.now)) ≡ log_word log) }
    ensures none { result ≡ None → (log : Option Role)
        → first_of (codes "log") (rows_of (found_of options.now)) ≡ log_word log → ⊥ }
{
    match text_of(options, "log") {
        Some(text) => Some(Some(role_named(text)?)),
        None => Some(None),
    }
}

// Returns true if verdicts are requested as JSON objects. Returns `None` if there is no such format, or a log is
// requested as JSON.
fn is_json(options: &ArgMatches<'_>) -> Option<bool>
    ensures some { IfSome result (HasVerdictForm (rows_of (found_of options.now))) }
    ensures none { result ≡ None → (json : Bool) → HasVerdictForm (rows_of (found_of options.now)) json → ⊥ }
{
    let json = verdict_form_named(text_or(options, "format", "text"))?;
    if json && text_of(options, "log").is_some() {
        return None;
    }
    Some(json)
}

// Returns true if the format with this name is JSON.
fn verdict_form_named(name: &str) -> Option<bool>
    ensures some { IfSome result (λ json. name.now ≡ verdict_form_word json) }
    ensures none { result ≡ None → (json : Bool) → name.now ≡ verdict_form_word json → ⊥ }
{
    match name {
        "text" => Some(false),
        "json" => Some(true),
        _ => None,
    }
}

fn other_role(role: Role) -> Role
    ensures { result ≡ other_role role }
{
    match role {
        Role::Host => Role::Equipment,
        Role::Equipment => Role::Host,
    }
}
