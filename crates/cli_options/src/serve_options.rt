//! The options of `hsms serve`: which connection is served, and how.

ghost use Rattle.std.specs.Prelude.{◌≡◌, ◌≤◌, ℕ, IfSome, Some, None, codes};
ghost use Rattle.clap.specs.Words.{first_of, found_of, rows_of};
ghost use Rattle.hsms_machine.specs.Settings.{Parameters};
ghost use Rattle.hsms_machine.specs.declared.settings.Role.{Role};
ghost use Rattle.hsms_machine.specs.declared.settings.Side.{Side};
ghost use Rattle.cli_options.specs.ServeOptions.{AsksToServe, HasEndpoint, HasNumbers, HasRepeat, HasSettings, allows_port, limits_repeat as has_limits, role_word, says_how_to_listen as says_how, side_word};
ghost use Rattle.cli_options.specs.InnerServeOptions.{HasOwnNumbers};
ghost use Rattle.cli_options.specs.declared.serve_options.Repeat.{Repeat};
ghost use Rattle.cli_options.specs.declared.serve_options.Service.{Service};

use crate::option_tables::{
    CONNECTIONS, DEVICE, FIRST_SYSTEM, LINKTEST, MAX, PORT, T3, T5, T6, T7, T8, TURNS,
};
use crate::option_values::{depth_of, flag_of, number_of, short_of, text_of, text_or};
use clap::ArgMatches;
use hsms_machine::{Role, Settings, Side};

/// A connection to serve.
#[derive(Clone, Copy)]
pub struct Service<'a> {
    /// The settings of the end that serves it. An active one connects, and a passive one listens (SEMI E37, section 6).
    pub settings: Settings,
    /// Where it connects or listens: an IP address or the name of a host.
    pub address: &'a str,
    /// The TCP port there; 0 for any free one, at which a passive end listens.
    pub port: u16,
    /// The name of the file to which a passive end writes its port.
    pub port_file: Option<&'a str>,
    /// True if a passive end serves no connection whose peer sends nothing within T7.
    pub skip_silent: bool,
    /// The system bytes of its first own message.
    pub first_system: u32,
    /// The maximum number of turns.
    pub turns: u32,
    /// The idle time after which it tests its link by Linktest.req, in milliseconds (SEMI E37, section 7); 0 for never.
    pub linktest: u32,
    /// The model (MDLN) that equipment reports.
    pub mdln: &'a str,
    /// The software revision (SOFTREV) that equipment reports.
    pub softrev: &'a str,
    /// True if standard input is a script of messages to send, after which the session is separated.
    pub send: bool,
    /// True if the messages of standard input with an even function are replies of its message handler.
    pub answer: bool,
    /// True if status 1 follows when a step of the script was refused, or was left when the connection ended.
    pub all_sent: bool,
    /// True if status 1 follows when an own primary with W got no reply, or function 0.
    pub all_answered: bool,
    /// Whether connections are served one after another, and which.
    pub repeat: Repeat,
}

/// Whether connections are served one after another, and which.
#[derive(Clone, Copy)]
pub struct Repeat {
    /// True if further connections follow the first one, in the same log. Otherwise the other fields are ignored.
    pub again: bool,
    /// True if only the first connection uses the script.
    pub once: bool,
    /// The maximum number of connections that are served, from 1.
    pub connections: u32,
    /// How long an active end waits before it connects again, in milliseconds (SEMI E37, section 10, T5).
    pub t5: u32,
}

/// Returns what the options of `hsms serve` request. Returns `None` if a value is invalid.
pub fn service_of<'a>(options: &ArgMatches<'a>) -> Option<Service<'a>>
    ensures asks { IfSome result (AsksToServe (rows_of (found_of options.now))) }
    ensures port { IfSome result (λ service. service.port ≤ 65535) }
    ensures none { result ≡ None → (service : Service) → AsksToServe (rows_of (found_of options.now)) service → ⊥ }
{
    let (settings, port) = endpoint_of(options)?;
    let (first_system, turns, linktest) = numbers_of(options)?;
    Some(Service {
        address: text_of(options, "address")?,
        repeat: repeat_of(options)?,
        settings,
        port,
        port_file: text_of(options, "port-file"),
        skip_silent: flag_of(options, "skip-silent"),
        first_system,
        turns,
        linktest,
        mdln: text_or(options, "mdln", ""),
        softrev: text_or(options, "softrev", ""),
        send: flag_of(options, "send"),
        answer: flag_of(options, "answer"),
        all_sent: flag_of(options, "all-sent"),
        all_answered: flag_of(options, "all-answered"),
    })
}

// Returns the settings and the port of a service, if an end with these settings can have the port and the options.
fn endpoint_of(options: &ArgMatches<'_>) -> Option<(Settings, u16)>
    ensures asks { IfSome result (λ end. HasEndpoint (rows_of (found_of options.now)) end.0 end.1) }
    ensures port { IfSome result (λ end. end.1 ≤ 65535) }
    ensures none { result ≡ None → (settings : Parameters) (port : ℕ)
        → HasEndpoint (rows_of (found_of options.now)) settings port → ⊥ }
{
    let settings = settings_of(options)?;
    let port = short_of(options, PORT)?;
    if allows_port(settings.link(), port, says_how_to_listen(options)) {
        return Some((settings, port));
    }
    None
}

// Returns whether an end with this side can have this port, and options that say how it listens.
fn allows_port(link: Side, port: u16, says_how: bool) -> bool
    ensures { result ≡ allows_port link port says_how }
{
    match link {
        Side::Passive => true,
        Side::Active => port != 0 && !says_how,
    }
}

// Returns true if these options say how an end listens.
fn says_how_to_listen(options: &ArgMatches<'_>) -> bool
    ensures { result ≡ says_how (rows_of (found_of options.now)) }
{
    text_of(options, "port-file").is_some() || flag_of(options, "skip-silent")
}

// Returns a service's first system bytes, number of turns, and link test time.
fn numbers_of(options: &ArgMatches<'_>) -> Option<(u32, u32, u32)>
    ensures asks { IfSome result (λ n. HasOwnNumbers (rows_of (found_of options.now)) n.0 n.1 n.2) }
    ensures none { result ≡ None → (s : Service)
        → HasOwnNumbers (rows_of (found_of options.now)) s.first_system s.turns s.linktest → ⊥ }
{
    match (
        number_of(options, FIRST_SYSTEM),
        number_of(options, TURNS),
        number_of(options, LINKTEST),
    ) {
        (Some(first_system), Some(turns), Some(linktest)) => Some((first_system, turns, linktest)),
        _ => None,
    }
}

// Returns whether connections are served one after another, and which, by these options.
fn repeat_of(options: &ArgMatches<'_>) -> Option<Repeat>
    ensures asks { IfSome result (HasRepeat (rows_of (found_of options.now))) }
    ensures none { result ≡ None → (repeat : Repeat) → HasRepeat (rows_of (found_of options.now)) repeat → ⊥ }
{
    let again = flag_of(options, "reconnect");
    if !again && limits_repeat(options) {
        return None;
    }
    Some(Repeat {
        connections: number_of(options, CONNECTIONS)?,
        t5: number_of(options, T5)?,
        again,
        once: flag_of(options, "once"),
    })
}

// Returns true if these options say something about further connections.
fn limits_repeat(options: &ArgMatches<'_>) -> bool
    ensures { result ≡ has_limits (rows_of (found_of options.now)) }
{
    flag_of(options, "once")
        || text_of(options, "connections").is_some()
        || text_of(options, "t5").is_some()
}

// Returns the settings of an end with the role and side of these options, for a log of one connection.
fn settings_of(options: &ArgMatches<'_>) -> Option<Settings>
    ensures asks { IfSome result (HasSettings (rows_of (found_of options.now))) }
    ensures none { result ≡ None → (settings : Parameters) → HasSettings (rows_of (found_of options.now)) settings → ⊥ }
{
    let role = role_named(text_of(options, "role")?)?;
    settings_with(options, role, side_of(options)?)
}

/// Returns the settings of an end with this role and side and the numbers of the options, for a log of one connection.
pub fn settings_with(options: &ArgMatches<'_>, role: Role, link: Side) -> Option<Settings>
    ensures ends { IfSome result (λ s. (s.version ≡ 1) × (s.role ≡ role) × (s.link ≡ link)) }
    ensures asks { IfSome result (HasNumbers (rows_of (found_of options.now))) }
    ensures none { result ≡ None → (settings : Parameters) → HasNumbers (rows_of (found_of options.now)) settings → ⊥ }
{
    match (
        short_of(options, DEVICE),
        number_of(options, T3),
        number_of(options, T6),
        number_of(options, T7),
        number_of(options, T8),
        number_of(options, MAX),
        depth_of(options),
    ) {
        (Some(device), Some(t3), Some(t6), Some(t7), Some(t8), Some(max), Some(depth)) => {
            Settings::new(role, link, device, t3, t6, t7, t8, max, depth)
        }
        _ => None,
    }
}

/// Returns the role with this name.
pub fn role_named(name: &str) -> Option<Role>
    ensures some { IfSome result (λ role. name.now ≡ role_word role) }
    ensures none { result ≡ None → (role : Role) → name.now ≡ role_word role → ⊥ }
{
    match name {
        "host" => Some(Role::Host),
        "equipment" => Some(Role::Equipment),
        _ => None,
    }
}

// Returns the side that these options name.
fn side_of(options: &ArgMatches<'_>) -> Option<Side>
    ensures some { IfSome result (λ side. first_of (codes "link") (rows_of (found_of options.now)) ≡ Some (side_word side)) }
    ensures none { result ≡ None → (side : Side)
        → first_of (codes "link") (rows_of (found_of options.now)) ≡ Some (side_word side) → ⊥ }
{
    match text_of(options, "link") {
        Some("active") => Some(Side::Active),
        Some("passive") => Some(Side::Passive),
        Some(_) => None,
        None => None,
    }
}
