//! The line of an endpoint.

ghost use Rattle.std.specs.Prelude.{◌≡◌, ◌++◌, IfOk, OnOk, string_bytes};
ghost use Rattle.hsms_log.specs.LineFormat.{role_word};
ghost use Rattle.capture_verdicts.specs.VerdictLine.{address_text, end_line_of, front_of, packet_of, shortfall_words, side_word, verdict_words, verdict_line_by};

use capture_events::Shortfall;
use capture_log::{LogVerdict, Pair};
use capture_tcp::Side;
use cli_output::verdict_line;
use hsms_log::{Verdict, Why};
use hsms_machine::Role;
use std::alloc::{AllocError, Global};
use std::net::SocketAddr;

/// Returns the line of an endpoint of this role and side: the addresses of the connection, the shortfall, and the
/// verdict on the endpoint's log, if it has one.
pub fn end_line(
    alloc: Global,
    pair: &Pair,
    role: Role,
    side: Side,
    shortfall: Option<Shortfall>,
    verdict: Option<LogVerdict>,
) -> Result<String, AllocError>
    ensures { IfOk result (λ line. string_bytes line ≡ end_line_of pair.now role side shortfall verdict) }
{
    let mut line = front(alloc, pair, role, side)?;
    push_shortfall(&mut line, shortfall)?;
    push_log_verdict(alloc, &mut line, verdict)?;
    Ok(line)
}

// Returns the addresses of a pair, the active endpoint's first, and the role and side of an endpoint.
fn front(alloc: Global, pair: &Pair, role: Role, side: Side) -> Result<String, AllocError>
    ensures { IfOk result (λ front. string_bytes front ≡ front_of pair.now role side) }
{
    let role = word_of_role(role);
    let side = word_of_side(side);
    let mut front = String::new(alloc);
    push_address(&mut front, pair.active)?;
    front.push(' ')?;
    push_address(&mut front, pair.passive)?;
    write!(front, " {role} {side}:")?;
    Ok(front)
}

// Appends an address and a port.
#[tactic(auto, unfolding(crate::specs::VerdictLine::address_text))]
fn push_address(line: &mut String, address: SocketAddr) -> Result<(), AllocError>
    ensures { OnOk result (string_bytes line.new ≡ string_bytes line.old ++ address_text address) }
{
    write!(line, "{address}")
}

fn word_of_role(role: Role) -> &'static str
    ensures { result.now ≡ role_word role }
{
    match role {
        Role::Host => "host",
        Role::Equipment => "equipment",
    }
}

fn word_of_side(side: Side) -> &'static str
    ensures { result.now ≡ side_word side }
{
    match side {
        Side::Active => "active",
        Side::Passive => "passive",
    }
}

// Appends the packet of a shortfall.
fn push_shortfall(line: &mut String, shortfall: Option<Shortfall>) -> Result<(), AllocError>
    ensures { OnOk result (string_bytes line.new ≡ string_bytes line.old ++ shortfall_words shortfall) }
{
    match shortfall {
        Some(shortfall) => {
            let packet = packet_of(shortfall);
            write!(line, " incomplete packet={packet}")
        }
        None => Ok(()),
    }
}

// Appends the verdict on a log, if there is one, and the line's end.
fn push_log_verdict(
    alloc: Global,
    line: &mut String,
    verdict: Option<LogVerdict>,
) -> Result<(), AllocError>
    ensures { OnOk result (string_bytes line.new ≡ string_bytes line.old ++ verdict_words verdict) }
{
    match verdict {
        Some(verdict) => {
            line.push(' ')?;
            push_verdict(alloc, line, verdict.verdict, verdict.packet)
        }
        None => line.push('\n'),
    }
}

// Appends a verdict, with the packet of the failing line, and the line's end.
fn push_verdict(
    alloc: Global,
    line: &mut String,
    verdict: Verdict,
    packet: Option<u64>,
) -> Result<(), AllocError>
    ensures { OnOk result (string_bytes line.new ≡ string_bytes line.old ++ verdict_line_by verdict packet) }
{
    let (Verdict::Fail { line: number, why }, Some(packet)) = (verdict, packet) else {
        return line.push_str(verdict_line(alloc, verdict)?.as_str());
    };
    match why {
        Why::Unreadable => write!(line, "fail line={number} packet={packet} unreadable\n"),
        Why::Broken(rule) => {
            let name = rule.name();
            write!(line, "fail line={number} packet={packet} rule={name}\n")
        }
    }
}

// Returns the number of the packet of a shortfall.
fn packet_of(shortfall: Shortfall) -> u64
    ensures { result ≡ packet_of shortfall }
{
    match shortfall {
        Shortfall::Lost(packet)
        | Shortfall::Differs(packet)
        | Shortfall::Length(packet)
        | Shortfall::Full(packet)
        | Shortfall::Time(packet)
        | Shortfall::File(_, packet) => packet,
    }
}
