//! The line of an end.

ghost use Rattle.std.specs.Prelude.{◌≡◌, ◌++◌, IfOk, OnOk, string_bytes};
ghost use Rattle.hsms_log.specs.LineFormat.{role_word};
ghost use Rattle.cli_capture.specs.VerdictLine.{address_text, end_line_of, front_of, lack_words, side_word, told_words, verdict_line_by};

use capture_errors::Shortfall;
use capture_log::{LogVerdict, Pair};
use capture_tcp::Side;
use cli_output::verdict_line;
use hsms_log::{Verdict, Why};
use hsms_machine::Role;
use std::alloc::{AllocError, Global};
use std::net::SocketAddr;

/// The line of an end of this role and side: the addresses of a connection, what it lacks, and what the audit says of the
/// end's log, where there is one.
pub fn end_line(
    alloc: Global,
    pair: &Pair,
    role: Role,
    side: Side,
    shortfall: Option<Shortfall>,
    emitted: Option<LogVerdict>,
) -> Result<String, AllocError>
    ensures { IfOk result (λ line. string_bytes line ≡ end_line_of pair.now role side shortfall emitted) }
{
    let mut line = front(alloc, pair, role, side)?;
    push_lack(&mut line, shortfall)?;
    push_told(alloc, &mut line, emitted)?;
    Ok(line)
}

// The addresses of a pair, the active end's first, and the role and side of an end.
fn front(alloc: Global, pair: &Pair, role: Role, side: Side) -> Result<String, AllocError>
    ensures { IfOk result (λ front. string_bytes front ≡ front_of pair.now role side) }
{
    let role = word_of_role(role);
    let side = word_of_side(side);
    let mut front = String::new(alloc);
    push_address(&mut front, pair.active)?;
    front.push(' ')?;
    push_address(&mut front, pair.passive)?;
    write!(front, " {role} {side}:")?;
    Ok(front)
}

// Adds an address and a port.
#[tactic(auto, unfolding(crate::specs::VerdictLine::address_text))]
fn push_address(line: &mut String, address: SocketAddr) -> Result<(), AllocError>
    ensures { OnOk result (string_bytes line.new ≡ string_bytes line.old ++ address_text address) }
{
    write!(line, "{address}")
}

fn word_of_role(role: Role) -> &'static str
    ensures { result.now ≡ role_word role }
{
    match role {
        Role::Host => "host",
        Role::Equipment => "equipment",
    }
}

fn word_of_side(side: Side) -> &'static str
    ensures { result.now ≡ side_word side }
{
    match side {
        Side::Active => "active",
        Side::Passive => "passive",
    }
}

// Adds the packet that is named where something is missing.
fn push_lack(line: &mut String, shortfall: Option<Shortfall>) -> Result<(), AllocError>
    ensures { OnOk result (string_bytes line.new ≡ string_bytes line.old ++ lack_words shortfall) }
{
    match shortfall {
        Some(shortfall) => {
            let packet = shortfall.packet();
            write!(line, " incomplete packet={packet}")
        }
        None => Ok(()),
    }
}

// Adds what the audit says of a log, if there is one, and the line's end.
fn push_told(
    alloc: Global,
    line: &mut String,
    emitted: Option<LogVerdict>,
) -> Result<(), AllocError>
    ensures { OnOk result (string_bytes line.new ≡ string_bytes line.old ++ told_words emitted) }
{
    match emitted {
        Some(emitted) => {
            line.push(' ')?;
            push_verdict(alloc, line, emitted.verdict, emitted.packet)
        }
        None => line.push('\n'),
    }
}

// Adds a verdict, with the packet of the line that fails if it is a failure of one, and the line's end.
fn push_verdict(
    alloc: Global,
    line: &mut String,
    verdict: Verdict,
    packet: Option<u64>,
) -> Result<(), AllocError>
    ensures { OnOk result (string_bytes line.new ≡ string_bytes line.old ++ verdict_line_by verdict packet) }
{
    let (Verdict::Fail { line: number, why }, Some(packet)) = (verdict, packet) else {
        return line.push_str(verdict_line(alloc, verdict)?.as_str());
    };
    match why {
        Why::Unreadable => write!(line, "fail line={number} packet={packet} unreadable\n"),
        Why::Broken(rule) => {
            let name = rule.name();
            write!(line, "fail line={number} packet={packet} rule={name}\n")
        }
    }
}
