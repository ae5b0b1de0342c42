//! The line on what is not audited.

ghost use Rattle.std.specs.Prelude.{◌≡◌, ◌++◌, IfOk, OnOk, string_bytes};
ghost use Rattle.capture_unjudged.specs.Line.{devices_part, elsewhere_part, line_of, numbers_text, parts_of, ports_part, rest_text, running_part, sessions_text, with_part};

use crate::numbers::Numbers;
use crate::pairs::Pairs;
use crate::unjudged::Unjudged;
use std::alloc::{AllocError, Global};

// The maximum length of a list of numbers. Two dots represent further ones.
const LISTED: usize = 8;

/// Returns the line on what is not audited, with its line feed. It is empty if there is nothing.
pub fn line_of(alloc: Global, unjudged: &Unjudged) -> Result<String, AllocError>
    ensures { IfOk result (λ line. string_bytes line ≡ line_of unjudged.now) }
{
    let parts = parts_of(alloc, unjudged)?;
    if parts.is_empty() {
        return Ok(parts);
    }
    let mut line = String::from_str(alloc, "# not judged: ")?;
    line.push_str(parts.as_str())?;
    line.push('\n')?;
    Ok(line)
}

// Returns the parts of the line.
fn parts_of(alloc: Global, unjudged: &Unjudged) -> Result<String, AllocError>
    ensures { IfOk result (λ parts. string_bytes parts ≡ parts_of unjudged.now) }
{
    let mut parts = String::new(alloc);
    push_part(&mut parts, running_part(alloc, &unjudged.running)?.as_str())?;
    push_part(
        &mut parts,
        elsewhere_part(alloc, &unjudged.elsewhere)?.as_str(),
    )?;
    push_part(
        &mut parts,
        devices_part(alloc, unjudged.strange, unjudged.devices.lowest())?.as_str(),
    )?;
    push_part(
        &mut parts,
        ports_part(alloc, unjudged.ports.lowest())?.as_str(),
    )?;
    Ok(parts)
}

// Appends a part, after a semicolon if it is not the first.
fn push_part(parts: &mut String, part: &str) -> Result<(), AllocError>
    ensures { OnOk result (string_bytes parts.new ≡ with_part (string_bytes parts.old) part.now) }
{
    if part.is_empty() {
        return Ok(());
    }
    if !parts.is_empty() {
        parts.push_str("; ")?;
    }
    parts.push_str(part)
}

// Returns the part on midstream sessions.
fn running_part(alloc: Global, running: &Pairs) -> Result<String, AllocError>
    ensures { IfOk result (λ part. string_bytes part ≡ running_part running.now) }
{
    let mut part = String::new(alloc);
    match running.count() {
        0 => {}
        1 => part.push_str("1 session that was running before the capture (--midstream)")?,
        count => {
            push_sessions(&mut part, count as u64, running.has_more())?;
            part.push_str(" that were running before the capture (--midstream)")?;
        }
    }
    Ok(part)
}

// Returns the part on sessions of other addresses.
fn elsewhere_part(alloc: Global, elsewhere: &Pairs) -> Result<String, AllocError>
    ensures { IfOk result (λ part. string_bytes part ≡ elsewhere_part elsewhere.now) }
{
    let mut part = String::new(alloc);
    if elsewhere.count() > 0 {
        push_sessions(&mut part, elsewhere.count() as u64, elsewhere.has_more())?;
        part.push_str(" of other addresses (--peer)")?;
    }
    Ok(part)
}

// Returns the part on sessions with other device IDs.
fn devices_part(alloc: Global, sessions: u64, devices: &[u16]) -> Result<String, AllocError>
    ensures { IfOk result (λ part. string_bytes part ≡ devices_part sessions devices.now) }
{
    let mut part = String::new(alloc);
    if sessions > 0 {
        push_sessions(&mut part, sessions, false)?;
        part.push_str(if devices.len() == 1 {
            " of another device: "
        } else {
            " of other devices: "
        })?;
        push_numbers(&mut part, devices)?;
    }
    Ok(part)
}

// Returns the part on other ports.
fn ports_part(alloc: Global, ports: &[u16]) -> Result<String, AllocError>
    ensures { IfOk result (λ part. string_bytes part ≡ ports_part ports.now) }
{
    let mut part = String::new(alloc);
    match ports.len() {
        0 => return Ok(part),
        1 => part.push_str("HSMS at another port: ")?,
        _ => part.push_str("HSMS at other ports: ")?,
    }
    push_numbers(&mut part, ports)?;
    Ok(part)
}

// Appends the number of sessions.
fn push_sessions(part: &mut String, count: u64, has_more: bool) -> Result<(), AllocError>
    ensures { OnOk result (string_bytes part.new ≡ string_bytes part.old ++ sessions_text count has_more) }
{
    if has_more {
        return write!(part, "{count} or more sessions");
    }
    if count == 1 {
        return part.push_str("1 session");
    }
    write!(part, "{count} sessions")
}

// Appends the first eight numbers, and two dots for further ones.
fn push_numbers(part: &mut String, numbers: &[u16]) -> Result<(), AllocError>
    ensures { OnOk result (string_bytes part.new ≡ string_bytes part.old ++ numbers_text numbers.now) }
{
    let Some((first, rest)) = numbers.split_first() else {
        return Ok(());
    };
    write!(part, "{first}")?;
    push_rest(part, rest, LISTED - 1)
}

// Appends at most `left` further numbers, and two dots for those after them.
#[tactic(auto, using(crate::proofs::Recursions::rest_none, crate::proofs::Recursions::rest_dots, crate::proofs::Recursions::rest_first))]
fn push_rest(part: &mut String, numbers: &[u16], left: usize) -> Result<(), AllocError>
    ensures { OnOk result (string_bytes part.new ≡ string_bytes part.old ++ rest_text left numbers.now) }
{
    let Some((first, rest)) = numbers.split_first() else {
        return Ok(());
    };
    if left == 0 {
        return part.push_str(" ..");
    }
    write!(part, ", {first}")?;
    push_rest(part, rest, left - 1)
}
