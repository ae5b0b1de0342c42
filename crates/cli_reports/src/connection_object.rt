//! A line of `hsms capture` as a JSON object (RFC 8259) in one line.

use serde_json::Value;
use std::alloc::{AllocError, Global};

/// Returns the object of a line without its line feed: of a verdict, or of a comment.
pub fn capture_object(alloc: Global, line: &str) -> Result<String, AllocError> {
    let mut object = String::from_str(alloc, "{")?;
    match line.strip_prefix("# ") {
        Some(comment) => push_comment(alloc, &mut object, comment)?,
        None => push_verdict(&mut object, line)?,
    }
    object.push_str("}\n")?;
    Ok(object)
}

// Appends the members of a verdict: the addresses of a connection, the role and link of an end, and what its log shows.
fn push_verdict(object: &mut String, line: &str) -> Result<(), AllocError> {
    let (front, shown) = line.split_once(": ").unwrap_or((line, ""));
    object.push_str("\"type\":\"end\"")?;
    for (name, word) in ["active", "passive", "role", "link"]
        .iter()
        .zip(front.split(' '))
    {
        match word.rsplit_once(':') {
            Some((address, port)) => push_address(object, name, address, port)?,
            None => push_text(object, name, word)?,
        }
    }
    push_shown(object, shown)
}

// Appends an address without its brackets, and a port.
fn push_address(
    object: &mut String,
    name: &str,
    address: &str,
    port: &str,
) -> Result<(), AllocError> {
    let address = address.trim_start_matches('[').trim_end_matches(']');
    write!(
        object,
        ",\"{name}\":{{\"address\":\"{address}\",\"port\":{port}}}"
    )
}

// Appends what the log of an end shows: the packet of what is missing, and the verdict with its numbers.
fn push_shown(object: &mut String, shown: &str) -> Result<(), AllocError> {
    let mut is_incomplete = false;
    let mut is_judged = false;
    for word in shown.split(' ') {
        match word.split_once('=') {
            Some((_, packet)) if is_incomplete => {
                push_number(object, "incomplete", packet)?;
                is_incomplete = false;
            }
            Some(("rule", rule)) => push_text(object, "rule", rule)?,
            Some((name, number)) => push_number(object, name, number)?,
            None if word == "incomplete" => is_incomplete = true,
            None if word == "unreadable" => push_text(object, "rule", word)?,
            None => {
                push_text(object, "verdict", word)?;
                is_judged = true;
            }
        }
    }
    if is_judged {
        return Ok(());
    }
    push_text(object, "verdict", "none")
}

// Appends the members of a comment: with which packet a file begins, what was skipped, or what was not judged.
fn push_comment(alloc: Global, object: &mut String, comment: &str) -> Result<(), AllocError> {
    if let Some((front, name)) = comment.split_once(": ") {
        if let Some(packet) = front.strip_prefix("from packet ") {
            object.push_str("\"type\":\"file\"")?;
            push_number(object, "packet", packet)?;
            return push_quoted(alloc, object, "file", name);
        }
        if let Some((packets, _)) = front.split_once(" packet") {
            object.push_str("\"type\":\"skipped\"")?;
            push_number(object, "packets", packets)?;
            return push_counts(object, name);
        }
        object.push_str("\"type\":\"unjudged\"")?;
        return push_quoted(alloc, object, "text", name);
    }
    object.push_str("\"type\":\"comment\"")?;
    push_quoted(alloc, object, "text", comment)
}

// Appends how many packets were skipped for each reason.
fn push_counts(object: &mut String, counts: &str) -> Result<(), AllocError> {
    for count in counts.split(", ") {
        if let Some((reason, number)) = count.split_once(' ') {
            push_number(object, reason, number)?;
        }
    }
    Ok(())
}

fn push_number(object: &mut String, name: &str, number: &str) -> Result<(), AllocError> {
    write!(object, ",\"{name}\":{number}")
}

fn push_text(object: &mut String, name: &str, text: &str) -> Result<(), AllocError> {
    write!(object, ",\"{name}\":\"{text}\"")
}

// Appends a text that may have quotation marks and other markup.
fn push_quoted(
    alloc: Global,
    object: &mut String,
    name: &str,
    text: &str,
) -> Result<(), AllocError> {
    let text = Value::String(String::from_str(alloc, text)?).to_string(alloc)?;
    write!(object, ",\"{name}\":{text}")
}
