ghost use Rattle.std.specs.Prelude.{◌<◌};

use super::{DONE, Outcome, feed_of, judge, outcome_of, store_of};
use cli_filters::show_hex;
use cli_options::{Form, Showing};
use hsms_frame::Store;
use std::alloc::{AllocError, Global};
use std::process::Abort;

// Shows lines that arrive in chunks, with `max` 256 and depth 32.
fn shown(
    alloc: Global,
    text: &str,
    bare: bool,
    piece: usize,
    sink: &mut Store,
) -> Result<Outcome, AllocError>
    requires { 0 < piece }
{
    let mut source = feed_of(alloc, text.as_bytes(), piece, u64::MAX)?;
    let showing = Showing {
        max: 256,
        depth: 32,
        form: if bare { Form::BareLines } else { Form::Lines },
    };
    Ok(outcome_of(show_hex(alloc, &mut source, sink, showing)))
}

fn check_lines(
    rt: &impl Abort,
    alloc: Global,
    text: &str,
    bare: bool,
    piece: usize,
    want: &str,
    lines: &str,
) -> Result<(), AllocError>
    requires { 0 < piece }
{
    let mut sink = store_of(alloc, 256, piece, u64::MAX)?;
    let outcome = shown(alloc, text, bare, piece, &mut sink)?;
    judge(rt, outcome, &sink, want, lines.as_bytes(), text)
}

// Lines, whether they are bare, and what is shown of them.
const SHOWN: &[(&str, bool, &str)] = &[
    ("", false, ""),
    ("\n\r\n \t\n", false, ""),
    (
        "0000000affff0000000100000001",
        false,
        "select.req ffff 00000001\n",
    ),
    (
        "ffff0000000100000001\r\n\n ff FF\t00000002 00000001 \n",
        true,
        "select.req ffff 00000001\nselect.rsp ffff 00000001 0\n",
    ),
    (
        "0000000b 0000 8101 0000 00000002 4A\n",
        false,
        "data 0000 00000002 S1F1 W ! 4a\n",
    ),
];

// Checks that lines are shown with one byte a call and with all bytes in one call.
fn check_shown(
    rt: &impl Abort,
    alloc: Global,
    text: &str,
    bare: bool,
    lines: &str,
) -> Result<(), AllocError> {
    check_lines(rt, alloc, text, bare, 1, DONE, lines)?;
    check_lines(rt, alloc, text, bare, 4096, DONE, lines)
}

#[test]
fn shows_lines(rt: HostRuntime) -> Result<(), AllocError> {
    for (text, bare, lines) in SHOWN {
        check_shown(&rt, rt.alloc(), text, *bare, lines)?;
    }
    Ok(())
}

const SELECT: &str = "select.req ffff 00000001\n";

const NO_MESSAGE: &str = "Err(Refused(\"NoMessage line=1\"))";

// Lines, whether they are bare, the error, and what is shown before it.
const REFUSED: &[(&str, bool, &str, &str)] = &[
    ("0\n", false, "Err(Refused(\"NoHex line=1\"))", ""),
    ("00 0 0\n", false, "Err(Refused(\"NoHex line=1\"))", ""),
    (
        "\n0000000affff0000000100000001\n0g\n",
        false,
        "Err(Refused(\"NoHex line=3\"))",
        SELECT,
    ),
    ("00\r\r\n", false, "Err(Refused(\"NoHex line=1\"))", ""),
    ("0000000bffff0000000100000001\n", false, NO_MESSAGE, ""),
    (
        "ffff0000000100000001\nffff00000001000000\n",
        true,
        "Err(Refused(\"NoMessage line=2\"))",
        SELECT,
    ),
    ("ffff00000001000000", true, NO_MESSAGE, ""),
];

#[test]
fn refuses_lines(rt: HostRuntime) -> Result<(), AllocError> {
    for (text, bare, want, lines) in REFUSED {
        check_lines(&rt, rt.alloc(), text, *bare, 7, want, lines)?;
    }
    Ok(())
}

// Returns the line of a message, followed by `count` spaces.
fn blank(alloc: Global, count: usize) -> Result<String, AllocError> {
    let mut text = String::from_str(alloc, "ffff0000000100000001")?;
    for _ in 0..count {
        text.push(' ')?;
    }
    Ok(text)
}

// Checks what is shown of such a line.
fn check_blank(
    rt: &impl Abort,
    alloc: Global,
    count: usize,
    piece: usize,
    want: &str,
    lines: &str,
) -> Result<(), AllocError>
    requires { 0 < piece }
{
    let text = blank(alloc, count)?;
    check_lines(rt, alloc, text.as_str(), true, piece, want, lines)
}

// A line of the maximum length, and one that is a byte longer.
#[test]
fn lines_are_limited(rt: HostRuntime) -> Result<(), AllocError> {
    check_blank(&rt, rt.alloc(), 4 * 256 + 64 - 20, 4096, DONE, SELECT)?;
    check_blank(&rt, rt.alloc(), 4 * 256 + 64 - 19, 7, NO_MESSAGE, "")
}
