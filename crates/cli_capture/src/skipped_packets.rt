//! Packets that are left out.

ghost use Rattle.std.specs.Prelude.{◌≡◌, ◌++◌, IfOk, OnOk, string_bytes};
ghost use Rattle.cli_capture.specs.SkippedPackets.{packets_words, with_kind, all_of, kinds_of, left_out_after, line_of, none_left_out};

use capture_pcap::Reason;
use std::alloc::{AllocError, Global};

/// How many packets were left out that may have carried segments, by the reason.
#[derive(Clone, Copy)]
pub struct LeftOut {
    link: u64,
    short: u64,
    fragment: u64,
    cut: u64,
    header: u64,
    damaged: u64,
}

impl LeftOut {
    /// None.
    pub fn new() -> LeftOut
        ensures { result ≡ none_left_out }
    {
        LeftOut {
            link: 0,
            short: 0,
            fragment: 0,
            cut: 0,
            header: 0,
            damaged: 0,
        }
    }

    /// One more.
    pub fn count(&mut self, reason: Reason)
        ensures { self.new ≡ left_out_after self.old reason }
    {
        match reason {
            Reason::Link => self.link = self.link.saturating_add(1),
            Reason::Short => self.short = self.short.saturating_add(1),
            Reason::Fragment => self.fragment = self.fragment.saturating_add(1),
            Reason::Cut => self.cut = self.cut.saturating_add(1),
            Reason::Header => self.header = self.header.saturating_add(1),
            Reason::Damaged => self.damaged = self.damaged.saturating_add(1),
        }
    }

    /// The line that tells them, with its end; empty where there are none.
    pub fn line(&self, alloc: Global) -> Result<String, AllocError>
        ensures { IfOk result (λ line. string_bytes line ≡ line_of self.now) }
    {
        let all = self.all();
        if all == 0 {
            return Ok(String::new(alloc));
        }
        let kinds = self.kinds(alloc)?;
        let mut line = String::from_str(alloc, "# ")?;
        push_packets(&mut line, all)?;
        write!(line, " skipped: {kinds}\n")?;
        Ok(line)
    }

    // How many there are, for any reason.
    fn all(&self) -> u64
        ensures { result ≡ all_of self.now }
    {
        self.link
            .saturating_add(self.short)
            .saturating_add(self.fragment)
            .saturating_add(self.cut)
            .saturating_add(self.header)
            .saturating_add(self.damaged)
    }

    // The kinds with their counts.
    fn kinds(&self, alloc: Global) -> Result<String, AllocError>
        ensures { IfOk result (λ kinds. string_bytes kinds ≡ kinds_of self.now) }
    {
        let mut kinds = String::new(alloc);
        push_kind(&mut kinds, "link", self.link)?;
        push_kind(&mut kinds, "short", self.short)?;
        push_kind(&mut kinds, "fragment", self.fragment)?;
        push_kind(&mut kinds, "truncated", self.cut)?;
        push_kind(&mut kinds, "header", self.header)?;
        push_kind(&mut kinds, "damaged", self.damaged)?;
        Ok(kinds)
    }
}

// Adds a kind with its count, if there is some of it, behind a comma if it isn't the first.
fn push_kind(kinds: &mut String, kind: &str, count: u64) -> Result<(), AllocError>
    ensures { OnOk result (string_bytes kinds.new ≡ with_kind (string_bytes kinds.old) kind.now count) }
{
    if count == 0 {
        return Ok(());
    }
    if !kinds.is_empty() {
        kinds.push_str(", ")?;
    }
    write!(kinds, "{kind} {count}")
}

// Adds how many packets there are.
fn push_packets(line: &mut String, all: u64) -> Result<(), AllocError>
    ensures { OnOk result (string_bytes line.new ≡ string_bytes line.old ++ packets_words all) }
{
    if all == 1 {
        line.push_str("1 packet")
    } else {
        write!(line, "{all} packets")
    }
}
