//! Skipped packets.

ghost use Rattle.std.specs.Prelude.{◌≡◌, ◌++◌, IfOk, OnOk, string_bytes};
ghost use Rattle.capture_verdicts.specs.SkippedPackets.{packets_words, with_kind, all_of, kinds_of, skipped_after, line_of, none_skipped};

use capture_pcap::Reason;
use std::alloc::{AllocError, Global};

/// The number of skipped packets that may have carried segments, by reason.
#[derive(Clone, Copy)]
pub struct SkippedPackets {
    link: u64,
    short: u64,
    fragment: u64,
    cut: u64,
    header: u64,
    damaged: u64,
}

impl SkippedPackets {
    /// Returns counts of 0.
    pub fn new() -> SkippedPackets
        ensures { result ≡ none_skipped }
    {
        SkippedPackets {
            link: 0,
            short: 0,
            fragment: 0,
            cut: 0,
            header: 0,
            damaged: 0,
        }
    }

    /// Counts one more.
    pub fn count(&mut self, reason: Reason)
        ensures { self.new ≡ skipped_after self.old reason }
    {
        match reason {
            Reason::Link => self.link = self.link.saturating_add(1),
            Reason::Short => self.short = self.short.saturating_add(1),
            Reason::Fragment => self.fragment = self.fragment.saturating_add(1),
            Reason::Cut => self.cut = self.cut.saturating_add(1),
            Reason::Header => self.header = self.header.saturating_add(1),
            Reason::Damaged => self.damaged = self.damaged.saturating_add(1),
        }
    }

    /// Returns the line with the counts, with its end. Empty if there are none.
    pub fn line(&self, alloc: Global) -> Result<String, AllocError>
        ensures { IfOk result (λ line. string_bytes line ≡ line_of self.now) }
    {
        let all = self.all();
        if all == 0 {
            return Ok(String::new(alloc));
        }
        let kinds = self.kinds(alloc)?;
        let mut line = String::from_str(alloc, "# ")?;
        push_packets(&mut line, all)?;
        write!(line, " skipped: {kinds}\n")?;
        Ok(line)
    }

    // Returns their number.
    fn all(&self) -> u64
        ensures { result ≡ all_of self.now }
    {
        self.link
            .saturating_add(self.short)
            .saturating_add(self.fragment)
            .saturating_add(self.cut)
            .saturating_add(self.header)
            .saturating_add(self.damaged)
    }

    // Returns the kinds with their counts.
    fn kinds(&self, alloc: Global) -> Result<String, AllocError>
        ensures { IfOk result (λ kinds. string_bytes kinds ≡ kinds_of self.now) }
    {
        let mut kinds = String::new(alloc);
        push_kind(&mut kinds, "link", self.link)?;
        push_kind(&mut kinds, "short", self.short)?;
        push_kind(&mut kinds, "fragment", self.fragment)?;
        push_kind(&mut kinds, "truncated", self.cut)?;
        push_kind(&mut kinds, "header", self.header)?;
        push_kind(&mut kinds, "damaged", self.damaged)?;
        Ok(kinds)
    }
}

// Appends a kind with its count, if the count is not 0, after a comma if it is not the first.
fn push_kind(kinds: &mut String, kind: &str, count: u64) -> Result<(), AllocError>
    ensures { OnOk result (string_bytes kinds.new ≡ with_kind (string_bytes kinds.old) kind.now count) }
{
    if count == 0 {
        return Ok(());
    }
    if !kinds.is_empty() {
        kinds.push_str(", ")?;
    }
    write!(kinds, "{kind} {count}")
}

// Appends the number of packets.
fn push_packets(line: &mut String, all: u64) -> Result<(), AllocError>
    ensures { OnOk result (string_bytes line.new ≡ string_bytes line.old ++ packets_words all) }
{
    if all == 1 {
        line.push_str("1 packet")
    } else {
        write!(line, "{all} packets")
    }
}
