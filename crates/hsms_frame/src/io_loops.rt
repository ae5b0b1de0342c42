//! Loops that read or write a complete buffer.

ghost use Rattle.std.specs.Prelude.{◌≡◌, ◌<◌, ◌≤◌, ◌+◌, length, IfOk, OnOk, OnErr};
ghost use Rattle.hsms_frame.specs.CallCounts.{count_failure};
ghost use Rattle.hsms_frame.specs.Io.{IfRecorded, Takes, TakesFewer, Grows, GrowsByFront, CountsFill};
ghost use Rattle.hsms_frame.specs.Frame.{IsOctets};

use crate::io::{Failed, Sink, Source};

/// Fills a slice. Returns how many bytes were read: fewer than its length only at the end of the input. If it fails,
/// fewer bytes than its length were read.
pub fn fill<R: Source>(source: &mut R, into: &mut [u8]) -> Result<usize, Failed>
    ensures bound { IfOk result (λ n. n ≤ length into.new) }
    ensures len { length into.new ≡ length into.old }
    ensures fits { IsOctets into.new }
    ensures octets { IfOk result (λ n. Takes (R.state source.old).left (R.state source.new).left n into.new) }
    ensures end { IfOk result
        (λ n. n < length into.new → IfRecorded (R.state source.old).left (λ octets. length octets ≡ n)) }
    ensures err { OnErr result (TakesFewer (R.state source.old).left (R.state source.new).left into.new) }
    ensures pulls { (R.state source.new).pulls ≤ (R.state source.old).pulls + length into.old }
    ensures counts { CountsFill (length into.old) result (R.state source.old) (R.state source.new) }
{
    let mut filled = 0;
    while filled < into.len() {
        let count = source.pull(&mut into[filled..])?;
        if count == 0 {
            break;
        }
        filled += count;
    }
    Ok(filled)
}

/// Writes all bytes. If it fails, a prefix of the bytes was written.
pub fn give_all<W: Sink>(sink: &mut W, octets: &[u8]) -> Result<(), Failed>
    ensures ok { OnOk result (Grows (W.state sink.old).written (W.state sink.new).written octets.now) }
    ensures err { OnErr result (GrowsByFront (W.state sink.old).written (W.state sink.new).written octets.now) }
    ensures gives { (W.state sink.new).gives ≤ (W.state sink.old).gives + length octets.now }
    ensures failures { (W.state sink.new).failures ≡ count_failure result (W.state sink.old).failures }
{
    let mut given = 0;
    while given < octets.len() {
        given += sink.give(&octets[given..])?;
    }
    Ok(())
}
