//! The complete input.

ghost use Rattle.std.specs.Prelude.{◌≡◌, ◌≤◌, ℕ, vec_len, IfOk, OnOk, IfErr};
ghost use Rattle.hsms_frame.specs.CallCounts.{next_count};
ghost use Rattle.hsms_frame.specs.Io.{IfRecorded};
ghost use Rattle.cli_filters.specs.Encode.{IsWholeInput, IsPartOfInput};
ghost use Rattle.cli_filters.specs.InnerEncode.{IsReadPast};
ghost use Rattle.cli_filters.specs.EncodeErrors.{reads_after, writes_after};

use crate::encode_error::EncodeError;
use hsms_frame::Source;
use std::alloc::Global;

const BLOCK: usize = 65536;

/// Returns the bytes of an input. Returns `Input` if it has more than `limit` bytes. Returns a failed read only if at
/// most `limit` bytes were consumed before it.
pub fn read_whole<R: Source>(
    alloc: Global,
    source: &mut R,
    limit: usize,
) -> Result<Vec<u8>, EncodeError>
    ensures ok { IfOk result (λ octets. IfRecorded (R.state source.old).left (IsWholeInput limit octets.items)) }
    ensures err { IfErr result (λ fault. IfRecorded (R.state source.old).left
        (λ input. IsPartOfInput limit input fault (R.state source.new).left)) }
    ensures writes { (n : ℕ) → writes_after result n ≡ n }
    ensures end { OnOk result ((R.state source.new).ends ≡ next_count (R.state source.old).ends) }
    ensures reads { (R.state source.new).failures ≡ reads_after result (R.state source.old).failures }
{
    let octets = read_past(alloc, source, limit)?;
    if octets.len() > limit {
        return Err(EncodeError::Input);
    }
    Ok(octets)
}

// Returns the bytes of an input up to its end, or up to some past the limit.
fn read_past<R: Source>(alloc: Global, source: &mut R, limit: usize) -> Result<Vec<u8>, EncodeError>
    ensures ok { IfOk result (λ octets. IfRecorded (R.state source.old).left (IsReadPast limit octets.items)) }
    ensures err { IfErr result (λ fault. IfRecorded (R.state source.old).left
        (λ input. IsPartOfInput limit input fault (R.state source.new).left)) }
    ensures writes { (n : ℕ) → writes_after result n ≡ n }
    ensures end { IfOk result
        (λ octets. vec_len octets ≤ limit → (R.state source.new).ends ≡ next_count (R.state source.old).ends) }
    ensures reads { (R.state source.new).failures ≡ reads_after result (R.state source.old).failures }
{
    let mut octets = Vec::new(alloc);
    let mut block = vec![in alloc; 0u8; BLOCK]?;
    while octets.len() <= limit {
        let Ok(count) = source.pull(&mut block) else {
            return Err(EncodeError::Read);
        };
        if count == 0 {
            return Ok(octets);
        }
        octets.extend_from_slice(&block[..count])?;
    }
    Ok(octets)
}
