//! Output of bytes to a link.

ghost use Rattle.std.specs.Prelude.{◌≡◌, ◌<◌, ◌≤◌, ◌+◌, ◌^◌, ◌++◌, length, take};
ghost use Rattle.hsms_frame.specs.Frame.{frame_octets};
ghost use Rattle.hsms_ends.specs.InnerOutput.{SendsAll};

use crate::fault::LinkFault;
use crate::link::Link;
use hsms_frame::{Frame, front_octets};

// The number of bytes before the text.
const FRONT: usize = 14;

// The maximum number of bytes of a message in the first call of the link: no fewer than an Ethernet segment holds.
const BLOCK: usize = 1500;

/// Sends a message (SEMI E37, section 8), or fails after sending a prefix. A message of at most 1,500 bytes is one
/// slice. Of a longer one, the rest of its text is another slice.
pub fn send_frame<L: Link>(link: &mut L, frame: &Frame) -> Result<(), LinkFault>
    requires { 10 + length frame.now.text < 2 ^ 32 }
    ensures { SendsAll (L.link_state link.old) (L.link_state link.new) (frame_octets frame.now) result }
{
    let front = front_octets(frame.length() as u32, frame.header);
    let text = frame.text.as_slice();
    let (first, rest) = text.split_at(text.len().min(BLOCK - FRONT));
    match send_joined(link, &front, first) {
        Ok(()) => send_all(link, rest),
        Err(fault) => Err(fault),
    }
}

/// Sends two slices as one.
fn send_joined<L: Link>(link: &mut L, first: &[u8], second: &[u8]) -> Result<(), LinkFault>
    requires { length first.now + length second.now ≤ 1500 }
    ensures { SendsAll (L.link_state link.old) (L.link_state link.new) (first.now ++ second.now) result }
{
    let mut block = [0u8; BLOCK];
    let place = append_chunk(&mut block, 0, first);
    let end = append_chunk(&mut block, place, second);
    send_all(link, &block[..end])
}

/// Copies bytes into a block at an offset, and returns the offset of their end.
fn append_chunk(block: &mut [u8], place: usize, octets: &[u8]) -> usize
    requires { place + length octets.now ≤ length block.old }
    ensures appended_text { take result block.new ≡ take place block.old ++ octets.now }
    ensures end { result ≡ place + length octets.now }
    ensures len { length block.new ≡ length block.old }
{
    let end = place + octets.len();
    block[place..end].copy_from_slice(octets);
    end
}

/// Sends all bytes, or fails after sending a prefix.
fn send_all<L: Link>(link: &mut L, octets: &[u8]) -> Result<(), LinkFault>
    ensures { SendsAll (L.link_state link.old) (L.link_state link.new) octets.now result }
{
    let mut sent = 0;
    while sent < octets.len() {
        match link.send(&octets[sent..]) {
            Ok(count) => sent += count,
            Err(fault) => return Err(fault),
        }
    }
    Ok(())
}
