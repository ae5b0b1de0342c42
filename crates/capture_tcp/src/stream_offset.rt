//! Offsets of bytes in a stream.

ghost use Rattle.std.specs.Prelude.{◌≡◌, ◌<◌, ◌≤◌, ◌+◌, ◌^◌, IfSome};
ghost use Rattle.capture_tcp.specs.TcpStreams.{acknowledged_at, nearest, place_of};

// The maximum distance from a known offset within which offsets are distinguished.
const REACH: u64 = 1 << 26;

/// Returns the offset with this sequence number that is nearest to a known offset. TCP sequence numbers wrap at 2^32.
/// Returns `None` if the distance is more than 2^26.
pub fn nearest_place(known: u64, number: u32) -> Option<u64>
    requires { known < 2 ^ 63 }
    ensures place { result ≡ nearest known number }
    ensures near { IfSome result (λ place. place ≤ known + 2 ^ 26) }
{
    let ahead = (u64::from(number) + 4294967296 - known % 4294967296) % 4294967296;
    if ahead <= REACH {
        return Some(known + ahead);
    }
    if 4294967296 - ahead <= known.min(REACH) {
        return Some(known - (4294967296 - ahead));
    }
    None
}

/// Returns the offset of a TCP sequence number in a stream whose SYN has the number `base`: the one nearest to a known
/// offset.
pub fn numbered_place(base: u32, known: u64, number: u32) -> Option<u64>
    requires { known < 2 ^ 63 }
    ensures place { result ≡ place_of known base number }
    ensures near { IfSome result (λ place. place ≤ known + 2 ^ 26) }
{
    nearest_place(known, number.wrapping_sub(base))
}

/// Returns the offset up to which everything was received, from the number that a segment acknowledges. If that is more
/// than 2^26 from the known offset, it counts as no acknowledgment.
pub fn acknowledged_place(base: u32, known: u64, acknowledged: Option<u32>) -> Option<u64>
    requires { known < 2 ^ 63 }
    ensures { result ≡ acknowledged_at known base acknowledged }
{
    numbered_place(base, known, acknowledged?)
}
