//! Keep-alive segments.

ghost use Rattle.std.specs.Prelude.{◌≡◌};
ghost use Rattle.capture_tcp.specs.TcpStreams.{asks_only};
ghost use Rattle.capture_tcp.specs.Message.{cells_of};

/// The flags of a segment.
#[derive(Clone, Copy, Debug)]
pub struct Flags {
    pub syn: bool,
    pub fin: bool,
    pub pushed: bool,
}

/// Returns true if a segment is a keep-alive: it has one byte, whose offset was acknowledged before, and no flag. The
/// sender may have made up the byte.
#[tactic(auto, using(crate::proofs::KeepAlives::brings_more, crate::proofs::KeepAlives::brings_syn, crate::proofs::KeepAlives::brings_fin, crate::proofs::KeepAlives::is_pushed, crate::proofs::KeepAlives::asks_by_place))]
pub fn only_asks(acknowledged: u64, place: u64, flags: Flags, octets: &[u8]) -> bool
    ensures { result ≡ asks_only acknowledged place flags.pushed (cells_of flags.syn octets.now flags.fin) }
{
    octets.len() == 1 && !flags.syn && !flags.fin && !flags.pushed && place < acknowledged
}
