//! The link over which a connection is served.

ghost use Rattle.std.specs.Prelude.{◌≡◌, ◌<◌, ◌≤◌, length, IfOk};
ghost use Rattle.hsms_ends.specs.Link.{LinkState, Asks, Waits, Sends};

use crate::fault::LinkFault;

/// The result of a wait.
#[derive(Clone, Copy, Debug, PartialEq, Eq)]
pub enum Got {
    /// This many bytes were received from the peer: at least 1.
    Octets(usize),
    /// No byte was received in time.
    Quiet,
    /// The peer has closed the connection.
    Closed,
}

/// A connection to a peer, and a clock. A wait that fails reads no bytes, and a send that fails writes none.
pub trait Link {
    /// The state that contracts see: the times that `now` returned, and the bytes received and sent, if the link
    /// records them. It also counts the waits that returned, those of them that returned `Closed`, and the failures,
    /// and says whether the last wait returned `Closed`. A count that reaches its maximum stays there.
    ghost link_state: { Self → LinkState };

    /// Returns the current time, in milliseconds from any origin.
    fn now(&mut self) -> u64
        ensures { Asks (link_state self.old) (link_state self.new) result };

    /// Waits for bytes from the peer until a time, or without a limit. Reads some bytes to the start of a slice that
    /// is not empty.
    fn wait(&mut self, until: Option<u64>, into: &mut [u8]) -> Result<Got, LinkFault>
        requires { 0 < length into.old }
        ensures { Waits (link_state self.old) (link_state self.new) into.new result };

    /// Sends some bytes from the start of a slice and returns their number: at least 1 if the slice is not empty.
    fn send(&mut self, octets: &[u8]) -> Result<usize, LinkFault>
        ensures bound { IfOk result (λ n. n ≤ length octets.now) }
        ensures some { IfOk result (λ n. 0 < length octets.now → 0 < n) }
        ensures sent { Sends (link_state self.old) (link_state self.new) octets.now result };
}

/// A link that can reconnect.
pub trait Again: Link {
    /// Moves to the next connection, also to the first one. Returns whether there is one. The link's record of its
    /// calls continues.
    fn again(&mut self) -> bool
        ensures { Self.link_state self.new ≡ Self.link_state self.old };
}
