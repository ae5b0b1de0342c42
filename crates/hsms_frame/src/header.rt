//! The header of a message (SEMI E37, section 8.2).

ghost use Rattle.std.specs.Prelude.{◌≡◌};
ghost use Rattle.hsms_frame.specs.Header.{header_octets, IsHeader, stream_of, function_of, wait_of};

/// The number of bytes of a header (SEMI E37, section 8.2).
pub const HEADER_LENGTH: usize = 10;

/// The session ID of control messages (SEMI E37.1).
pub const CONTROL_SESSION: u16 = 0xffff;

/// The ten bytes before a message's text (SEMI E37, section 8.2).
#[derive(Clone, Copy, Debug, PartialEq, Eq)]
pub struct Header {
    /// The session ID: the device ID of a data message, ffff of a control message.
    pub session: u16,
    /// In a data message the W bit (bit 8) and the stream; in Reject.req the type of the rejected message.
    pub byte2: u8,
    /// In a data message the function; in Select.rsp the status; in Reject.req the reason.
    pub byte3: u8,
    /// The presentation type: 0 is SECS-II.
    pub ptype: u8,
    /// The session type: 0 is data, the others are control messages.
    pub stype: u8,
    /// The system bytes, which distinguish the open transactions of one sender.
    pub system: u32,
}

impl Header {
    /// Returns the header that ten bytes encode. Any ten bytes encode a header.
    pub fn of(octets: [u8; HEADER_LENGTH]) -> Header
        ensures fits { IsHeader result }
        ensures encoded_bytes { header_octets result ≡ octets }
        ensures only { (header : Header) → IsHeader header → header_octets header ≡ octets → result ≡ header }
    {
        let [s0, s1, byte2, byte3, ptype, stype, n0, n1, n2, n3] = octets;
        Header {
            session: u16::from_be_bytes([s0, s1]),
            byte2,
            byte3,
            ptype,
            stype,
            system: u32::from_be_bytes([n0, n1, n2, n3]),
        }
    }

    /// Returns the ten bytes of the header, with the most significant byte of each number first.
    pub fn octets(self) -> [u8; HEADER_LENGTH]
        ensures { result ≡ header_octets self }
    {
        let [s0, s1] = self.session.to_be_bytes();
        let [n0, n1, n2, n3] = self.system.to_be_bytes();
        [
            s0, s1, self.byte2, self.byte3, self.ptype, self.stype, n0, n1, n2, n3,
        ]
    }

    /// Returns the stream of a data message, 0 to 127.
    pub fn stream(self) -> u8
        ensures { result ≡ stream_of self }
    {
        self.byte2 % 128
    }

    /// Returns the function of a data message.
    pub fn function(self) -> u8
        ensures { result ≡ function_of self }
    {
        self.byte3
    }

    /// Returns the W bit of a data message: whether it requests a reply.
    pub fn wait(self) -> bool
        ensures { result ≡ wait_of self }
    {
        self.byte2 >= 128
    }
}
