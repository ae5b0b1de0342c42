//! Headers of the messages that this profile sends (SEMI E37, section 8.3). Unused bytes are zero.

ghost use Rattle.std.specs.Prelude.{◌≡◌, ◌<◌};
ghost use Rattle.hsms_frame.specs.Build.{data_header_of, control_header_of, reject_header_of};

use crate::classify::{
    DATA, LINKTEST_REQ, LINKTEST_RSP, REJECT_REQ, SELECT_REQ, SELECT_RSP, SEPARATE_REQ,
};
use crate::header::{CONTROL_SESSION, Header};

/// Returns the header of a data message. The stream is below 128.
pub fn data_header(device: u16, stream: u8, function: u8, wait: bool, system: u32) -> Header
    requires { stream < 128 }
    ensures { result ≡ data_header_of device stream function wait system }
{
    Header {
        session: device,
        byte2: if wait { stream + 128 } else { stream },
        ..control_header(DATA, function, system)
    }
}

/// Returns the header of Select.req, which requests a session.
pub fn select_req(system: u32) -> Header
    ensures { result ≡ control_header_of 1 0 system }
{
    control_header(SELECT_REQ, 0, system)
}

/// Returns the header of the Select.rsp to a request. Status 0 establishes the session. Status 1 means that the session
/// is already established, 2 that this endpoint is not ready, and 3 that this endpoint is in use.
pub fn select_rsp(request: Header, status: u8) -> Header
    ensures { result ≡ control_header_of 2 status request.system }
{
    control_header(SELECT_RSP, status, request.system)
}

/// Returns the header of Linktest.req, which checks whether the other endpoint still responds.
pub fn linktest_req(system: u32) -> Header
    ensures { result ≡ control_header_of 5 0 system }
{
    control_header(LINKTEST_REQ, 0, system)
}

/// Returns the header of the Linktest.rsp to a request.
pub fn linktest_rsp(request: Header) -> Header
    ensures { result ≡ control_header_of 6 0 request.system }
{
    control_header(LINKTEST_RSP, 0, request.system)
}

/// Returns the header of Separate.req, which ends the session.
pub fn separate(system: u32) -> Header
    ensures { result ≡ control_header_of 9 0 system }
{
    control_header(SEPARATE_REQ, 0, system)
}

/// Returns the header of the Reject.req for a message, with the message's session ID and system bytes. Reason 1 is an
/// unsupported SType, 2 an unsupported PType, 3 a transaction that is not open, 4 a session that is not established.
pub fn reject_of(header: Header, reason: u8) -> Header
    ensures { result ≡ reject_header_of header reason }
{
    Header {
        session: header.session,
        byte2: if reason == 2 {
            header.ptype
        } else {
            header.stype
        },
        ..control_header(REJECT_REQ, reason, header.system)
    }
}

fn control_header(stype: u8, byte3: u8, system: u32) -> Header
    ensures { result ≡ control_header_of stype byte3 system }
{
    Header {
        session: CONTROL_SESSION,
        byte2: 0,
        byte3,
        ptype: 0,
        stype,
        system,
    }
}
