//! The session types of messages, and the kind of a message by its header (SEMI E37, section 8.2.6).

ghost use Rattle.std.specs.Prelude.{◌≡◌};
ghost use Rattle.hsms_frame.specs.Header.{kind_of};

use crate::header::Header;
use crate::kinds::Kind;

pub const DATA: u8 = 0;

pub const SELECT_REQ: u8 = 1;

pub const SELECT_RSP: u8 = 2;

pub const LINKTEST_REQ: u8 = 5;

pub const LINKTEST_RSP: u8 = 6;

pub const REJECT_REQ: u8 = 7;

pub const SEPARATE_REQ: u8 = 9;

/// Returns the kind of the message with this header: by its PType, then its SType, and for data by its function.
pub fn kind(header: Header) -> Kind
    ensures { result ≡ kind_of header }
{
    if header.ptype != 0 {
        return Kind::OtherPType;
    }
    match header.stype {
        DATA if header.byte3 % 2 == 1 => Kind::Primary,
        DATA => Kind::Reply,
        SELECT_REQ => Kind::SelectReq,
        SELECT_RSP => Kind::SelectRsp,
        LINKTEST_REQ => Kind::LinktestReq,
        LINKTEST_RSP => Kind::LinktestRsp,
        REJECT_REQ => Kind::Reject,
        SEPARATE_REQ => Kind::Separate,
        _ => Kind::OtherSType,
    }
}
