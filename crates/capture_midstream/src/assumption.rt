//! What is supposed to stand before a capture.

ghost use Rattle.std.specs.Prelude.{◌≡◌, List};
ghost use Rattle.hsms_frame.specs.declared.header.Header.{Header as Heading};
ghost use Rattle.capture_midstream.specs.Requests.{KnowsOf, is_asked};
ghost use Rattle.capture_midstream.specs.Assumption.{by_status, assumed_by};

use crate::requests::Requests;
use hsms_frame::{Header, Kind, kind};

// The status of a Select.rsp by which the session was selected already (SEMI E37, section 7.4).
const SELECTED_ALREADY: u8 = 1;

/// What is supposed to have happened before a capture, besides that the connection came up.
#[derive(Clone, Copy, Debug, PartialEq, Eq)]
pub enum Assumption {
    /// The session was selected.
    Selected,
    /// A Select.req with these system bytes was sent, which isn't in the capture.
    Asked(u32),
    /// Nothing: the session wasn't selected.
    Nothing,
}

/// What a message says of what stood before the capture, where it decides that; the first one that does so counts. Data
/// and a Select.rsp with status 1 say that the session was selected. Any other Select.rsp says that it wasn't, and
/// answers a Select.req. `requests` are those that the other end sent before the message, as far as they were captured.
pub fn assumed_by(message: Header, requests: &Requests) -> Option<Assumption>
    ensures { (said : List Heading) → KnowsOf said requests.now → result ≡ assumed_by message said }
{
    match kind(message) {
        Kind::Primary | Kind::Reply => Some(Assumption::Selected),
        Kind::SelectRsp => Some(assumed_by_response(message, requests)),
        _ => None,
    }
}

// The same of a Select.rsp.
fn assumed_by_response(response: Header, requests: &Requests) -> Assumption
    ensures { (said : List Heading) → KnowsOf said requests.now
        → result ≡ by_status response.byte3 (is_asked response said) response.system }
{
    if response.byte3 == SELECTED_ALREADY {
        return Assumption::Selected;
    }
    if requests.has_asked_for(response) {
        return Assumption::Nothing;
    }
    Assumption::Asked(response.system)
}
