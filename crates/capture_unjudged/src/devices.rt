//! The device IDs of the data messages in the packets of a session.

ghost use Rattle.std.specs.Prelude.{◌≡◌, ℕ, IfSome, IfNone, OnOk};
ghost use Rattle.capture_unjudged.specs.Devices.{AreDevices, IsDevice};

use crate::message::message_of;
use capture_midstream::BufferedPacket;
use hsms_frame::{Kind, kind};
use hsms_machine::Settings;
use std::alloc::AllocError;

/// Appends the device ID of each packet that is one data message.
#[tactic(auto, using(crate::proofs::Recursions::devices_none, crate::proofs::Recursions::devices_first, crate::proofs::Recursions::devices_next))]
pub(crate) fn push_devices(
    settings: &Settings,
    packets: &[BufferedPacket],
    devices: &mut Vec<u16>,
) -> Result<(), AllocError>
    ensures { OnOk result (AreDevices settings.now packets.now devices.old.items devices.new.items) }
{
    let Some((packet, rest)) = packets.split_first() else {
        return Ok(());
    };
    match device_of(settings, &packet.octets) {
        Some(device) => {
            devices.push(device)?;
            push_devices(settings, rest, devices)
        }
        None => push_devices(settings, rest, devices),
    }
}

// Returns the device ID of the data message in a segment. Returns `None` if the bytes are anything other than one data
// message.
fn device_of(settings: &Settings, octets: &[u8]) -> Option<u16>
    ensures some { IfSome result (IsDevice settings.now octets.now) }
    ensures none { IfNone result ((device : ℕ) → IsDevice settings.now octets.now device → ⊥) }
{
    let header = message_of(settings, octets)?;
    match kind(header) {
        Kind::Primary | Kind::Reply => Some(header.session),
        _ => None,
    }
}
