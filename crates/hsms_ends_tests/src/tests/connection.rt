//! Shared helpers for tests of served connections.

ghost use Rattle.std.specs.Prelude.{◌<◌};

use super::{
    AllocError, EquipmentDesk, Global, HostDesk, Role, Settings, Side, Stop, Store, equipment,
    octets_of_all, settings,
};
use hsms_ends::{Scripted, ServeFault, Served, Step, serve};
use hsms_log::{Summary, Verdict, audit_text};

pub const EQUIPMENT_LINE: &str =
    "hsms-log 1 equipment passive 0 45000 6000 10000 5000 1048576 32\n";

pub const HOST_LINE: &str = "hsms-log 1 host active 0 45000 6000 10000 5000 1048576 32\n";

/// Returns what a wait receives: nothing if it is `quiet`, otherwise the bytes of messages.
fn wait_of(alloc: Global, messages: &str) -> Result<Option<Vec<u8>>, Stop> {
    match messages {
        "quiet" => Ok(None),
        _ => Ok(Some(octets_of_all(alloc, messages)?)),
    }
}

/// Returns what each wait receives, one line each.
fn waits_of(alloc: Global, waits: &str) -> Result<Vec<Option<Vec<u8>>>, Stop> {
    let mut given = Vec::new(alloc);
    for messages in waits.lines() {
        given.push(wait_of(alloc, messages)?)?;
    }
    Ok(given)
}

/// Returns a link with these times and waits, which moves at most `piece` bytes per call and fails after `fuse`
/// calls.
pub fn link_of(
    alloc: Global,
    moments: &[u64],
    waits: &str,
    piece: usize,
    fuse: u64,
) -> Result<Scripted, Stop>
    requires { 0 < piece }
{
    let waits = waits_of(alloc, waits)?;
    let moments = Vec::from_slice(alloc, moments)?;
    let room = vec![in alloc; 0u8; 1024]?;
    Ok(Scripted::new(moments, waits, room, piece, fuse))
}

/// Returns a log of this capacity, which takes at most `piece` bytes per call and fails after `fuse` calls.
pub fn log_of(alloc: Global, room: usize, piece: usize, fuse: u64) -> Result<Store, AllocError>
    requires { 0 < piece }
{
    Ok(Store::new(vec![in alloc; 0u8; room]?, piece, fuse))
}

/// Returns the settings of passive equipment, or of an active host.
pub fn settings_of(role: Role) -> Option<Settings> {
    match role {
        Role::Equipment => settings(role, Side::Passive, 1_048_576),
        Role::Host => settings(role, Side::Active, 1_048_576),
    }
}

fn serve_host(
    alloc: Global,
    link: &mut Scripted,
    log: &mut Store,
    settings: Settings,
    script: &[Step],
    turns: u64,
) -> Result<Served, ServeFault> {
    serve(alloc, link, log, settings, HostDesk, 1, script, turns)
}

fn serve_equipment(
    alloc: Global,
    link: &mut Scripted,
    log: &mut Store,
    settings: Settings,
    desk: EquipmentDesk,
    script: &[Step],
    turns: u64,
) -> Result<Served, ServeFault> {
    serve(alloc, link, log, settings, desk, 1, script, turns)
}

/// Returns the result of an endpoint with these settings, served over this link with this log.
pub fn answer_of(
    alloc: Global,
    link: &mut Scripted,
    log: &mut Store,
    settings: Settings,
    script: &[Step],
    turns: u64,
) -> Result<Result<Served, ServeFault>, AllocError> {
    match settings.role() {
        Role::Host => Ok(serve_host(alloc, link, log, settings, script, turns)),
        Role::Equipment => {
            let desk = equipment(alloc)?;
            Ok(serve_equipment(alloc, link, log, settings, desk, script, turns))
        }
    }
}

/// Returns the summary of a log, which has to pass the audit.
pub fn audited(alloc: Global, log: &[u8]) -> Result<Summary, Stop> {
    match audit_text(alloc, log)? {
        Verdict::Pass(summary) => Ok(summary),
        Verdict::Fail { .. } => Err(Stop::Verdict),
    }
}
