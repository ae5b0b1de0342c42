//! `hsms serve`: one connection, served.

ghost use Rattle.std.specs.Prelude.{◌≡◌, if◌then◌else◌, []};
ghost use Rattle.cli_serve.specs.Serving.{ServesTo, ServesAgainTo, ReturnsServeFault, ReturnsServed, ReturnsServedAgain, own_answer, pause_for};

use crate::handler_choice::ChosenHandler;
use cli_options::{Service, ToolFault};
use hsms_ends::{
    Again, Lent, Link, ServeAgainOptions, ServeFault, ServeOptions, ServedAgain, ServedScript,
    Step, serve_again, serve_testing,
};
use hsms_frame::Sink;
use std::alloc::Global;

/// Serves a connection as a service requests, and writes its log.
///
/// # Errors
///
/// - `Link`: the link failed.
/// - `Log`: a write to the log failed.
/// - `Turns`: all turns are used, and the connection is still up.
/// - `Memory`.
///
/// The log passes the audit, except for a part of a line after `Log`.
pub fn serve_to<L: Link, W: Sink>(
    alloc: Global,
    link: &mut L,
    log: &mut W,
    service: &Service<'_>,
    desk: ChosenHandler,
    script: &[Step],
) -> Result<ServedScript, ServeFault>
    ensures { ServesTo service.now desk script.now result (W.state log.old) (W.state log.new)
        (L.link_state link.old) (L.link_state link.new) }
{
    let options = ServeOptions {
        settings: service.settings,
        first_system: service.first_system,
        script,
        linktest: pause_of(service.linktest),
        turns: u64::from(service.turns),
    };
    serve_testing(alloc, link, log, desk, &options)
}

// Returns the idle time in milliseconds after which the link is tested, if it is tested.
fn pause_of(linktest: u32) -> Option<u64>
    ensures { result ≡ pause_for linktest }
{
    (linktest != 0).then_some(u64::from(linktest))
}

/// Serves connection after connection as a service requests, and writes one log of them.
///
/// # Errors
///
/// Returns `Log`, `Turns` and `Memory`, as for one connection. After a failed link the next connection follows.
///
/// The log passes the audit, except for a part of a line after `Log`.
pub fn serve_again_to<L: Again, W: Sink>(
    alloc: Global,
    link: &mut L,
    log: &mut W,
    service: &Service<'_>,
    desk: Lent<'_, ChosenHandler>,
    script: &[Step],
) -> Result<ServedAgain, ServeFault>
    ensures { ServesAgainTo (λ lent. own_answer lent.desk.now) service.now desk.entry script.now result
        (W.state log.old) (W.state log.new) (L.link_state link.old) (L.link_state link.new) }
{
    let options = ServeAgainOptions {
        first: ServeOptions {
            settings: service.settings,
            first_system: service.first_system,
            script,
            linktest: pause_of(service.linktest),
            turns: u64::from(service.turns),
        },
        later_script: later_steps(script, service.repeat.once),
        connections: u64::from(service.repeat.connections),
    };
    serve_again(alloc, link, log, desk, &options)
}

// Returns the script of each connection except the first.
fn later_steps<'a>(script: &'a [Step], once: bool) -> &'a [Step]
    ensures { result.now ≡ (if once then [] else script.now) }
{
    if once { &script[..0] } else { script }
}

/// Converts the result of `serve_again` to the result of the command. `wanting` is why there is no further connection,
/// if one was expected. With `all_sent` the result is true only if each connection was complete.
pub fn again_result(
    all_sent: bool,
    served: Result<ServedAgain, ServeFault>,
    wanting: Option<ServeFault>,
) -> Result<bool, ToolFault>
    ensures { ReturnsServedAgain all_sent served wanting result }
{
    match (served, wanting) {
        (Ok(served), None) => Ok(!all_sent || served.complete),
        (Ok(_), Some(fault)) => Err(tool_fault_of(fault)),
        (Err(fault), _) => Err(tool_fault_of(fault)),
    }
}

/// Converts the result of serving to the result of the command. An error is `Device` with its name, or `Memory`. With
/// `all_sent` the result is true only if each step of the script was sent, and none refused.
pub fn serve_result(
    all_sent: bool,
    served: Result<ServedScript, ServeFault>,
) -> Result<bool, ToolFault>
    ensures { ReturnsServed all_sent served result }
{
    match served {
        Ok(served) => Ok(!all_sent || served.is_complete()),
        Err(fault) => Err(tool_fault_of(fault)),
    }
}

/// Converts an error of serving to an error of the command.
pub fn tool_fault_of(fault: ServeFault) -> ToolFault
    ensures { ReturnsServeFault fault result }
{
    match fault {
        ServeFault::Link => ToolFault::Device("Link"),
        ServeFault::Log => ToolFault::Device("Log"),
        ServeFault::Turns => ToolFault::Device("Turns"),
        ServeFault::Memory => ToolFault::Memory,
    }
}
