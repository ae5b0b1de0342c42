//! A complete connection from a list of inputs.

ghost use Rattle.std.specs.Prelude.{map, IfOk};
ghost use Rattle.hsms_machine.specs.Run.{IsRun};
ghost use Rattle.hsms_endpoint.specs.EndState.{initial_state};
ghost use Rattle.hsms_endpoint.specs.Drive.{input_event, IsDriven};

use crate::answer::TurnDesk;
use crate::end::End;
use crate::fault::EndFault;
use crate::input::Input;
use hsms_machine::{Entry, Settings};
use std::alloc::{AllocError, Global};

/// The result of a list of inputs.
#[derive(Debug, Drop)]
pub struct Driven {
    /// The new entries of each accepted input, in order.
    pub entries: Vec<Entry>,
    /// The received bytes that belong to no complete message yet.
    pub pending: Vec<u8>,
}

/// Passes inputs to an endpoint, one after the other.
///
/// **For all settings, handlers, first system bytes and lists of inputs, the entries are a run of the session
/// machine.** In this statement:
///
/// - *settings*: those of the endpoint and of the run (`Parameters` of `hsms_machine`).
/// - *handler*: what answers messages. Its answer is a function of the handler, of the number of earlier messages
///   with this stream and function, and of the message (`TurnDesk::answers_after`).
/// - *first system bytes*: the first value that is tried for own system bytes (`initial_state`, `IsFirstFree`).
/// - *inputs*: what the endpoint receives, in order (`InputEvent`): any times, any bytes in any chunks, any messages.
/// - *entries*: the new entries of the `Turn` of each accepted input, in order (`Drives`, `Responds`). An input is
///   rejected if it has an error (`Encounters`). A rejected input adds nothing, and the next input follows.
/// - *a run*: no entry breaks a rule after the entries before it (`IsRun`). So the audit passes the log of the
///   entries.
///
/// The bytes of the accepted inputs are the frames of the accepted and discarded entries, in order, followed by the
/// pending bytes. The only error is a failed allocation.
pub fn drive<D: TurnDesk + Drop>(
    alloc: Global,
    settings: Settings,
    desk: D,
    first_system: u32,
    inputs: &[Input],
) -> Result<Driven, AllocError>
    ensures run { IfOk result (λ driven. IsRun settings driven.entries.items) }
    ensures turns { IfOk result (λ driven.
        IsDriven (D.answers_after desk) (initial_state settings first_system) (map input_event inputs.now)
        driven.entries.items driven.pending.items) }
{
    let mut end = End::new(alloc, settings, desk, first_system);
    let mut entries = Vec::new(alloc);
    for input in inputs {
        match end.submit(input) {
            Ok(mut new) => entries.append(&mut new)?,
            Err(fault) => {
                if fault == EndFault::Memory {
                    return Err(AllocError);
                }
            }
        }
    }
    let pending = Vec::from_slice(alloc, end.pending())?;
    Ok(Driven { entries, pending })
}
