//! Consecutive connections, served in one log.

ghost use Rattle.std.specs.Prelude.{◌≡◌};
ghost use Rattle.hsms_ends.specs.Reconnect.{ServesAgainBy};
ghost use Rattle.hsms_ends.specs.InnerReconnectSteps.{NextServed, script_at};
ghost use Rattle.hsms_ends.specs.InnerServeSteps.{IsReady};

use crate::fault::ServeFault;
use crate::link::Again;
use crate::serve_options::{ServeAgainOptions, ServeOptions};
use crate::serving::serve_end;
use crate::step::Step;
use hsms_endpoint::{Answer, End, TurnDesk};
use hsms_frame::Sink;
use hsms_log::write_settings;
use secs_text::Message;
use std::alloc::{AllocError, Global};

/// A borrowed message handler, shared by the endpoints of consecutive connections.
pub struct Lent<'a, D> {
    /// The message handler.
    pub desk: &'a D,
}

impl<'a, D> Copy for Lent<'a, D> {}

impl<'a, D> Clone for Lent<'a, D> {
    fn clone(&self) -> Result<Lent<'a, D>, AllocError> {
        Ok(*self)
    }
}

impl<'a, D: TurnDesk> TurnDesk for Lent<'a, D> {
    ghost answers_after = { λ lent. D.answers_after lent.desk.now };

    fn answer_after(
        &self,
        alloc: Global,
        message: &Message,
        before: u64,
    ) -> Result<Answer, AllocError> {
        self.desk.answer_after(alloc, message, before)
    }
}

/// The result of serving consecutive connections.
#[derive(Clone, Copy, Debug, PartialEq, Eq)]
pub struct ServedAgain {
    /// The number of connections that were closed.
    pub connections: u64,
    /// Whether each connection was served until it ended, with each step of its script accepted.
    pub complete: bool,
}

/// Serves consecutive connections, each as [`serve_testing`](crate::serve_testing) does, in one log of version 2.
/// Returns the number of closed connections, and whether the script was completed in each. It ends after the given
/// number of connections, or when the link has no further one.
///
/// The first connection has the script, and each further one the later script. Each endpoint starts no earlier than
/// at the time of the last entry before it, so that times never decrease. Its handler counts of earlier messages
/// start again at 0. After a connection that ended with a link error, the next one follows, as after one that was
/// closed. After any other error no further connection is served.
///
/// **The log is the text of a run of the session machine, so that `audit` passes it** (`ServesAgain`;
/// `laws::served_again_log_passes`). After the result `Log` it is complete lines and a part of the next one. The link
/// is never ahead of the log, as with `serve`.
///
/// # Errors
///
/// Returns `Log` if the settings line was not written. Otherwise returns the error of the last connection: `Log`,
/// `Turns` or `Memory`.
pub fn serve_again<L: Again, W: Sink, D: TurnDesk + Copy>(
    alloc: Global,
    link: &mut L,
    log: &mut W,
    desk: D,
    options: &ServeAgainOptions<'_>,
) -> Result<ServedAgain, ServeFault>
    ensures { ServesAgainBy D.answers_after desk options.now result (W.state log.old) (W.state log.new)
        (L.link_state link.old) (L.link_state link.new) }
{
    let first = &options.first;
    let connections = options.connections;
    let several = first.settings.several();
    match write_settings(log, &several) {
        Ok(()) => {}
        Err(_) => return Err(ServeFault::Log),
    }
    let mut done = 0;
    let mut since = 0;
    let mut complete = true;
    while done < connections && link.again() {
        let mut end = End::since(alloc, several, desk, first.first_system, since);
        let script = steps_of(first.script, options.later_script, done);
        let next = ServeOptions {
            settings: several,
            script,
            ..*first
        };
        let answer = serve_next(link, log, &mut end, &next);
        let moment = end.last_time();
        match answer {
            Ok(is_complete) => {
                since = moment;
                complete &= is_complete;
                done += 1;
            }
            Err(fault) => return Err(fault),
        }
    }
    Ok(ServedAgain {
        connections: done,
        complete,
    })
}

/// Returns the script of a connection: the later one, unless it is the first connection.
fn steps_of<'a>(script: &'a [Step], later: &'a [Step], done: u64) -> &'a [Step]
    ensures { result.now ≡ script_at script.now later.now done }
{
    if done == 0 { script } else { later }
}

/// Serves the next connection. Returns whether it was complete, or the error after which no further one is served.
fn serve_next<L: Again, W: Sink, D: TurnDesk>(
    link: &mut L,
    log: &mut W,
    end: &mut End<D>,
    options: &ServeOptions<'_>,
) -> Result<bool, ServeFault>
    requires { IsReady end.old }
    ensures { NextServed D.answers_after options.now.linktest end.old end.new options.now.script.now options.now.turns
        result (W.state log.old) (W.state log.new) (L.link_state link.old) (L.link_state link.new) }
{
    match serve_end(link, log, end, options) {
        Ok(served) => Ok(served.is_complete()),
        Err(ServeFault::Link) => Ok(false),
        Err(ServeFault::Log) => Err(ServeFault::Log),
        Err(ServeFault::Turns) => Err(ServeFault::Turns),
        Err(ServeFault::Memory) => Err(ServeFault::Memory),
    }
}
