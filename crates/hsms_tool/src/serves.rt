//! `hsms serve`: one end of a connection, over TCP.

use cli_advice::{ExplainedLog, FailedAttempts, Failure, Known, link_words, report_listener};
use cli_filters::{CommandError, INPUT_LIMIT, read_whole};
use cli_options::{Service, ToolFault};
use cli_serve::{
    Attempts, ChosenHandler, ConnectError, Lines, Script, SocketLink, again_result, connected,
    desk_of, listener_of, read_script, serve_again_to, serve_result, serve_to, tool_fault_of,
    unconnected,
};
use hsms_ends::{Lent, Step};
use hsms_frame::{Reader, Sink, Writer};
use std::alloc::Global;
use std::fs::Files;
use std::io::{Read, Write};
use std::net::Net;
use std::time::Clock;

// The maximum number of bytes of a log's line in addition to the digits of its message.
const LINE: usize = 64;

// What one end serves.
#[derive(Drop)]
struct Serving<'a, 's, R> {
    alloc: Global,
    rt: &'a R,
    service: &'a Service<'s>,
    steps: &'a [Step],
    is_verbose: bool,
}

/// Serves a connection, or one after another, and closes the last. The log goes to standard output line by line. The
/// script is read before a connection is made. Returns true unless the status is 1.
pub fn serve_by<R: Clock + Eprint + Files + Net + Print, I: Read + Drop>(
    alloc: Global,
    rt: &R,
    service: &Service<'_>,
    input: I,
    is_verbose: bool,
) -> Result<bool, Failure> {
    let script = script_by(alloc, service, input, is_verbose)?;
    let desk = desk_of(alloc, service, script.replies)?;
    let mut lines = log_of(alloc, rt, service, is_verbose)?;
    let listener = listener_of(rt, service).map_err(|error| no_connection(
        alloc, service, error, is_verbose,
    ))?;
    report_listener(alloc, rt, service, &listener, is_verbose)?;
    let attempts = FailedAttempts::new(alloc, rt, service.address, service.port, is_verbose);
    let link = connected(rt, service, listener, attempts).map_err(|error| no_connection(
        alloc, service, error, is_verbose,
    ))?;
    let serving = Serving {
        alloc,
        rt,
        service,
        steps: &script.steps,
        is_verbose,
    };
    let is_sent = serving.serve(link, &mut lines, desk)?;
    let unanswered = lines.unanswered();
    if is_verbose && unanswered > 0 {
        let _ = eprintln!(rt;
            "hsms: --all-answered: {unanswered} not answered: no reply, a late one, or function 0"
        );
    }
    Ok(is_sent && lines.are_answered())
}

impl<'a, 's, R: Clock + Eprint + Net> Serving<'a, 's, R> {
    // Serves one connection, or one after another, and closes the last.
    fn serve<A: Attempts + Drop, W: Write + Drop>(
        &self,
        link: SocketLink<'_, '_, R, A>,
        lines: &mut Lines<W>,
        desk: ChosenHandler,
    ) -> Result<bool, Failure> {
        let mut log = Writer::new(lines);
        if self.service.repeat.again {
            return self.serve_each(link, &mut log, &desk);
        }
        Ok(self.serve_one(link, &mut log, desk)?)
    }

    // Serves one connection, and closes it.
    fn serve_one<A: Attempts + Drop, W: Sink>(
        &self,
        mut link: SocketLink<'_, '_, R, A>,
        log: &mut W,
        desk: ChosenHandler,
    ) -> Result<bool, ToolFault> {
        let served = serve_to(self.alloc, &mut link, log, self.service, desk, self.steps);
        link.end();
        if let Ok(served) = &served {
            if self.is_told() && !served.is_complete() {
                let (refused, left) = (served.counts.refused, served.left);
                let _ = eprintln!(self.rt;
                    "hsms: --all-sent: {refused} rejected, {left} not reached"
                );
            }
        }
        serve_result(self.service.all_sent, served)
    }

    // Serves one connection after another, and closes the last.
    fn serve_each<A: Attempts + Drop, W: Sink>(
        &self,
        mut link: SocketLink<'_, '_, R, A>,
        log: &mut W,
        desk: &ChosenHandler,
    ) -> Result<bool, Failure> {
        let served = serve_again_to(
            self.alloc,
            &mut link,
            log,
            self.service,
            Lent { desk },
            self.steps,
        );
        let wanting = link.end();
        if let Ok(served) = &served {
            if self.is_told() && !served.complete {
                let _ = eprintln!(self.rt;
                    "hsms: --all-sent: a message was rejected or not reached, or a connection failed"
                );
            }
        }
        let done = again_result(self.service.all_sent, served, wanting.map(unconnected));
        match (done, wanting) {
            (Err(fault), Some(error)) => Err(link_failure(
                self.alloc,
                fault,
                self.service,
                error,
                self.is_verbose,
            )),
            (done, _) => Ok(done?),
        }
    }

    // Returns true if standard error says which messages were not sent.
    fn is_told(&self) -> bool {
        self.is_verbose && self.service.all_sent
    }
}

// Returns the error if there is no connection.
fn no_connection(
    alloc: Global,
    service: &Service<'_>,
    error: ConnectError,
    is_verbose: bool,
) -> Failure {
    let fault = tool_fault_of(unconnected(error));
    link_failure(alloc, fault, service, error, is_verbose)
}

// Returns an error, with why there is no connection if errors are explained.
fn link_failure(
    alloc: Global,
    fault: ToolFault,
    service: &Service<'_>,
    error: ConnectError,
    is_verbose: bool,
) -> Failure {
    if is_verbose {
        return Failure::said(
            fault,
            link_words(alloc, service.address, service.port, error),
        );
    }
    Failure::from(fault)
}

// Returns the script of a service, or an empty one if it has none. If errors are explained, reads its notation first.
fn script_by<I: Read + Drop>(
    alloc: Global,
    service: &Service<'_>,
    input: I,
    is_verbose: bool,
) -> Result<Script, Failure> {
    if !service.send && !service.answer {
        return Ok(Script {
            steps: Vec::new(alloc),
            replies: Vec::new(alloc),
        });
    }
    if !is_verbose {
        return Ok(read_script(alloc, &mut Reader::new(input), service)?);
    }
    let notation = read_whole(alloc, &mut Reader::new(input), INPUT_LIMIT)?;
    let mut source = Reader::new(notation.as_slice());
    let script = read_script(alloc, &mut source, service);
    script.map_err(|error| {
        Failure::of_command(CommandError::Encode(error), Known::Notation(notation))
    })
}

// Returns standard output, which receives each line in one piece. A write of no bytes checks it first: if it is closed,
// the system would give its file descriptor, 1, to the connection, and the log would go to the peer.
fn log_of<'a, R: Eprint + Print>(
    alloc: Global,
    rt: &'a R,
    service: &Service<'_>,
    is_verbose: bool,
) -> Result<Lines<ExplainedLog<'a, R>>, ToolFault> {
    let mut output = ExplainedLog::new(rt, is_verbose);
    if output.write(&[]).is_err() {
        return Err(ToolFault::Device("Log"));
    }
    let room = 2 * service.settings.max() as usize + LINE;
    Ok(Lines::with_capacity(alloc, room, output, service.all_answered)?)
}
