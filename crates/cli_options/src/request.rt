//! What the command line requests. It is checked before anything is read.

ghost use Rattle.std.specs.Prelude.{◌≡◌, ◌≢◌, IsTrue, IfOk, IfErr, IfSome, Some, None, [], codes, map, string_bytes, unwrap_or};
ghost use Rattle.clap.specs.Words.{all_of, found_of, kind_of, rows_of, subcommand_rows_of};
ghost use Rattle.clap.specs.declared.error.kind.ErrorKind.TheVariants.{OutOfMemory};
ghost use Rattle.cli_options.specs.AuditOptions.{HasReportForm};
ghost use Rattle.cli_options.specs.CompareOptions.{has_two_files};
ghost use Rattle.cli_options.specs.Request.{AsksBy, AsksFor, AsksForTask, HasOperands, IsTaskWithinLimits, IsWithinLimits, EncodesTo, ParsesNothing, form_in, no_operands, operands_by, operands_in, operands_of};
ghost use Rattle.cli_options.specs.InnerRequest.{CallsForText, IsHelp};
ghost use Rattle.cli_options.specs.Status.{IsRefusedFor};
ghost use Rattle.cli_options.specs.declared.audit_options.ReportForm.{ReportForm};
ghost use Rattle.cli_options.specs.declared.request.Encoding.{Encoding};
ghost use Rattle.cli_options.specs.declared.request.Request.{Request};
ghost use Rattle.cli_options.specs.declared.request.Showing.{Showing};
ghost use Rattle.cli_options.specs.declared.request.Task.TheVariants as asked;

use crate::audit_options::{ReportForm, report_form_of};
use crate::capture_options::{Capturing, capturing_of};
use crate::clap_command::command;
use crate::compare_options::names_two_files;
use crate::explain_options::{Excerpt, excerpt_of};
use crate::fault::{ToolFault, no_request};
use crate::option_tables::{DEVICE, FILE, MAX, SYSTEM};
use crate::option_values::{depth_of, flag_of, number_of, short_of};
use crate::serve_options::{Service, service_of};
use clap::error::ErrorKind;
use clap::{ArgMatches, Error};
use std::alloc::{AllocError, Global};

/// What the user requests, and of which input.
#[derive(Drop)]
pub struct CommandLine<'a> {
    /// What the user requests.
    pub request: Request<'a>,
    /// The names of the files to read in place of standard input, in this order. The name `-` is standard input.
    pub files: Vec<&'a str>,
    /// True if only the lines of failing logs are written.
    pub quiet: bool,
}

/// What the user requests.
#[derive(Drop)]
pub enum Request<'a> {
    /// A task between standard input and standard output.
    Task(Task),
    /// Write a report on logs in this format.
    Report(ReportForm),
    /// Explain the log on standard input, and show this of it.
    Explain(Excerpt),
    /// Compare the logs in two files.
    Compare,
    /// Read the capture on standard input, and write this of its connections.
    Capture(Capturing),
    /// Serve a connection.
    Serve(Service<'a>),
}

/// What to do with standard input and standard output.
#[derive(Drop)]
pub enum Task {
    /// Print the text.
    Help(String),
    /// Show the messages of standard input.
    Show(Showing),
    /// Audit the log on standard input.
    Audit,
    /// Encode the messages of standard input, which are in notation.
    Encode(Encoding),
}

/// How messages are shown: their form, the maximum number of bytes of header and text, and the maximum nesting of lists
/// in a readable text.
#[derive(Clone, Copy)]
pub struct Showing {
    pub max: u32,
    pub depth: u8,
    pub form: Form,
}

/// How messages are encoded: the device ID, the first system bytes, the maximum number of bytes of header and text, and
/// the maximum nesting of lists. `hex` selects lines of hexadecimal instead of bytes.
#[derive(Clone, Copy)]
pub struct Encoding {
    pub device: u16,
    pub system: u32,
    pub max: u32,
    pub depth: u8,
    pub hex: bool,
}

/// The form of the messages of an input.
#[derive(Clone, Copy)]
pub enum Form {
    /// As bytes, in consecutive messages.
    Octets,
    /// As lines of hexadecimal, each with the bytes of a message.
    Lines,
    /// As lines of hexadecimal, each with header and text alone: without the four length bytes.
    BareLines,
}

/// Returns what the words of a command line request, and the files to read. The first word is the command's name.
///
/// # Errors
///
/// Returns `Refused` with the text `command line` if they request nothing that the command does; otherwise `Memory`.
pub fn parse<'a>(alloc: Global, words: &'a [String]) -> Result<CommandLine<'a>, ToolFault>
    ensures asks { IfOk result (λ line. EncodesTo (map string_bytes words.now) line.request) }
    ensures operands { IfOk result (HasOperands (map string_bytes words.now)) }
    ensures limits { IfOk result (λ line. IsWithinLimits line.request) }
    ensures refusal { IfErr result (IsRefusedFor (ParsesNothing (map string_bytes words.now)) (codes "command line")) }
{
    let command = command(alloc)?;
    match command.try_get_matches_from(words) {
        Ok(matches) => asked(alloc, &matches),
        Err(error) => explained(alloc, &error),
    }
}

fn asked<'a>(alloc: Global, matches: &ArgMatches<'a>) -> Result<CommandLine<'a>, ToolFault>
    ensures asks { IfOk result (λ line. AsksBy (subcommand_rows_of matches.now) line.request) }
    ensures operands { IfOk result (λ line. operands_of line ≡ operands_by (subcommand_rows_of matches.now)) }
    ensures limits { IfOk result (λ line. IsWithinLimits line.request) }
    ensures refusal { IfErr result (IsRefusedFor
        ((request : Request) → AsksBy (subcommand_rows_of matches.now) request → ⊥) (codes "command line")) }
{
    match matches.subcommand() {
        Some((name, options)) => match asked_by(name, options) {
            Some(request) => Ok(CommandLine {
                request,
                files: files_of(alloc, options)?,
                quiet: flag_of(options, "quiet"),
            }),
            None => Err(no_request(alloc)),
        },
        None => Err(no_request(alloc)),
    }
}

// Returns the names of the files among these options.
fn files_of<'a>(alloc: Global, options: &ArgMatches<'a>) -> Result<Vec<&'a str>, AllocError>
    ensures { IfOk result (λ files. map (λ name. name.now) files.items
        ≡ unwrap_or (all_of (codes "FILE") (rows_of (found_of options.now))) []) }
{
    match options.get_raw(FILE) {
        Some(names) => Vec::from_slice(alloc, names),
        None => Ok(Vec::new(alloc)),
    }
}

// Returns what a subcommand requests, with these options.
fn asked_by<'a>(name: &str, options: &ArgMatches<'a>) -> Option<Request<'a>>
    ensures asks { IfSome result (AsksFor name.now (rows_of (found_of options.now))) }
    ensures limits { IfSome result IsWithinLimits }
    ensures none { result ≡ None → (request : Request)
        → AsksFor name.now (rows_of (found_of options.now)) request → ⊥ }
{
    match name {
        "audit" => audit_of(options),
        "show" => Some(Request::Task(Task::Show(showing_of(options)?))),
        "encode" => Some(Request::Task(Task::Encode(encoding_of(options)?))),
        "explain" => Some(Request::Explain(excerpt_of(options)?)),
        "compare" => compare_of(options),
        "capture" => Some(Request::Capture(capturing_of(options)?)),
        // The toolchain has no rule here for `?` that passes on borrowed words.
        "serve" => match service_of(options) {
            Some(service) => Some(Request::Serve(service)),
            None => None,
        },
        _ => None,
    }
}

// Returns what `hsms compare` requests.
fn compare_of<'a>(options: &ArgMatches<'_>) -> Option<Request<'a>>
    ensures asks { IfSome result (AsksFor (codes "compare") (rows_of (found_of options.now))) }
    ensures limits { IfSome result IsWithinLimits }
    ensures none { result ≡ None → IsTrue (has_two_files (rows_of (found_of options.now))) → ⊥ }
{
    if names_two_files(options) {
        return Some(Request::Compare);
    }
    None
}

// Returns what `hsms audit` requests.
fn audit_of<'a>(options: &ArgMatches<'_>) -> Option<Request<'a>>
    ensures asks { IfSome result (AsksFor (codes "audit") (rows_of (found_of options.now))) }
    ensures limits { IfSome result IsWithinLimits }
    ensures no_text { result ≡ None → HasReportForm (rows_of (found_of options.now)) None → ⊥ }
    ensures no_report { result ≡ None → (form : ReportForm)
        → HasReportForm (rows_of (found_of options.now)) (Some form) → ⊥ }
{
    match report_form_of(options)? {
        None => Some(Request::Task(Task::Audit)),
        Some(form) => Some(Request::Report(form)),
    }
}

// Returns how `hsms show` shows messages.
fn showing_of(options: &ArgMatches<'_>) -> Option<Showing>
    ensures asks { IfSome result (λ s. AsksForTask (codes "show") (rows_of (found_of options.now)) (asked.Show s)) }
    ensures limits { IfSome result (λ s. IsTaskWithinLimits (asked.Show s)) }
    ensures none { result ≡ None → (s : Showing)
        → AsksForTask (codes "show") (rows_of (found_of options.now)) (asked.Show s) → ⊥ }
{
    Some(Showing {
        max: number_of(options, MAX)?,
        depth: depth_of(options)?,
        form: form_of(options)?,
    })
}

// Returns how `hsms encode` encodes messages.
fn encoding_of(options: &ArgMatches<'_>) -> Option<Encoding>
    ensures asks { IfSome result (λ e. AsksForTask (codes "encode") (rows_of (found_of options.now)) (asked.Encode e)) }
    ensures limits { IfSome result (λ e. IsTaskWithinLimits (asked.Encode e)) }
    ensures none { result ≡ None → (e : Encoding)
        → AsksForTask (codes "encode") (rows_of (found_of options.now)) (asked.Encode e) → ⊥ }
{
    match (
        short_of(options, DEVICE),
        number_of(options, SYSTEM),
        number_of(options, MAX),
        depth_of(options),
    ) {
        (Some(device), Some(system), Some(max), Some(depth)) => Some(Encoding {
            device,
            system,
            max,
            depth,
            hex: flag_of(options, "hex"),
        }),
        _ => None,
    }
}

fn form_of(options: &ArgMatches<'_>) -> Option<Form>
    ensures { result ≡ form_in (rows_of (found_of options.now)) }
{
    match (flag_of(options, "hex"), flag_of(options, "bare")) {
        (false, false) => Some(Form::Octets),
        (true, false) => Some(Form::Lines),
        (true, true) => Some(Form::BareLines),
        (false, true) => None,
    }
}

// Returns the result if `clap` does not match the words: the text of the help or of the version, or an error.
fn explained<'a>(alloc: Global, error: &Error) -> Result<CommandLine<'a>, ToolFault>
    ensures help { IfOk result (λ line. IsHelp line.request × CallsForText (kind_of error.now)) }
    ensures operands { IfOk result (λ line. operands_of line ≡ no_operands) }
    ensures limits { IfOk result (λ line. IsWithinLimits line.request) }
    ensures refusal { IfErr result (IsRefusedFor
        ((CallsForText (kind_of error.now) → ⊥) × (kind_of error.now ≢ OutOfMemory)) (codes "command line")) }
{
    match error.kind() {
        ErrorKind::DisplayHelp | ErrorKind::DisplayVersion => Ok(CommandLine {
            request: Request::Task(Task::Help(error.to_string(alloc)?)),
            files: Vec::new(alloc),
            quiet: false,
        }),
        ErrorKind::OutOfMemory => Err(ToolFault::Memory),
        _ => Err(no_request(alloc)),
    }
}
