//! Reports of where an end listens.

use crate::error_help::Failure;
use cli_options::{Service, ToolFault};
use std::alloc::{AllocError, Global};
use std::fs::{Files, metadata, remove_file, rename, symlink_metadata, write};
use std::io;
use std::io::ErrorKind;
use std::net::OpenListener;

/// Writes the port of a listener to the file that the service names, and then, if errors are explained, its address and
/// port to standard error. Writes nothing if there is no listener.
///
/// # Errors
///
/// Returns `PortFile` if the file cannot be written, with the reason, or `Memory`.
pub fn report_listener<R: Eprint + Files, L: OpenListener>(
    alloc: Global,
    rt: &R,
    service: &Service<'_>,
    listener: &Option<L>,
    is_verbose: bool,
) -> Result<(), Failure> {
    let Some(listener) = listener else {
        return Ok(());
    };
    if let Some(file) = service.port_file {
        write_port(alloc, rt, file, listener).map_err(|error| port_failure(
            alloc,
            file,
            error.kind(),
        ))?;
    }
    if is_verbose {
        if let Ok(address) = listener.local_addr() {
            let _ = eprintln!(rt; "hsms: listening on {address}");
        }
    }
    Ok(())
}

// Writes the port and LF to a file. A regular file has them in full as soon as it has this name: they are written to a
// file with a temporary name before. A device, a named pipe or a symbolic link is written to, and not replaced.
fn write_port<R: Files, L: OpenListener>(
    alloc: Global,
    rt: &R,
    file: &str,
    listener: &L,
) -> io::Result<()> {
    let port = listener.local_addr()?.port();
    let text = format!(in alloc; "{port}\n")?;
    if !is_replaced(rt, file) {
        return write(rt, file, text.as_str());
    }
    let part = format!(in alloc; "{file}.part")?;
    write(rt, part.as_str(), text.as_str())?;
    let renamed = rename(rt, part.as_str(), file);
    if renamed.is_err() {
        let _ = remove_file(rt, part.as_str());
    }
    renamed
}

// Returns true if a file with this name is replaced, or none exists.
fn is_replaced<R: Files>(rt: &R, file: &str) -> bool {
    let is_link = matches!(symlink_metadata(rt, file), Ok(found) if found.is_symlink());
    !is_link && !matches!(metadata(rt, file), Ok(found) if !found.is_file())
}

// Returns the error of the command if the port cannot be written.
fn port_failure(alloc: Global, file: &str, kind: ErrorKind) -> Failure {
    match kind {
        ErrorKind::OutOfMemory => Failure::from(ToolFault::Memory),
        kind => Failure::said(ToolFault::Device("PortFile"), port_words(alloc, file, kind)),
    }
}

// Returns why the port cannot be written.
fn port_words(alloc: Global, file: &str, kind: ErrorKind) -> Result<String, AllocError> {
    let why = match kind {
        ErrorKind::NotFound if file.is_empty() => "the name is empty",
        ErrorKind::NotFound => "its folder does not exist",
        ErrorKind::PermissionDenied => "no permission to write there",
        ErrorKind::IsADirectory => "this is a directory",
        ErrorKind::NotADirectory => "a part of its path is not a directory",
        ErrorKind::StorageFull => "the disk is full",
        ErrorKind::ReadOnlyFilesystem => "the file system is read-only",
        _ => "check its name and its permissions",
    };
    format!(in alloc; "cannot write the port to {file}: {why}")
}
