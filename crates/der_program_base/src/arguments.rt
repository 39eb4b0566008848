//! What is said of arguments.

use crate::Status;
use clap::Error;
use std::io;

/// Prints what the arguments asked for, or what is wrong with them, and returns the status: `Fine` for help and
/// version, else `Trouble`.
///
/// Returns the error of the system if it can't be written.
pub fn report(rt: &HostRuntime, error: &Error) -> io::Result<Status> {
    error.print(rt)?;
    Ok(if error.use_stderr() {
        Status::Trouble
    } else {
        Status::Fine
    })
}
