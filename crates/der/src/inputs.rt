//! The files that are asked about.

use crate::report::{View, print_report};
use crate::request::Request;
use crate::write::{WriteRequest, Written, write_message};
use crate::write_ber::write_from_ber;
use der_program_base::{Status, read_input, shown};
use picky_asn1_der::misc::WriteExt;
use picky_asn1_der::{Asn1DerError, Result};
use std::io::{self, ErrorKind, IsTerminal};

/// Prints what is asked about the messages in a file, and returns the worst status.
///
/// If the file can't be read, it says so on standard error, and the status is `Trouble`. The error is that of the
/// output, or `OutOfMemory`.
pub fn print_file<W: WriteExt>(
    rt: &HostRuntime,
    request: &Request,
    view: View,
    file: &str,
    output: &mut W,
) -> io::Result<Status> {
    match read_input(rt, file) {
        Ok(input) => of_output(print_report(rt.alloc(), request, view, file, &input, output)),
        Err(error) => {
            let name = shown(rt.alloc(), file)?;
            eprintln!(rt; "der: {name}: {error}")?;
            Ok(Status::Trouble)
        }
    }
}

/// Writes the DER of the message whose BER or JSON is in a file, and returns the status.
///
/// If the file can't be read or there is no table of the type, it says so on standard error, and the status is
/// `Trouble`. If it isn't the BER or the JSON of a message, the status is `Refused`. The error is that of the output,
/// or `OutOfMemory`.
pub fn write_file<W: WriteExt>(
    rt: &HostRuntime,
    request: WriteRequest<'_>,
    is_ber: bool,
    output: &mut W,
) -> io::Result<Status> {
    let name = shown(rt.alloc(), request.file)?;
    let input = match read_input(rt, request.file) {
        Ok(input) => input,
        Err(error) => {
            eprintln!(rt; "der: {name}: {error}")?;
            return Ok(Status::Trouble);
        }
    };
    let word = request.named.word();
    let (written, form) = if is_ber {
        (
            write_from_ber(rt.alloc(), request.named, &input, output),
            "DER of its BER",
        )
    } else {
        (
            write_message(rt.alloc(), request.named, &input, output),
            "JSON",
        )
    };
    match of_output(written)? {
        Written::Message => Ok(Status::Fine),
        Written::NoSchema => {
            eprintln!(rt; "der: there is no table of {word}, and so no {form}")?;
            Ok(Status::Trouble)
        }
        Written::Refused(reason) => {
            let reason = shown(rt.alloc(), &reason)?;
            eprintln!(rt; "der: {name}: no {word}: {reason}")?;
            Ok(Status::Refused)
        }
    }
}

/// Returns whether the output is a terminal, and the variable `NO_COLOR` of the environment doesn't ask for a text
/// without colours.
pub fn has_colours(rt: &HostRuntime) -> bool {
    let refuses = match std::env::var(rt, "NO_COLOR") {
        Ok(text) => !text.is_empty(),
        Err(_) => false,
    };
    rt.stdout().is_terminal() && !refuses
}

// An error other than a failed allocation is that of the output.
fn of_output<T: Drop>(outcome: Result<T>) -> io::Result<T> {
    match outcome {
        Ok(done) => Ok(done),
        Err(Asn1DerError::OutOfMemory) => Err(io::Error::from(ErrorKind::OutOfMemory)),
        Err(Asn1DerError::Other(kind)) => Err(io::Error::from(kind)),
        Err(_) => Err(io::Error::from(ErrorKind::WriteZero)),
    }
}
