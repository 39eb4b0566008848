//! Shows DER, and reads messages in it. `der --help` lists its commands.
#![tactic(auto)]

mod arguments;
mod inputs;
mod notes;
mod report;
mod request;
mod write;
mod write_ber;

use crate::arguments::{COMMANDS, command};
use crate::inputs::{has_colours, print_file, write_file};
use crate::report::View;
use crate::request::{Request, request_of, wanted_type};
use crate::write::write_request;
use clap::ArgMatches;
use der_program_base::{Status, report};
use picky_asn1_der::misc::Watched;
use std::io::{self, BufWriter, ErrorKind, Write};
use std::process::ExitCode;

fn main(rt: HostRuntime) -> ExitCode {
    let status = match run(&rt) {
        Ok(status) => status,
        Err(error) => {
            // If standard error can't be written either, the status is all that says so.
            let _ = eprintln!(rt; "der: {error}");
            Status::Trouble
        }
    };
    ExitCode::from(status.code())
}

// Does what the arguments ask for, and returns the status.
fn run(rt: &HostRuntime) -> io::Result<Status> {
    let words: Vec<String> = match std::env::args(rt) {
        Ok(words) => words.collect(rt.alloc())?,
        Err(error) if error.kind() == ErrorKind::InvalidData => {
            eprintln!(rt; "der: an argument isn't UTF-8")?;
            return Ok(Status::Trouble);
        }
        Err(error) => return Err(error),
    };
    let matches = match command(rt.alloc())?.try_get_matches_from(words.as_slice()) {
        Ok(matches) => matches,
        Err(error) => return report(rt, &error),
    };
    for name in &COMMANDS {
        if let Some(found) = matches.subcommand_matches(*name) {
            let words = found.get_strs("FILE").unwrap_or(&[]);
            return match *name {
                "write" => run_write(rt, words, found.get_flag("ber")),
                name => run_command(rt, name, found, words),
            };
        }
    }
    Ok(Status::Trouble)
}

// Writes the message that these words ask for, from BER or from JSON, and returns the status.
fn run_write(rt: &HostRuntime, words: &[&str], is_ber: bool) -> io::Result<Status> {
    let Some(request) = write_request(words) else {
        eprintln!(rt; "der: write wants the word of a type and at most one file")?;
        return Ok(Status::Trouble);
    };
    let mut output = Watched::new(BufWriter::new(rt.alloc(), io::writer(rt))?);
    let written = match write_file(rt, request, is_ber, &mut output) {
        Ok(status) => match output.flush() {
            Ok(()) => Ok(status),
            Err(error) => Err(error),
        },
        Err(error) => Err(error),
    };
    of_output(rt, written)
}

// Does what the arguments of a command ask for. Of its words all are files, but for the type of `read`.
fn run_command(
    rt: &HostRuntime,
    name: &str,
    matches: &ArgMatches<'_>,
    words: &[&str],
) -> io::Result<Status> {
    let Some(request) = request_of(rt, name, matches, words)? else {
        return Ok(Status::Trouble);
    };
    match words {
        [_, files @ ..] if name == "read" && wanted_type(words).is_some() => {
            print_files(rt, &request, files)
        }
        files => print_files(rt, &request, files),
    }
}

// Prints what is asked about files, and returns the worst status. If the output can't be written, it says so.
fn print_files(rt: &HostRuntime, request: &Request, files: &[&str]) -> io::Result<Status> {
    of_output(rt, print_each(rt, request, files))
}

// The status. If the output can't be written, it says so.
fn of_output(rt: &HostRuntime, outcome: io::Result<Status>) -> io::Result<Status> {
    match outcome {
        Err(error) if error.kind() != ErrorKind::OutOfMemory => {
            eprintln!(rt; "der: the output can't be written: {error}")?;
            Ok(Status::Trouble)
        }
        done => done,
    }
}

// Prints what is asked about files, and returns the worst status. The error is that of the output, or `OutOfMemory`.
fn print_each(rt: &HostRuntime, request: &Request, files: &[&str]) -> io::Result<Status> {
    let mut output = Watched::new(BufWriter::new(rt.alloc(), io::writer(rt))?);
    let view = View {
        has_headings: files.len() > 1,
        has_colours: has_colours(rt),
    };
    let mut status = Status::Fine;
    for file in files {
        status = status.worse(print_file(rt, request, view, *file, &mut output)?);
    }
    output.flush()?;
    Ok(status)
}
