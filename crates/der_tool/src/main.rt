//! Reads standard input line by line, and writes an answer to each line to standard output.
#![tactic(auto)]

use der_program_base::standard_input;
use der_tool_lib::{kind_word, run};
use picky_der_core::Result;
use picky_der_core::misc::Watched;
use std::io;
use std::io::BufReader;
use std::process::ExitCode;

fn main(rt: HostRuntime) -> ExitCode {
    match answer_input(&rt) {
        Ok(()) => ExitCode::SUCCESS,
        Err(error) => {
            // If standard error can't be written either, the status is all that says so.
            let _ = eprintln!(rt; "der_tool: {}", kind_word(error));
            ExitCode::FAILURE
        }
    }
}

// Answers standard input on standard output.
fn answer_input(rt: &HostRuntime) -> Result<()> {
    let mut input = Watched::new(BufReader::new(rt.alloc(), standard_input(rt))?);
    let mut output = Watched::new(io::writer(rt));
    run(rt.alloc(), &mut input, &mut output)
}
