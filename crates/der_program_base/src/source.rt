//! Where a tool reads from.
use crate::Progress;
use std::fs;
use std::io::{self, Input, IsTerminal, Read, Stderr, StdinLock};

/// Standard input. Its progress is shown on standard error where that is a terminal and standard output isn't one.
pub fn standard_input(rt: &HostRuntime) -> Progress<StdinLock<'_>, Stderr> {
    let is_shown = rt.stderr().is_terminal() && !rt.stdout().is_terminal();
    let screen = if is_shown { Some(rt.stderr()) } else { None };
    Progress::new(rt.reader(), screen)
}

/// Reads all bytes of the file of this name, or of standard input if the name is `-`.
///
/// Returns the error of the system if it can't be read, and `OutOfMemory` if an allocation failed.
pub fn read_input(rt: &HostRuntime, name: &str) -> io::Result<Vec<u8>> {
    if name == "-" {
        let mut input = Vec::new(rt.alloc());
        standard_input(rt).read_to_end(&mut input)?;
        return Ok(input);
    }
    fs::read(rt, name)
}
