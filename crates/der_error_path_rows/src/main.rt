//! For each row on standard input, how many bytes were consumed and bytes, writes to standard output where the error is
//! in an `Order` and what is wrong there.
#![tactic(auto)]

mod order;

use crate::order::order;
use der_error_path::path_of_error;
use der_fixtures::bytes_of;
use std::alloc::{AllocError, Global};
use std::io;

fn main(rt: HostRuntime) -> io::Result<()> {
    let rows = io::read_to_string(rt.alloc(), rt.reader())?;
    for row in rows.lines() {
        let line = line_of(rt.alloc(), row)?;
        println!(rt; "{line}")?;
    }
    Ok(())
}

// The byte that the error names, its path by names and what is wrong. An empty line is its own result, and so is a
// heading, which begins with `#`.
fn line_of(alloc: Global, row: &str) -> Result<String, AllocError> {
    if row.is_empty() || row.starts_with('#') {
        return String::from_str(alloc, row);
    }
    let (position, text) = row.split_once(' ').unwrap_or((row, ""));
    let Ok(position) = position.parse::<usize>() else {
        return String::from_str(alloc, "no position");
    };
    let Ok(bytes) = bytes_of(alloc, text) else {
        return String::from_str(alloc, "no bytes");
    };
    let schema = order();
    let path = path_of_error(alloc, schema, &bytes, position)?;
    let names = path.names(alloc)?;
    let reason = path.reason(alloc, schema)?;
    format!(in alloc; "{} {names}: {reason}", path.place)
}
