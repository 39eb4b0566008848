//! For each row on standard input, writes to standard output what `with_short_lengths` returns for its bytes, or
//! `with_whole_strings` if `whole` is before them.
#![tactic(auto)]

use der_ber::{BerError, with_short_lengths, with_whole_strings};
use der_fixtures::{bytes_of, text_of};
use std::alloc::{AllocError, Global};
use std::io;

fn main(rt: HostRuntime) -> io::Result<()> {
    let rows = io::read_to_string(rt.alloc(), rt.reader())?;
    for row in rows.lines() {
        let result = result_of(rt.alloc(), row)?;
        println!(rt; "{result}")?;
    }
    Ok(())
}

// The bytes in DER, or the position of the element that breaks a rule and the rule. An empty line is its own result,
// and so is a heading, which begins with `#`.
fn result_of(alloc: Global, row: &str) -> Result<String, AllocError> {
    if row.is_empty() || row.starts_with('#') {
        return String::from_str(alloc, row);
    }
    let is_whole = row.starts_with("whole ");
    let text = row.strip_prefix("whole ").unwrap_or(row);
    let Ok(bytes) = bytes_of(alloc, text) else {
        return String::from_str(alloc, "no bytes");
    };
    let result = if is_whole {
        with_whole_strings(alloc, &bytes)
    } else {
        with_short_lengths(alloc, &bytes)
    };
    match result {
        Ok(der) => text_of(alloc, &der),
        Err(BerError::Broken { position, rule }) => format!(in alloc; "{position} {rule:?}"),
        Err(BerError::OutOfMemory) => Err(AllocError),
    }
}
