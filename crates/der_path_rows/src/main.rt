//! For each row on standard input, the index of a byte and bytes, writes to standard output the path of the byte.
#![tactic(auto)]

use der_fixtures::bytes_of;
use der_path::{path_at, text_of};
use std::alloc::{AllocError, Global};
use std::io;

fn main(rt: HostRuntime) -> io::Result<()> {
    let rows = io::read_to_string(rt.alloc(), rt.reader())?;
    for row in rows.lines() {
        let path = path_in(rt.alloc(), row)?;
        println!(rt; "{path}")?;
    }
    Ok(())
}

// The path by numbers, with a point between any two of them. An empty line is its own result, and so is a heading,
// which begins with `#`.
fn path_in(alloc: Global, row: &str) -> Result<String, AllocError> {
    if row.is_empty() || row.starts_with('#') {
        return String::from_str(alloc, row);
    }
    let (place, text) = row.split_once(' ').unwrap_or((row, ""));
    let Ok(place) = place.parse::<usize>() else {
        return String::from_str(alloc, "no index");
    };
    let Ok(bytes) = bytes_of(alloc, text) else {
        return String::from_str(alloc, "no bytes");
    };
    text_of(alloc, &path_at(alloc, &bytes, place)?)
}
