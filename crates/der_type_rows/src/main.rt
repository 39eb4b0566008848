//! For each row on standard input, writes its result to standard output as a line: what bytes are read as in the types
//! of `der_types` and of messages, and how their values are written.
#![tactic(auto)]

mod bits;
mod bounds;
mod identifiers;
mod integers;
mod messages;
mod outcomes;
mod rows;
mod strings;
mod texts;
mod times;
mod traits;
mod usages;

use rows::result_of;
use std::io;

fn main(rt: HostRuntime) -> io::Result<()> {
    let rows = io::read_to_string(rt.alloc(), rt.reader())?;
    for row in rows.lines() {
        let result = result_of(rt.alloc(), row)?;
        println!(rt; "{result}")?;
    }
    Ok(())
}
