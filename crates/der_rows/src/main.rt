//! For each row on standard input, writes its result to standard output as a line.
//!
//! A row names a type in its Rust spelling and bytes to be read as that type, or a value to be written. The rows and
//! their expected results were worked out by hand from the rules of the encoding.
#![tactic(auto)]

// The result of each part of a text, with the same text between two results as between the parts.
macro_rules! answer_each {
    ($alloc:expr; $part:ident in $text:expr, $between:expr, $answer:expr) => {{
        let mut answers = String::new($alloc);
        for $part in $text.split($between) {
            if !answers.is_empty() {
                answers.push_str($between)?;
            }
            let answer = $answer?;
            answers.push_str(answer.as_str())?;
        }
        answers
    }};
}

mod answers;
mod apart;
mod calls;
mod copies;
mod devices;
mod generated;
mod growths;
mod hand_written;
mod hostile;
mod implicit_list;
mod kept;
mod lamp;
mod lists;
mod members;
mod nested_tags;
mod notation;
mod numbered_tags;
mod own_types;
mod plain;
mod reading;
mod reads;
mod row;
mod rows;
mod runs;
mod seen;
mod streams;
mod sweeps;
mod tool;
mod typed;
mod values;
mod wrappers;
mod writing;

use rows::output_of;
use std::io;

fn main(rt: HostRuntime) -> io::Result<()> {
    let rows = io::read_to_string(rt.alloc(), rt.reader())?;
    for row in rows.lines() {
        let answer = output_of(rt.alloc(), row)?;
        println!(rt; "{answer}")?;
    }
    Ok(())
}
