//! For each row on standard input, writes lines to standard output.
//!
//! - `nodes`, a type and an index: the index of the type's node, and a line of each node from that index up to the
//!   type's: the index, the node, what the standard calls it, and the index of the type inside.
//! - `json`, a type and bytes: their JSON, if the bytes come back from it, or why not.
#![tactic(auto)]

mod tables;

use der_fixtures::bytes_of;
use der_json::{from_json, to_json};
use der_schema::Schema;
use std::alloc::{AllocError, Global};
use std::io;
use tables::schema_of;

fn main(rt: HostRuntime) -> io::Result<()> {
    let rows = io::read_to_string(rt.alloc(), rt.reader())?;
    for row in rows.lines() {
        let line = line_of(rt.alloc(), row)?;
        println!(rt; "{line}")?;
    }
    Ok(())
}

// The lines of a row. A heading, which begins with `#`, is its own line.
fn line_of(alloc: Global, row: &str) -> Result<String, AllocError> {
    if row.starts_with('#') {
        return String::from_str(alloc, row);
    }
    let (action, words) = row.split_once(' ').unwrap_or((row, ""));
    let (name, text) = words.split_once(' ').unwrap_or((words, ""));
    match schema_of(name) {
        Some(schema) if action == "nodes" => nodes_of(alloc, schema, text),
        Some(schema) => json_of(alloc, schema, text),
        None => String::from_str(alloc, "no schema"),
    }
}

// The index of a type's node, and the nodes from this index on.
fn nodes_of(alloc: Global, schema: Schema, from: &str) -> Result<String, AllocError> {
    let mut lines = format!(in alloc; "{}", schema.root)?;
    for index in from.parse::<u16>().unwrap_or(0)..=schema.root {
        if let Some(node) = schema.node(index) {
            let (name, inner) = (node.kind.name(), node.kind.inner());
            let line = format!(in alloc; "\n{index} {node:?} {name:?} {inner:?}")?;
            lines.push_str(&line)?;
        }
    }
    Ok(lines)
}

// The JSON of a message, if its bytes come back.
fn json_of(alloc: Global, schema: Schema, text: &str) -> Result<String, AllocError> {
    let Ok(bytes) = bytes_of(alloc, text) else {
        return String::from_str(alloc, "no bytes");
    };
    let value = match to_json(alloc, schema, &bytes) {
        Ok(value) => value,
        Err(error) => return format!(in alloc; "{error}"),
    };
    match from_json(alloc, schema, &value) {
        Ok(again) if again.as_slice() == bytes.as_slice() => value.to_string(alloc),
        Ok(_) => String::from_str(alloc, "other bytes"),
        Err(error) => format!(in alloc; "not back: {error}"),
    }
}
