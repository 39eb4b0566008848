//! For each row on standard input, a type and bytes in BER, writes to standard output what `to_der` returns for them,
//! or `message_to_der` for a message.
#![tactic(auto)]

mod sample;
mod tables;

use der_ber_types::{ContentType, ToDerError, message_to_der, to_der};
use der_fixtures::{bytes_of, text_of};
use der_schemas::{cms, signed_data};
use std::alloc::{AllocError, Global};
use std::io;
use tables::schema_of;

fn main(rt: HostRuntime) -> io::Result<()> {
    let rows = io::read_to_string(rt.alloc(), rt.reader())?;
    for row in rows.lines() {
        let result = result_of(rt.alloc(), row)?;
        println!(rt; "{result}")?;
    }
    Ok(())
}

// The contents of messages of CMS by the contents of their identifiers (RFC 5652, 5.1, 7 and 8).
fn contents() -> [ContentType; 3] {
    [
        ContentType {
            identifier: &[0x2A, 0x86, 0x48, 0x86, 0xF7, 0x0D, 0x01, 0x07, 0x02],
            schema: signed_data::signed_data(),
        },
        ContentType {
            identifier: &[0x2A, 0x86, 0x48, 0x86, 0xF7, 0x0D, 0x01, 0x07, 0x05],
            schema: cms::digested_data(),
        },
        ContentType {
            identifier: &[0x2A, 0x86, 0x48, 0x86, 0xF7, 0x0D, 0x01, 0x07, 0x06],
            schema: cms::encrypted_data(),
        },
    ]
}

// The bytes in DER, or why there are none. An empty line is its own result, and so is a heading, which begins with `#`.
fn result_of(alloc: Global, row: &str) -> Result<String, AllocError> {
    if row.is_empty() || row.starts_with('#') {
        return String::from_str(alloc, row);
    }
    let Some((name, text)) = row.split_once(' ') else {
        return String::from_str(alloc, "no bytes");
    };
    let Ok(bytes) = bytes_of(alloc, text) else {
        return String::from_str(alloc, "no bytes");
    };
    let result = match schema_of(name) {
        Some(schema) => to_der(alloc, schema, &bytes),
        None => message_to_der(alloc, &contents(), &bytes),
    };
    match result {
        Ok(der) => text_of(alloc, &der),
        Err(ToDerError::Broken { position, rule }) => format!(in alloc; "{position} {rule:?}"),
        Err(ToDerError::OtherType) => String::from_str(alloc, "OtherType"),
        Err(ToDerError::OutOfMemory) => Err(AllocError),
    }
}
