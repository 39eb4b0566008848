//! For each row on standard input, writes a line to standard output. A row is a type and bytes, whose JSON is written
//! if the bytes come back from it, or a type, `from` and JSON, whose bytes are written. If there are none, the line
//! says why.
#![tactic(auto)]

mod kinds;

use der_fixtures::{bytes_of, text_of};
use der_json::{from_json, from_json_text, to_json};
use der_schema::Schema;
use der_schemas::{kerberos, pkix, x509};
use std::alloc::{AllocError, Global};
use std::io;

fn main(rt: HostRuntime) -> io::Result<()> {
    let rows = io::read_to_string(rt.alloc(), rt.reader())?;
    for row in rows.lines() {
        let line = line_of(rt.alloc(), row)?;
        println!(rt; "{line}")?;
    }
    Ok(())
}

// The line of a row. An empty line is its own result, and so is a heading, which begins with `#`.
fn line_of(alloc: Global, row: &str) -> Result<String, AllocError> {
    if row.is_empty() || row.starts_with('#') {
        return String::from_str(alloc, row);
    }
    let (name, text) = row.split_once(' ').unwrap_or((row, ""));
    let Some(schema) = schema_of(name) else {
        return String::from_str(alloc, "no schema");
    };
    if let Some(json) = text.strip_prefix("from ") {
        return bytes_of_json(alloc, schema, json);
    }
    match bytes_of(alloc, text) {
        Ok(bytes) => json_of(alloc, schema, &bytes),
        Err(_) => String::from_str(alloc, "no bytes"),
    }
}

// The JSON of a message, if its bytes come back.
fn json_of(alloc: Global, schema: Schema, bytes: &[u8]) -> Result<String, AllocError> {
    let value = match to_json(alloc, schema, bytes) {
        Ok(value) => value,
        Err(error) => return format!(in alloc; "{error}"),
    };
    match from_json(alloc, schema, &value) {
        Ok(again) if again.as_slice() == bytes => value.to_string(alloc),
        Ok(_) => String::from_str(alloc, "other bytes"),
        Err(error) => format!(in alloc; "not back: {error}"),
    }
}

// The bytes of a message in JSON.
fn bytes_of_json(alloc: Global, schema: Schema, json: &str) -> Result<String, AllocError> {
    match from_json_text(alloc, schema, json) {
        Ok(bytes) => text_of(alloc, &bytes),
        Err(error) => format!(in alloc; "{error}"),
    }
}

// The schema of the type with this name.
fn schema_of(name: &str) -> Option<Schema> {
    match name.as_bytes() {
        b"Certificate" => Some(x509::certificate()),
        b"CertificateList" => Some(x509::certificate_list()),
        b"KeyUsage" => Some(x509::key_usage()),
        b"GeneralName" => Some(pkix::general_name()),
        b"GeneralNames" => Some(pkix::general_names()),
        b"KRB-ERROR" => Some(kerberos::krb_error()),
        b"Ticket" => Some(kerberos::ticket()),
        _ => kinds::schema_of(name),
    }
}
