//! Where a message is: in which file, and in which block of PEM if it is in one. The only error of each function is a
//! failed allocation.
ghost use Rattle.std.specs.Prelude.{◌≡◌, IfOk, string_bytes};
ghost use Rattle.serde_json.specs.View.{view};
ghost use Rattle.der_read.specs.Place.{place_name, place_text, block_data};

use der_program_base::shown;
use serde_json::Value;
use std::alloc::{AllocError, Global};

/// Returns how a line names a message: `FILE` or `FILE, block N`. The name of the file is written on one line.
pub fn place_name(alloc: Global, file: &str, block: Option<usize>) -> Result<String, AllocError>
    ensures { IfOk result (λ text. string_bytes text ≡ place_name file.now block) }
{
    let file = shown(alloc, file)?;
    match block {
        Some(number) => format!(in alloc; "{file}, block {number}"),
        None => Ok(file),
    }
}

/// Returns what a line on a message begins with: `FILE: ` or `FILE, block N: `.
pub fn place_text(alloc: Global, file: &str, block: Option<usize>) -> Result<String, AllocError>
    ensures { IfOk result (λ text. string_bytes text ≡ place_text file.now block) }
{
    let name = place_name(alloc, file, block)?;
    format!(in alloc; "{name}: ")
}

/// Returns the number of a block in JSON, or null.
pub fn block_value(block: Option<usize>) -> Value
    ensures { view result ≡ block_data block }
{
    match block {
        Some(number) => Value::from(number),
        None => Value::Null,
    }
}
