//! What is printed of files, besides what is printed of the messages in them. The only error of each function is a
//! failed allocation.
ghost use Rattle.std.specs.Prelude.{◌≡◌, IfOk, string_bytes};
ghost use Rattle.std.specs.Option.{option_copied};
ghost use Rattle.serde_json.specs.View.{view};
ghost use Rattle.der.specs.Notes.{heading_text, skipped_data, skipped_line, skipped_text, refused_data, refused_text};

use der_program_base::{Format, json_line, text_or_bytes};
use der_read::{block_value, place_name, place_text};
use serde_json::{Value, json};
use std::alloc::{AllocError, Global};

/// Returns the line that a listing begins with: the file, and for a block of PEM its number and its label.
pub fn heading(
    alloc: Global,
    file: &str,
    block: Option<usize>,
    label: Option<&[u8]>,
) -> Result<String, AllocError>
    ensures { IfOk result (λ text. string_bytes text
        ≡ heading_text file.now block (option_copied label.entry)) }
{
    let name = place_name(alloc, file, block)?;
    match label {
        Some(label) => {
            let label = text_or_bytes(alloc, label)?;
            format!(in alloc; "{name}, {label}:\n")
        }
        None => format!(in alloc; "{name}:\n"),
    }
}

/// Returns the line that says how many lines outside of blocks of PEM weren't looked at, or nothing if there are none.
pub fn skipped_note(
    alloc: Global,
    format: Format,
    file: &str,
    skipped: usize,
) -> Result<String, AllocError>
    ensures { IfOk result (λ text. string_bytes text ≡ skipped_text format file.now skipped) }
{
    if skipped == 0 {
        return Ok(String::new(alloc));
    }
    let line = skipped_line(alloc, format, file, skipped)?;
    format!(in alloc; "{line}\n")
}

fn skipped_line(
    alloc: Global,
    format: Format,
    file: &str,
    skipped: usize,
) -> Result<String, AllocError>
    ensures { IfOk result (λ line. string_bytes line ≡ skipped_line format file.now skipped) }
{
    match format {
        Format::Text => {
            let place = place_text(alloc, file, None)?;
            format!(in alloc; "{place}lines outside of blocks skipped: {skipped}")
        }
        Format::Json => {
            let object = skipped_value(alloc, file, skipped)?;
            json_line(alloc, &object)
        }
    }
}

fn skipped_value(alloc: Global, file: &str, skipped: usize) -> Result<Value, AllocError>
    ensures { IfOk result (λ value. view value ≡ skipped_data file.now skipped) }
{
    json!(in alloc; {"file": file, "skippedLines": skipped})
}

/// Returns the line that says why a file or a block isn't looked at.
pub fn refusal_note(
    alloc: Global,
    format: Format,
    file: &str,
    block: Option<usize>,
    reason: &str,
) -> Result<String, AllocError>
    ensures { IfOk result (λ text. string_bytes text
        ≡ refused_text format file.now block reason.now) }
{
    match format {
        Format::Text => {
            let place = place_text(alloc, file, block)?;
            format!(in alloc; "{place}refused: {reason}\n")
        }
        Format::Json => {
            let object = refused_value(alloc, file, block, reason)?;
            let line = json_line(alloc, &object)?;
            format!(in alloc; "{line}\n")
        }
    }
}

fn refused_value(
    alloc: Global,
    file: &str,
    block: Option<usize>,
    reason: &str,
) -> Result<Value, AllocError>
    ensures { IfOk result (λ value. view value ≡ refused_data file.now block reason.now) }
{
    let block = block_value(block);
    json!(in alloc; {"file": file, "block": block, "refused": reason})
}
