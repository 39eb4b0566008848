//! Lines of JSON. The only error of each function is a failed allocation.
ghost use Rattle.std.specs.Prelude.{◌≡◌, IfOk, option_map, string_bytes};
ghost use Rattle.serde_json.specs.View.{view};
ghost use Rattle.der_program_base.specs.Json.{json_line};
ghost use Rattle.der_show.specs.Json.{element_data, complaint_data, block_data, value_data};

use crate::{Element, Source};
use der_program_base::json_line;
use serde_json::{Value, json};
use std::alloc::{AllocError, Global};

// The object of an element: what is printed of its type and of its value, if one is.
pub(crate) fn json_of_element(
    alloc: Global,
    source: &Source,
    element: &Element,
    type_name: &str,
    value: Option<String>,
) -> Result<String, AllocError>
    ensures { IfOk result (λ text. string_bytes text
        ≡ json_line (element_data source.now element.now type_name.now (option_map string_bytes value))) }
{
    let data = element_value(alloc, source, element, type_name, value)?;
    json_line(alloc, &data)
}

fn element_value(
    alloc: Global,
    source: &Source,
    element: &Element,
    type_name: &str,
    value: Option<String>,
) -> Result<Value, AllocError>
    ensures { IfOk result (λ object. view object
        ≡ element_data source.now element.now type_name.now (option_map string_bytes value)) }
{
    let file = source.file;
    let block = block_value(source.block);
    let value = value_of(value);
    let offset = element.offset;
    let depth = element.depth;
    let header_len = element.header_len;
    let content_len = element.content_len;
    let is_constructed = element.tag.is_constructed();
    json!(in alloc; {
        "file": file,
        "block": block,
        "offset": offset,
        "depth": depth,
        "headerLength": header_len,
        "length": content_len,
        "constructed": is_constructed,
        "type": type_name,
        "value": value
    })
}

// The object of a rule that is broken.
pub(crate) fn json_of_complaint(
    alloc: Global,
    source: &Source,
    offset: usize,
    rule: &str,
    clause: &str,
) -> Result<String, AllocError>
    ensures { IfOk result (λ text. string_bytes text ≡ json_line (complaint_data source.now offset rule.now clause.now)) }
{
    let data = complaint_value(alloc, source, offset, rule, clause)?;
    json_line(alloc, &data)
}

fn complaint_value(
    alloc: Global,
    source: &Source,
    offset: usize,
    rule: &str,
    clause: &str,
) -> Result<Value, AllocError>
    ensures { IfOk result (λ object. view object ≡ complaint_data source.now offset rule.now clause.now) }
{
    let file = source.file;
    let block = block_value(source.block);
    json!(in alloc; {
        "file": file,
        "block": block,
        "offset": offset,
        "rule": rule,
        "clause": clause
    })
}

// The number of a block, or null.
fn block_value(block: Option<usize>) -> Value
    ensures { view result ≡ block_data block }
{
    match block {
        Some(number) => Value::from(number),
        None => Value::Null,
    }
}

// What is printed of a value, or null.
fn value_of(value: Option<String>) -> Value
    ensures { view result ≡ value_data (option_map string_bytes value) }
{
    match value {
        Some(text) => Value::String(text),
        None => Value::Null,
    }
}
