//! Lines of JSON.
ghost use Rattle.std.specs.Prelude.{◌≡◌, ◌++◌, false, OnOk, IfOk, string_bytes};
ghost use Rattle.serde_json.specs.View.{view};
ghost use Rattle.serde_json.specs.Written.{has_float};
ghost use Rattle.der_program_base.specs.Line.{IsOneLine};
ghost use Rattle.der_program_base.specs.Json.{json_character, json_code, json_line, on_one_line};

use crate::Line;
use crate::line::is_disruptive;
use serde_json::Value;
use std::alloc::{AllocError, Global};

/// Returns a value as JSON on one line. A character that ends a line, or that moves or hides others, is written as `\u`
/// and four hexadecimal digits (RFC 8259, 7). The only error is a failed allocation.
pub fn json_line(alloc: Global, value: &Value) -> Result<String, AllocError>
    ensures text { IfOk result (λ line. has_float (view value.now) ≡ false
        → string_bytes line ≡ json_line (view value.now)) }
    ensures one_line { IfOk result (λ line. IsOneLine (string_bytes line)) }
{
    let text = value.to_string(alloc)?;
    let mut line = Line::new(alloc);
    push_json(&mut line, &text)?;
    Ok(line.into_string())
}

// Appends a text of JSON.
fn push_json(line: &mut Line, text: &str) -> Result<(), AllocError>
    ensures { OnOk result (line.new ≡ line.old ++ on_one_line text.now) }
{
    for character in text.chars() {
        push_in_json(line, character)?;
    }
    Ok(())
}

fn push_in_json(line: &mut Line, character: char) -> Result<(), AllocError>
    ensures { OnOk result (line.new ≡ line.old ++ json_character character) }
{
    if is_disruptive(character) {
        return push_code(line, u32::from(character));
    }
    line.push(character)
}

// Appends `\u` and the last four hexadecimal digits of a number.
fn push_code(line: &mut Line, code: u32) -> Result<(), AllocError>
    ensures { OnOk result (line.new ≡ line.old ++ json_code code) }
{
    line.push('\\')?;
    line.push('u')?;
    line.push_hexadecimal(&[(code / 256 % 256) as u8, (code % 256) as u8])
}
