//! Names as text (RFC 4514, 2). The only error of each function is a failed allocation.
ghost use Rattle.std.specs.Prelude.{◌≡◌, ℕ, List, ◌++◌, map, IfOk, OnOk, string_bytes};
ghost use Rattle.der_program_base.specs.Line.{escaped, is_special_in_names, shown};
ghost use Rattle.der_program_base.specs.Texts.{marked_bytes};
ghost use Rattle.std.specs.List.{AllZip};
ghost use Rattle.der_elements.specs.Elements.{element_bytes};
ghost use Rattle.der_read.specs.Names.{dotted_text, has_wide_arc, joined, IsTypeText, IsValueText, IsAttributeText};
ghost use Rattle.der_read.specs.Names.{IsTextOfAttribute, IsStepText, IsStepsText, IsNameText};

use crate::attribute_name::AttributeName;
use crate::strings::text_of;
use der_elements::AnyElement;
use der_program_base::{Line, push_bytes, push_text};
use der_types::ObjectIdentifier;
use der_x509::{Attribute, Name, RelativeName};
use std::alloc::{AllocError, Global};

/// Returns the text of a name: its steps from the root down, with `, ` between them, and ` + ` between the attributes
/// of one step.
///
/// The type of an attribute is printed as its name (RFC 4514, 3), or else as its object identifier. A value that is a
/// string is printed as its text, and any other as the bytes of its element. Special characters in it get a backslash
/// before them.
pub fn name_text(alloc: Global, name: &Name) -> Result<String, AllocError>
    ensures { IfOk result (λ text. IsNameText name.now (string_bytes text)) }
{
    match name {
        Name::RdnSequence(steps) => steps_text(alloc, steps),
    }
}

// The text of the steps of a name.
fn steps_text(alloc: Global, steps: &[RelativeName]) -> Result<String, AllocError>
    ensures { IfOk result (λ text. IsStepsText (map (λ step. step.value.0.items) steps.now)
        (string_bytes text)) }
{
    let texts = step_texts(alloc, steps)?;
    joined(alloc, ", ", &texts)
}

/// Appends the text of a name.
pub fn push_name(alloc: Global, line: &mut Line, name: &Name) -> Result<(), AllocError>
    ensures { OnOk result ((text : List ℕ) × IsNameText name.now text
        × (line.new ≡ line.old ++ shown text)) }
{
    let text = name_text(alloc, name)?;
    line.push_str(&text)
}

// The texts of the steps.
fn step_texts(alloc: Global, steps: &[RelativeName]) -> Result<Vec<String>, AllocError>
    ensures { IfOk result (λ texts. AllZip (λ step text. IsStepText step.value.0.items (string_bytes text))
        steps.now texts.items) }
{
    let mut texts = Vec::new(alloc);
    for step in steps {
        let text = step_text(alloc, &step.get().0)?;
        texts.push(text)?;
    }
    Ok(texts)
}

// The text of a step.
fn step_text(alloc: Global, attributes: &[Attribute]) -> Result<String, AllocError>
    ensures { IfOk result (λ text. IsStepText attributes.now (string_bytes text)) }
{
    let texts = attribute_texts(alloc, attributes)?;
    joined(alloc, " + ", &texts)
}

// The texts of the attributes of a step.
fn attribute_texts(alloc: Global, attributes: &[Attribute]) -> Result<Vec<String>, AllocError>
    ensures { IfOk result (λ texts. AllZip IsTextOfAttribute attributes.now texts.items) }
{
    let mut texts = Vec::new(alloc);
    for attribute in attributes {
        let text = attribute_text(alloc, attribute)?;
        texts.push(text)?;
    }
    Ok(texts)
}

// The text of an attribute: its type and its value.
fn attribute_text(alloc: Global, attribute: &Attribute) -> Result<String, AllocError>
    ensures { IfOk result (λ text. IsAttributeText attribute.now (string_bytes text)) }
{
    let kind = type_text(alloc, &attribute.type_)?;
    let value = any_text(alloc, &attribute.value)?;
    format!(in alloc; "{kind}={value}")
}

// The name of a type of attributes, or its arcs.
fn type_text(alloc: Global, identifier: &ObjectIdentifier) -> Result<String, AllocError>
    ensures { IfOk result (λ text. IsTypeText identifier.now (string_bytes text)) }
{
    match AttributeName::of(identifier) {
        Some(name) => String::from_str(alloc, name.name()),
        None => dotted_text(alloc, identifier),
    }
}

// The arcs of an object identifier, with dots between them, or the bytes of its content if an arc has more than 64
// bits.
pub(crate) fn dotted_text(
    alloc: Global,
    identifier: &ObjectIdentifier,
) -> Result<String, AllocError>
    ensures { IfOk result (λ text. string_bytes text ≡ dotted_text identifier.now) }
{
    if has_wide_arc(identifier) {
        return marked_bytes(alloc, identifier.content());
    }
    format!(in alloc; "{identifier}")
}

fn has_wide_arc(identifier: &ObjectIdentifier) -> bool
    ensures { result ≡ has_wide_arc identifier.now }
{
    identifier.arcs().any(|arc| arc.is_err())
}

// Bytes, as `#` and hexadecimal digits.
fn marked_bytes(alloc: Global, bytes: &[u8]) -> Result<String, AllocError>
    ensures { IfOk result (λ text. string_bytes text ≡ marked_bytes bytes.now) }
{
    let mut line = Line::new(alloc);
    push_bytes(&mut line, bytes)?;
    Ok(line.into_string())
}

// The text of a value of any type.
fn any_text(alloc: Global, value: &AnyElement) -> Result<String, AllocError>
    ensures { IfOk result (λ text. IsValueText (element_bytes value.now) (string_bytes text)) }
{
    value_text(alloc, value.as_bytes())
}

// The text of a string with backslashes before special characters, and any other element as `#` and its bytes in
// hexadecimal.
fn value_text(alloc: Global, element: &[u8]) -> Result<String, AllocError>
    ensures { IfOk result (λ text. IsValueText element.now (string_bytes text)) }
{
    match text_of(alloc, element)? {
        Some(text) => escaped(alloc, &text),
        None => marked_bytes(alloc, element),
    }
}

// A text with a backslash before each special character.
fn escaped(alloc: Global, text: &str) -> Result<String, AllocError>
    ensures { IfOk result (λ line. string_bytes line ≡ escaped is_special_in_names text.now) }
{
    let mut line = Line::new(alloc);
    push_text(&mut line, text)?;
    Ok(line.into_string())
}

// The texts, one after another, with the separator between them.
pub(crate) fn joined(alloc: Global, separator: &str, texts: &[String]) -> Result<String, AllocError>
    ensures { IfOk result (λ text. string_bytes text
        ≡ joined separator.now (map string_bytes texts.now)) }
{
    let Some((first, others)) = texts.split_first() else {
        return Ok(String::new(alloc));
    };
    let mut text = String::from_str(alloc, first)?;
    for other in others {
        text.push_str(separator)?;
        text.push_str(other)?;
    }
    Ok(text)
}
