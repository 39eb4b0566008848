//! The lines of a listing.
ghost use Rattle.std.specs.Prelude.{◌≡◌, ◌∷◌, [], ◌++◌, IfOk, OnOk, IfErr, codes, string_bytes};
ghost use Rattle.picky_der_core.specs.WriterFaults.{IsOnceAtMost};
ghost use Rattle.der_program_base.specs.Line.{IsOneLine};
ghost use Rattle.der_show.specs.Entries.{element_at};
ghost use Rattle.der_show.specs.Steps.{step_entries};
ghost use Rattle.der_show.specs.Shown.{IsTextLine, IsLineOf, WritesEntries, StopsAmong};

use crate::columns::{front_of_complaint, front_of_element};
use crate::json::{json_of_complaint, json_of_element};
use crate::step::Step;
use crate::type_name::push_type_name;
use crate::value::{ValueForm, push_value};
use crate::{Complaint, Element, Entry, Header, LineForm};
use der_program_base::Line;
use picky_der_core::asn1::Tag;
use picky_der_core::misc::WriteExt;
use picky_der_core::{Asn1DerError, Result};
use std::alloc::{AllocError, Global};

// What begins the colour of columns on a terminal (ECMA-48, 8.3.117).
const FAINT: &str = "\u{1b}[2m";

const RED: &str = "\u{1b}[31m";

// Where an element is.
#[derive(Clone, Copy)]
pub(crate) struct Place {
    // The index of its tag.
    pub(crate) offset: usize,
    // How many elements are around it.
    pub(crate) depth: usize,
}

// Writes the lines of a step at this place. The bytes ahead begin there. A value is written in this form.
pub(crate) fn write_step<W: WriteExt>(
    alloc: Global,
    ahead: &[u8],
    place: Place,
    step: &Step,
    form: ValueForm,
    format: &LineForm,
    output: &mut W,
) -> Result<()>
    ensures ok { OnOk result (WritesEntries format.now (step_entries place.depth place.offset step.now)
        (W.written output.old) (W.written output.new)) }
    ensures err { IfErr result (λ e. StopsAmong W.WriteExt.own format.now
        (step_entries place.depth place.offset step.now) output.old e output.new) }
    ensures counted { IsOnceAtMost (W.faults output.old) (W.faults output.new) }
    ensures no_fault { OnOk result (W.faults output.new ≡ W.faults output.old) }
    ensures continues { W.later output.old output.new }
{
    let offset = place.offset;
    match *step {
        Step::Element(header, opening) => {
            let entry = element_at(place, header);
            let form = if opening.is_none() { Some(form) } else { None };
            write_entry(alloc, ahead, entry, form, format, output)
        }
        Step::Broken(rule, header) => {
            let complaint = Entry::Complaint(Complaint { offset, rule });
            write_entry(alloc, ahead, complaint, None, format, output)?;
            write_entry(
                alloc,
                ahead,
                element_at(place, header),
                Some(form),
                format,
                output,
            )
        }
        Step::Skipped(rule) | Step::Stopped(rule) => {
            let complaint = Entry::Complaint(Complaint { offset, rule });
            write_entry(alloc, ahead, complaint, None, format, output)
        }
    }
}

// The element at this place with this header.
fn element_at(place: Place, header: Header) -> Entry
    ensures { result ≡ element_at place.depth place.offset header }
{
    Entry::Element(Element {
        offset: place.offset,
        depth: place.depth,
        tag: header.tag,
        header_len: header.header_len,
        content_len: header.content_len,
    })
}

// Writes the line of an entry, and the byte that ends it. The bytes ahead begin with the element.
fn write_entry<W: WriteExt>(
    alloc: Global,
    ahead: &[u8],
    entry: Entry,
    form: Option<ValueForm>,
    format: &LineForm,
    output: &mut W,
) -> Result<()>
    ensures ok { OnOk result (WritesEntries format.now (entry ∷ []) (W.written output.old)
        (W.written output.new)) }
    ensures err { IfErr result (λ e. StopsAmong W.WriteExt.own format.now (entry ∷ []) output.old e
        output.new) }
    ensures counted { IsOnceAtMost (W.faults output.old) (W.faults output.new) }
    ensures no_fault { OnOk result (W.faults output.new ≡ W.faults output.old) }
    ensures continues { W.later output.old output.new }
{
    let mut line = line_of(alloc, ahead, &entry, form, format)?;
    if line.push('\n').is_err() {
        return Err(Asn1DerError::OutOfMemory);
    }
    output.write_exact(line.as_bytes())?;
    Ok(())
}

// The line of an entry.
fn line_of(
    alloc: Global,
    ahead: &[u8],
    entry: &Entry,
    form: Option<ValueForm>,
    format: &LineForm,
) -> std::result::Result<String, AllocError>
    ensures { IfOk result (λ line. IsLineOf format.now entry.now (string_bytes line)) }
{
    match (*format, entry) {
        (LineForm::Text, Entry::Element(element)) => element_line(alloc, ahead, element, form),
        (LineForm::Text, Entry::Complaint(complaint)) => complaint_line(alloc, complaint),
        (LineForm::Coloured, Entry::Element(element)) => {
            let front = front_of_element(alloc, element)?;
            let words = element_words(alloc, ahead, element, form)?;
            coloured(alloc, FAINT, &front, &words)
        }
        (LineForm::Coloured, Entry::Complaint(complaint)) => {
            let front = front_of_complaint(alloc, complaint.offset)?;
            let words = complaint_words(alloc, complaint)?;
            coloured(alloc, RED, &front, &words)
        }
        (LineForm::Json(source), Entry::Element(element)) => {
            let type_name = type_text(alloc, element.tag)?;
            let value = value_text(alloc, ahead, element, form)?;
            json_of_element(alloc, &source, element, &type_name, value)
        }
        (LineForm::Json(source), Entry::Complaint(complaint)) => {
            let rule = complaint.rule;
            json_of_complaint(
                alloc,
                &source,
                complaint.offset,
                rule.words(),
                rule.clause(),
            )
        }
    }
}

// The columns of a line in a colour, and then its words.
fn coloured(
    alloc: Global,
    colour: &str,
    front: &str,
    words: &str,
) -> std::result::Result<String, AllocError>
    ensures { IfOk result (λ line. string_bytes line
        ≡ colour.now ++ (front.now ++ ((0x1B ∷ codes "[0m") ++ words.now))) }
{
    format!(in alloc; "{colour}{front}\u{1b}[0m{words}")
}

// The name of a tag.
fn type_text(alloc: Global, tag: Tag) -> std::result::Result<String, AllocError> {
    let mut line = Line::new(alloc);
    push_type_name(&mut line, tag)?;
    Ok(line.into_string())
}

// The value of the element at the front of the bytes, or `None` if none is written.
fn value_text(
    alloc: Global,
    ahead: &[u8],
    element: &Element,
    form: Option<ValueForm>,
) -> std::result::Result<Option<String>, AllocError> {
    let mut line = Line::new(alloc);
    if let Some(form) = form {
        push_content(alloc, &mut line, form, ahead, element)?;
    }
    let text = line.into_string();
    match text.as_str().strip_prefix(' ') {
        Some(value) => Ok(Some(String::from_str(alloc, value)?)),
        None => Ok(None),
    }
}

// The line of the element at the front of the bytes.
fn element_line(
    alloc: Global,
    ahead: &[u8],
    element: &Element,
    form: Option<ValueForm>,
) -> std::result::Result<String, AllocError>
    ensures { IfOk result (λ line. IsTextLine (Entry.Element element.now) (string_bytes line)) }
{
    let words = element_words(alloc, ahead, element, form)?;
    let mut line = front_of_element(alloc, element)?;
    line.push_str(&words)?;
    Ok(line)
}

// The type of the element at the front of the bytes, and its value.
fn element_words(
    alloc: Global,
    ahead: &[u8],
    element: &Element,
    form: Option<ValueForm>,
) -> std::result::Result<String, AllocError>
    ensures { IfOk result (λ words. IsOneLine (string_bytes words)) }
{
    let mut words = Line::new(alloc);
    push_type_name(&mut words, element.tag)?;
    if let Some(form) = form {
        push_content(alloc, &mut words, form, ahead, element)?;
    }
    Ok(words.into_string())
}

// Appends the value of the element at the front of the bytes if it is primitive.
fn push_content(
    alloc: Global,
    line: &mut Line,
    form: ValueForm,
    ahead: &[u8],
    element: &Element,
) -> std::result::Result<(), AllocError> {
    let tag = element.tag;
    if tag.is_constructed() {
        return Ok(());
    }
    let end = element.header_len.saturating_add(element.content_len);
    let content = ahead.get(element.header_len..end).unwrap_or(&[]);
    push_value(alloc, line, form, tag, content)
}

// The line of a complaint: the offset, and the rule with its clause.
fn complaint_line(alloc: Global, complaint: &Complaint) -> std::result::Result<String, AllocError>
    ensures { IfOk result (λ line. IsTextLine (Entry.Complaint complaint.now) (string_bytes line)) }
{
    let words = complaint_words(alloc, complaint)?;
    let mut line = front_of_complaint(alloc, complaint.offset)?;
    line.push_str(&words)?;
    Ok(line)
}

// The rule that is broken, with its clause.
fn complaint_words(alloc: Global, complaint: &Complaint) -> std::result::Result<String, AllocError>
    ensures { IfOk result (λ words. IsOneLine (string_bytes words)) }
{
    let mut words = Line::new(alloc);
    let rule = complaint.rule;
    write!(words, "{rule}")?;
    Ok(words.into_string())
}
