//! Listings that are written while the bytes are read.
ghost use Rattle.std.specs.Prelude.{◌≡◌, IfOk, OnOk, IfErr};
ghost use Rattle.picky_der_core.specs.WriterFaults.{IsOnceAtMost};
ghost use Rattle.der_show.specs.Shown.{Shows, Stops};

use crate::ends::Ends;
use crate::entry_line::{Place, write_step};
use crate::key_usage::bits_after_header;
use crate::step::{move_past, step_at};
use crate::value::ValueForm;
use crate::{LineForm, ShowOptions};
use picky_der_core::Result;
use picky_der_core::misc::WriteExt;
use std::alloc::Global;

// Of a value that is cut short, this many bytes are written.
const SHORT: usize = 48;

/// What was listed.
#[derive(Debug, Clone, Copy, PartialEq, Eq)]
pub struct Shown {
    /// Whether no rule was broken.
    pub is_der: bool,
}

/// Writes the listing of bytes as text, as `show_as` does.
pub fn show<W: WriteExt>(
    alloc: Global,
    bytes: &[u8],
    options: &ShowOptions,
    output: &mut W,
) -> Result<Shown>
    ensures ok { IfOk result (λ shown. Shows LineForm.Text options.now bytes.now shown
        (W.written output.old) (W.written output.new)) }
    ensures err { IfErr result (λ e. Stops W.WriteExt.own LineForm.Text options.now bytes.now
        output.old e output.new) }
    ensures counted { IsOnceAtMost (W.faults output.old) (W.faults output.new) }
    ensures no_fault { OnOk result (W.faults output.new ≡ W.faults output.old) }
    ensures continues { W.later output.old output.new }
{
    show_as(alloc, bytes, options, &LineForm::Text, output)
}

/// Writes the listing of bytes: a line for each element, and for each rule that is broken. Each line ends with the byte
/// 0A.
///
/// Without `keeps_going`, the first rule that is broken ends the listing. With it, the listing goes on in or after the
/// element that breaks the rule, or after the element around it if it has no header.
///
/// The error is `OutOfMemory` if an allocation failed, or that of the writer. Then a beginning of the lines was
/// written. Memory is needed for one line, and for the ends of the elements around an offset.
pub fn show_as<W: WriteExt>(
    alloc: Global,
    bytes: &[u8],
    options: &ShowOptions,
    form: &LineForm,
    output: &mut W,
) -> Result<Shown>
    ensures ok { IfOk result (λ shown. Shows form.now options.now bytes.now shown
        (W.written output.old) (W.written output.new)) }
    ensures err { IfErr result (λ e. Stops W.WriteExt.own form.now options.now bytes.now output.old
        e output.new) }
    ensures counted { IsOnceAtMost (W.faults output.old) (W.faults output.new) }
    ensures no_fault { OnOk result (W.faults output.new ≡ W.faults output.old) }
    ensures continues { W.later output.old output.new }
{
    let len = bytes.len();
    let mut ends = Ends::new(alloc);
    let mut offset = options.start.min(len);
    let mut is_der = true;
    let mut key_usage = None;
    while offset < len {
        let end = ends.innermost(len);
        let ahead = &bytes[offset..end];
        let depth = ends.depth();
        let step = step_at(alloc, options, depth, ahead)?;
        let value = value_form(options, key_usage == Some(offset));
        write_step(
            alloc,
            ahead,
            Place { offset, depth },
            &step,
            value,
            form,
            output,
        )?;
        is_der &= step.is_element();
        if !step.continues() {
            return Ok(Shown { is_der });
        }
        key_usage = bits_after(ahead, offset).or(key_usage);
        offset = move_past(&mut ends, offset, end, step)?;
    }
    Ok(Shown { is_der })
}

// The form of a value.
fn value_form(options: &ShowOptions, is_key_usage: bool) -> ValueForm {
    ValueForm {
        limit: if options.is_short { SHORT } else { usize::MAX },
        is_key_usage,
    }
}

// The offset of the bits of the extension keyUsage, if the bytes at this offset are its identifier.
fn bits_after(ahead: &[u8], offset: usize) -> Option<usize> {
    bits_after_header(ahead).map(|index| offset.saturating_add(index))
}
