//! What is printed of the bytes of a file.
ghost use Rattle.std.specs.Prelude.{◌≡◌, OnOk, IfOk, string_bytes};
ghost use Rattle.std.specs.Option.{option_copied};
ghost use Rattle.std.specs.Io.KnownBytes.{Appends};
ghost use Rattle.der_program_base.specs.declared.status.Status.TheVariants.{Refused};
ghost use Rattle.der.specs.Notes.{refused_text, skipped_text};
ghost use Rattle.der.specs.Report.{Prints, AreBlocksPrinted, IsBlockPrinted, IsMessagePrinted, IsReport};
ghost use Rattle.der.specs.Report.{IsBerPrinted, IsDerPrinted};
ghost use Rattle.der.specs.Report.{IsRefusalPrinted, IsListingPrinted, IsShowPrinted, IsReadPrinted, IsCmsPrinted};
ghost use Rattle.der.specs.Report.{AreCertificatesPrinted, listing_status, front_text, form_of};

use crate::notes::{heading, refusal_note, skipped_note};
use crate::request::{Action, Request};
use der_program_base::{Block, Contents, Format, Printed, Status, contents_of};
use der_read::{BerPrinted, MessageType, certificate_line, read_ber, read_message};
use der_show::{LineForm, ShowOptions, Shown, Source, show_as};
use der_signers::signers_report;
use picky_asn1_der::Result;
use picky_asn1_der::misc::WriteExt;
use std::alloc::Global;

const NOTHING_THERE: &str = "there is no byte at this offset";

/// Which listings have headings and colours.
#[derive(Debug, Clone, Copy, PartialEq, Eq)]
pub struct View {
    /// Whether the listing of a whole file begins with a heading. Those of blocks of PEM always do.
    pub has_headings: bool,
    /// Whether the columns of a listing are coloured.
    pub has_colours: bool,
}

/// Prints what is asked about the messages in a file, and returns the worst status. The input is what the file has.
///
/// The error is that of the output, or `OutOfMemory` if an allocation failed.
pub fn print_report<W: WriteExt>(
    alloc: Global,
    request: &Request,
    view: View,
    file: &str,
    input: &[u8],
    output: &mut W,
) -> Result<Status>
    ensures { IfOk result (λ status. Prints (IsReport request.now view file.now input.now status)
        (W.written output.old) (W.written output.new)) }
{
    let source = Source { file, block: None };
    match contents_of(alloc, input, request.form)? {
        Contents::Der => {
            if view.has_headings {
                print_heading(alloc, request, &source, None, output)?;
            }
            print_message(alloc, request, view, &source, None, input, output)
        }
        Contents::Pem(blocks) => {
            let status = print_blocks(alloc, request, view, file, &blocks.blocks, output)?;
            print_skipped(alloc, request.format, file, blocks.skipped, output)?;
            Ok(status)
        }
        Contents::Other(guess) => {
            print_refusal(alloc, request.format, &source, guess.sentence(), output)
        }
    }
}

// Prints what is asked about these blocks, and how many lines are skipped before each.
fn print_blocks<W: WriteExt>(
    alloc: Global,
    request: &Request,
    view: View,
    file: &str,
    blocks: &[Block],
    output: &mut W,
) -> Result<Status>
    ensures { IfOk result (λ status. Prints (AreBlocksPrinted request.now view file.now blocks.now status)
        (W.written output.old) (W.written output.new)) }
{
    let mut status = Status::Fine;
    let mut number: usize = 0;
    for block in blocks {
        number = number.saturating_add(1);
        print_skipped(alloc, request.format, file, block.skipped, output)?;
        let source = Source {
            file,
            block: Some(number),
        };
        status = status.worse(print_block(alloc, request, view, &source, block, output)?);
    }
    Ok(status)
}

// Prints what is asked about a block.
fn print_block<W: WriteExt>(
    alloc: Global,
    request: &Request,
    view: View,
    source: &Source<'_>,
    block: &Block,
    output: &mut W,
) -> Result<Status>
    ensures { IfOk result (λ status. Prints (IsBlockPrinted request.now view source.now block.now status)
        (W.written output.old) (W.written output.new)) }
{
    match &block.bytes {
        Ok(bytes) => {
            let label = Some(block.label.as_slice());
            print_heading(alloc, request, source, label, output)?;
            print_message(alloc, request, view, source, label, bytes, output)
        }
        Err(fault) => print_refusal(alloc, request.format, source, fault.sentence(), output),
    }
}

// Prints what is asked about a message, in BER or in DER.
fn print_message<W: WriteExt>(
    alloc: Global,
    request: &Request,
    view: View,
    source: &Source<'_>,
    label: Option<&[u8]>,
    bytes: &[u8],
    output: &mut W,
) -> Result<Status>
    ensures { IfOk result (λ status. Prints (IsMessagePrinted request.now view source.now
        (option_copied label.entry) bytes.now status) (W.written output.old) (W.written output.new)) }
{
    match request.ber {
        Some(named) => print_in_ber(alloc, request, view, source, label, named, bytes, output),
        None => print_in_der(alloc, request, view, source, label, bytes, output),
    }
}

// Prints a line on bytes in BER, and what is asked about the message of this type. Or it prints why they aren't one.
fn print_in_ber<W: WriteExt>(
    alloc: Global,
    request: &Request,
    view: View,
    source: &Source<'_>,
    label: Option<&[u8]>,
    named: MessageType,
    bytes: &[u8],
    output: &mut W,
) -> Result<Status>
    ensures { IfOk result (λ status. Prints (IsBerPrinted request.now view source.now
        (option_copied label.entry) named bytes.now status) (W.written output.old) (W.written output.new)) }
{
    match read_ber(
        alloc,
        request.format,
        source.file,
        source.block,
        named,
        bytes,
    )? {
        BerPrinted::Message { line, der } => {
            output.write_exact(line.as_bytes())?;
            print_in_der(alloc, request, view, source, label, &der, output)
        }
        BerPrinted::Refused(printed) => print_lines(&printed, output),
    }
}

// Prints what is asked about a message in DER.
fn print_in_der<W: WriteExt>(
    alloc: Global,
    request: &Request,
    view: View,
    source: &Source<'_>,
    label: Option<&[u8]>,
    bytes: &[u8],
    output: &mut W,
) -> Result<Status>
    ensures { IfOk result (λ status. Prints (IsDerPrinted request.now view source.now
        (option_copied label.entry) bytes.now status) (W.written output.old) (W.written output.new)) }
{
    let format = request.format;
    match &request.action {
        Action::Show(options) => print_shown(alloc, options, format, view, source, bytes, output),
        Action::Read(wanted) => print_read(alloc, format, source, *wanted, label, bytes, output),
        Action::Cms(signers) => print_signers(alloc, format, source, signers, bytes, output),
        Action::Certificate => print_certificate(alloc, format, source, bytes, output),
    }
}

// Prints of which type a message is.
fn print_read<W: WriteExt>(
    alloc: Global,
    format: Format,
    source: &Source<'_>,
    wanted: Option<MessageType>,
    label: Option<&[u8]>,
    bytes: &[u8],
    output: &mut W,
) -> Result<Status>
    ensures { IfOk result (λ status. Prints (IsReadPrinted format source.now wanted
        (option_copied label.entry) bytes.now status) (W.written output.old) (W.written output.new)) }
{
    let printed = read_message(
        alloc,
        format,
        source.file,
        source.block,
        wanted,
        label,
        bytes,
    )?;
    print_lines(&printed, output)
}

// Prints what agrees for each signer of a message.
fn print_signers<W: WriteExt>(
    alloc: Global,
    format: Format,
    source: &Source<'_>,
    signers: &der_signers::Request,
    bytes: &[u8],
    output: &mut W,
) -> Result<Status>
    ensures { IfOk result (λ status. Prints (IsCmsPrinted format source.now signers.now bytes.now status)
        (W.written output.old) (W.written output.new)) }
{
    let printed = signers_report(alloc, source.file, source.block, bytes, signers, format)?;
    print_lines(&printed, output)
}

// Prints a line on a certificate.
fn print_certificate<W: WriteExt>(
    alloc: Global,
    format: Format,
    source: &Source<'_>,
    bytes: &[u8],
    output: &mut W,
) -> Result<Status>
    ensures { IfOk result (λ status. Prints (AreCertificatesPrinted format source.now bytes.now status)
        (W.written output.old) (W.written output.new)) }
{
    let printed = certificate_line(alloc, format, source.file, source.block, bytes)?;
    print_lines(&printed, output)
}

// Prints the elements of a message, or that there is none where the listing begins.
fn print_shown<W: WriteExt>(
    alloc: Global,
    options: &ShowOptions,
    format: Format,
    view: View,
    source: &Source<'_>,
    bytes: &[u8],
    output: &mut W,
) -> Result<Status>
    ensures { IfOk result (λ status. Prints (IsShowPrinted format view source.now options.now bytes.now status)
        (W.written output.old) (W.written output.new)) }
{
    if options.start < bytes.len() {
        let form = line_form(format, view, source);
        return print_listing(alloc, options, &form, bytes, output);
    }
    print_refusal(alloc, format, source, NOTHING_THERE, output)
}

// The form of the lines of a listing.
fn line_form<'a>(format: Format, view: View, source: &Source<'a>) -> LineForm<'a>
    ensures { result ≡ form_of format view source.now }
{
    match format {
        Format::Json => LineForm::Json(*source),
        Format::Text => {
            if view.has_colours {
                LineForm::Coloured
            } else {
                LineForm::Text
            }
        }
    }
}

// Prints the elements of a message.
fn print_listing<W: WriteExt>(
    alloc: Global,
    options: &ShowOptions,
    form: &LineForm<'_>,
    bytes: &[u8],
    output: &mut W,
) -> Result<Status>
    ensures { IfOk result (λ status. Prints (IsListingPrinted form.now options.now bytes.now status)
        (W.written output.old) (W.written output.new)) }
{
    let shown = show_as(alloc, bytes, options, form, output)?;
    Ok(status_of(shown))
}

// The status for a message with this listing.
fn status_of(shown: Shown) -> Status
    ensures { result ≡ listing_status shown }
{
    if shown.is_der {
        Status::Fine
    } else {
        Status::Refused
    }
}

// Prints lines, and returns their status.
fn print_lines<W: WriteExt>(printed: &Printed, output: &mut W) -> Result<Status>
    ensures { IfOk result (λ status. (status ≡ printed.now.status)
        × Appends (W.written output.old) (W.written output.new) (string_bytes printed.now.text)) }
{
    output.write_exact(printed.text.as_bytes())?;
    Ok(printed.status)
}

// Prints the heading of a listing. Lines of JSON and of the other commands name their message.
fn print_heading<W: WriteExt>(
    alloc: Global,
    request: &Request,
    source: &Source<'_>,
    label: Option<&[u8]>,
    output: &mut W,
) -> Result<()>
    ensures { OnOk result (Appends (W.written output.old) (W.written output.new)
        (front_text request.now source.now (option_copied label.entry))) }
{
    if let (Action::Show(_), Format::Text) = (&request.action, request.format) {
        let heading = heading(alloc, source.file, source.block, label)?;
        output.write_exact(heading.as_bytes())?;
    }
    Ok(())
}

fn print_skipped<W: WriteExt>(
    alloc: Global,
    format: Format,
    file: &str,
    skipped: usize,
    output: &mut W,
) -> Result<()>
    ensures { OnOk result (Appends (W.written output.old) (W.written output.new)
        (skipped_text format file.now skipped)) }
{
    let note = skipped_note(alloc, format, file, skipped)?;
    output.write_exact(note.as_bytes())?;
    Ok(())
}

// Prints why a file or a block isn't looked at.
fn print_refusal<W: WriteExt>(
    alloc: Global,
    format: Format,
    source: &Source<'_>,
    reason: &str,
    output: &mut W,
) -> Result<Status>
    ensures { IfOk result (λ status. Prints (IsRefusalPrinted format source.now status)
        (W.written output.old) (W.written output.new)) }
{
    let note = refusal_note(alloc, format, source.file, source.block, reason)?;
    output.write_exact(note.as_bytes())?;
    Ok(Status::Refused)
}
