//! Blocks of PEM with any label (RFC 7468).
ghost use Rattle.std.specs.Prelude.{◌≡◌, ℕ, List, ◌++◌, not, count_by, IfOk, OnOk, MatchOption};
ghost use Rattle.std.specs.Char.{is_ascii_whitespace};
ghost use Rattle.std.specs.List.{filter};
ghost use Rattle.der_program_base.specs.Boundaries.{IsBoundaryOf, IsSplitAtBoundary, IsFirstBlock, IsBody};
ghost use Rattle.der_program_base.specs.Lines.{AreOther, texts, is_filled, dashes};
ghost use Rattle.der_program_base.specs.Sections.{AreBlocksOf, base64_in, bytes_in, has_colon, items_of};

use base64::DecodeAllocError;
use base64::engine::general_purpose::STANDARD;
use std::alloc::{AllocError, Global};

const BEGIN: &[u8] = b"-----BEGIN ";

const END: &[u8] = b"-----END ";

const DASHES: &[u8] = b"-----";

/// The blocks of PEM in a text, in order.
#[derive(Debug, Drop)]
pub struct Blocks {
    /// The blocks, also faulty ones.
    pub blocks: Vec<Block>,
    /// How many lines after the last block aren't blank.
    pub skipped: usize,
}

/// A block of PEM.
#[derive(Debug, Drop)]
pub struct Block {
    /// The label in the line that begins the block, as `CERTIFICATE`.
    pub label: Vec<u8>,
    /// How many lines before the block, and after the one before it, aren't blank.
    pub skipped: usize,
    /// The bytes that the block encodes.
    pub bytes: Result<Vec<u8>, BlockFault>,
}

/// Why a block has no bytes.
#[derive(Clone, Copy, Debug)]
pub enum BlockFault {
    /// An end line has no begin line. The label is that of the end line.
    NoBegin,
    /// A begin line has no end line: another block begins before it, or the text ends.
    NoEnd,
    /// The end line has another label than the begin line.
    OtherLabel,
    /// The block has headers, as an encrypted one does (RFC 1421, 4.6.1): a colon is in it.
    Headers,
    /// The text in the block isn't base64 (RFC 4648, 4).
    NoBase64,
}

impl BlockFault {
    /// Returns a sentence that says why the block has no bytes.
    pub fn sentence(self) -> &'static str {
        match self {
            BlockFault::NoBegin => "the end line has no begin line",
            BlockFault::NoEnd => "the begin line has no end line",
            BlockFault::OtherLabel => "the end line has another label than the begin line",
            BlockFault::Headers => {
                "the block has headers, as an encrypted one does; decrypt it first, as with openssl"
            }
            BlockFault::NoBase64 => "the text of the block isn't base64",
        }
    }
}

// A line that begins or ends a block, by its label.
#[derive(Clone, Copy)]
enum Boundary<'a> {
    Begin(&'a [u8]),
    End(&'a [u8]),
}

/// Returns the blocks in the lines of a text.
pub(crate) fn blocks_of<'a>(alloc: Global, lines: &'a [&'a [u8]]) -> Result<Blocks, AllocError>
    ensures { IfOk result (AreBlocksOf (texts lines.now)) }
{
    let mut blocks = Vec::new(alloc);
    let mut start = 0;
    while let Some((block, rest)) = first_block(alloc, &lines[start..])? {
        blocks.push(block)?;
        start = lines.len() - rest.len();
    }
    let skipped = filled_lines(&lines[start..]);
    Ok(Blocks { blocks, skipped })
}

// The first block, and the lines after it.
fn first_block<'a>(
    alloc: Global,
    lines: &'a [&'a [u8]],
) -> Result<Option<(Block, &'a [&'a [u8]])>, AllocError>
    ensures { IfOk result (λ first. MatchOption first (AreOther (texts lines.now))
        (λ found. IsFirstBlock (texts lines.now) found.0 (texts found.1.now))) }
{
    let (outside, found) = split_at_boundary(lines);
    let Some((boundary, after)) = found else {
        return Ok(None);
    };
    let skipped = filled_lines(outside);
    match boundary {
        Boundary::End(label) => {
            let label = label.to_vec(alloc)?;
            let bytes = Err(BlockFault::NoBegin);
            let block = Block {
                label,
                skipped,
                bytes,
            };
            Ok(Some((block, after)))
        }
        Boundary::Begin(label) => {
            let (bytes, rest) = body_of(alloc, label, after)?;
            let label = label.to_vec(alloc)?;
            let block = Block {
                label,
                skipped,
                bytes,
            };
            Ok(Some((block, rest)))
        }
    }
}

// What comes of the lines after the begin line of a block with this label, and the lines after the block.
fn body_of<'a>(
    alloc: Global,
    label: &[u8],
    lines: &'a [&'a [u8]],
) -> Result<(Result<Vec<u8>, BlockFault>, &'a [&'a [u8]]), AllocError>
    ensures { IfOk result (λ body. IsBody label.now (texts lines.now) (items_of body.0)
        (texts body.1.now)) }
{
    let (body, found) = split_at_boundary(lines);
    let Some((boundary, rest)) = found else {
        return Ok((Err(BlockFault::NoEnd), &[]));
    };
    match boundary {
        Boundary::Begin(_) => Ok((Err(BlockFault::NoEnd), &lines[body.len()..])),
        Boundary::End(other) => {
            if *label == *other {
                Ok((decoded(alloc, body)?, rest))
            } else {
                Ok((Err(BlockFault::OtherLabel), rest))
            }
        }
    }
}

/// Returns the bytes that the lines of a body encode.
pub(crate) fn decoded(
    alloc: Global,
    body: &[&[u8]],
) -> Result<Result<Vec<u8>, BlockFault>, AllocError>
    ensures { IfOk result (λ bytes. items_of bytes ≡ bytes_in (texts body.now)) }
{
    if has_colon(body) {
        return Ok(Err(BlockFault::Headers));
    }
    let text = base64_in(alloc, body)?;
    match STANDARD.decode(alloc, &text) {
        Ok(bytes) => Ok(Ok(bytes)),
        Err(DecodeAllocError::DecodeError(_)) => Ok(Err(BlockFault::NoBase64)),
        Err(DecodeAllocError::OutOfMemory) => Err(AllocError),
    }
}

// Whether a colon is in some line.
fn has_colon(body: &[&[u8]]) -> bool
    ensures { result ≡ has_colon (texts body.now) }
{
    body.iter().any(|line| line.contains(&b':'))
}

// The text in the lines of a body, without white space.
fn base64_in(alloc: Global, body: &[&[u8]]) -> Result<Vec<u8>, AllocError>
    ensures { IfOk result (λ text. text.items ≡ base64_in (texts body.now)) }
{
    let mut text = Vec::new(alloc);
    for line in body {
        push_filled(&mut text, line)?;
    }
    Ok(text)
}

// Appends the bytes of a line that aren't white space.
fn push_filled(text: &mut Vec<u8>, line: &[u8]) -> Result<(), AllocError>
    ensures { OnOk result (text.new.items ≡ text.old.items
        ++ filter (λ byte. not (is_ascii_whitespace byte)) line.now) }
{
    for byte in line {
        if !byte.is_ascii_whitespace() {
            text.push(*byte)?;
        }
    }
    Ok(())
}

// The lines up to the first boundary, that boundary, and the lines after it.
fn split_at_boundary<'a>(
    lines: &'a [&'a [u8]],
) -> (&'a [&'a [u8]], Option<(Boundary<'a>, &'a [&'a [u8]])>)
    ensures { IsSplitAtBoundary (texts lines.now) (texts result.0.now) result.1 }
{
    for (index, line) in lines.iter().enumerate() {
        if let Some(boundary) = boundary_of(line) {
            return (&lines[..index], Some((boundary, &lines[index + 1..])));
        }
    }
    (lines, None)
}

// What a line begins or ends.
fn boundary_of(line: &[u8]) -> Option<Boundary<'_>>
    ensures { IsBoundaryOf line.now result }
{
    let line = line.trim_ascii();
    if let Some(label) = label_of(line, BEGIN) {
        return Some(Boundary::Begin(label));
    }
    match label_of(line, END) {
        Some(label) => Some(Boundary::End(label)),
        None => None,
    }
}

// The text between this front and five dashes.
fn label_of<'a>(line: &'a [u8], front: &[u8]) -> Option<&'a [u8]>
    ensures { MatchOption result ((label : List ℕ) → line.now ≡ front.now ++ (label ++ dashes) → ⊥)
        (λ label. line.now ≡ front.now ++ (label.now ++ dashes)) }
{
    line.strip_prefix(front)?.strip_suffix(DASHES)
}

// How many lines aren't blank.
fn filled_lines(lines: &[&[u8]]) -> usize
    ensures { result ≡ count_by is_filled (texts lines.now) }
{
    lines.iter().filter(|line| is_filled(line)).count()
}

// Whether some byte isn't white space.
fn is_filled(line: &[u8]) -> bool
    ensures { result ≡ is_filled line.now }
{
    line.iter().any(|byte| !byte.is_ascii_whitespace())
}
