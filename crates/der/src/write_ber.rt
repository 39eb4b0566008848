//! What `write --ber` writes: the DER of a message, from its BER. The error of each function is that of the output, or
//! `OutOfMemory` if an allocation failed.
ghost use Rattle.std.specs.Prelude.{IfOk};
ghost use Rattle.der.specs.WriteBer.{AreBlocksWritten, IsBerWritten, IsBlockWritten, IsInputWritten, IsNothingWritten};

use crate::write::Written;
use der_program_base::{Block, Contents, contents_of};
use der_read::{FromBer, MessageType, message_from_ber};
use picky_asn1_der::Result;
use picky_asn1_der::misc::WriteExt;
use std::alloc::Global;

const NO_ONE_BLOCK: &str = "there are several blocks of PEM, and one message is written";

/// Writes the DER of the message of a type that an input has in BER. The message is the whole input, or the only block
/// of PEM in it, as it is for the other commands.
pub fn write_from_ber<W: WriteExt>(
    alloc: Global,
    named: MessageType,
    input: &[u8],
    output: &mut W,
) -> Result<Written>
    ensures { IfOk result (IsInputWritten named input.now (W.written output.old) (W.written output.new)) }
{
    match contents_of(alloc, input, None)? {
        Contents::Der => write_der(alloc, named, input, output),
        Contents::Pem(blocks) => write_only(alloc, named, &blocks.blocks, output),
        Contents::Other(guess) => nothing_written(alloc, guess.sentence(), output),
    }
}

// The same of blocks of PEM.
fn write_only<W: WriteExt>(
    alloc: Global,
    named: MessageType,
    blocks: &[Block],
    output: &mut W,
) -> Result<Written>
    ensures { IfOk result (AreBlocksWritten named blocks.now (W.written output.old) (W.written output.new)) }
{
    match blocks {
        [block] => write_block(alloc, named, block, output),
        _ => nothing_written(alloc, NO_ONE_BLOCK, output),
    }
}

// The same of a block.
fn write_block<W: WriteExt>(
    alloc: Global,
    named: MessageType,
    block: &Block,
    output: &mut W,
) -> Result<Written>
    ensures { IfOk result (IsBlockWritten named block.now (W.written output.old) (W.written output.new)) }
{
    match &block.bytes {
        Ok(bytes) => write_der(alloc, named, bytes, output),
        Err(fault) => nothing_written(alloc, fault.sentence(), output),
    }
}

// The same of bytes.
fn write_der<W: WriteExt>(
    alloc: Global,
    named: MessageType,
    bytes: &[u8],
    output: &mut W,
) -> Result<Written>
    ensures { IfOk result (IsBerWritten named bytes.now (W.written output.old) (W.written output.new)) }
{
    match message_from_ber(alloc, named, bytes)? {
        FromBer::Message(der) => {
            output.write_exact(&der)?;
            Ok(Written::Message)
        }
        FromBer::NoSchema => Ok(Written::NoSchema),
        FromBer::Refused(reason) => Ok(Written::Refused(reason)),
    }
}

// Nothing is written, for this reason.
fn nothing_written<W: WriteExt>(alloc: Global, reason: &str, output: &mut W) -> Result<Written>
    ensures { IfOk result (IsNothingWritten (W.written output.old) (W.written output.new)) }
{
    Ok(Written::Refused(String::from_str(alloc, reason)?))
}
