//! Elements that are written to a sink.
ghost use Rattle.std.specs.Prelude.{◌≡◌, ◌++◌, length, IfOk, IfErr, OnOk, OnErr};
ghost use Rattle.std.specs.Io.KnownBytes.{Appends};
ghost use Rattle.picky_der_core.specs.Element.{tlv};
ghost use Rattle.picky_der_core.specs.Writer.{AppendsTooFew};
ghost use Rattle.picky_der_core.specs.WriterFaults.{WriterFails};

use picky_der_core::asn1::Tag;
use picky_der_core::misc::{Length, WriteExt};
use picky_der_core::{Asn1DerError, Result};

// Writes a tag, the length and the content. Nothing is allocated.
pub(crate) fn put_element<W: WriteExt>(sink: &mut W, tag: Tag, content: &[u8]) -> Result<usize>
    ensures count { IfOk result (λ n. n ≡ length (tlv tag content.now)) }
    ensures appends { OnOk result (Appends (W.written sink.old) (W.written sink.new)
        (tlv tag content.now)) }
    ensures beginning { OnErr result (AppendsTooFew (W.written sink.old) (W.written sink.new)
        (tlv tag content.now)) }
    ensures fault { IfErr result (λ e. WriterFails W.WriteExt.own sink.old e sink.new) }
    ensures no_fault { OnOk result (W.faults sink.new ≡ W.faults sink.old) }
    ensures continues { W.later sink.old sink.new }
{
    let identifier = sink.write_one(tag.inner())?;
    let length = Length::serialize(content.len(), sink)?;
    let rest = sink.write_exact(content)?;
    Ok(identifier + length + rest)
}

// Writes the headers of a content, and the content.
pub(crate) fn put_headed<W: WriteExt>(sink: &mut W, headers: &[u8], content: &[u8]) -> Result<usize>
    ensures count { IfOk result (λ n. n ≡ length (headers.now ++ content.now)) }
    ensures appends { OnOk result (Appends (W.written sink.old) (W.written sink.new)
        (headers.now ++ content.now)) }
    ensures beginning { OnErr result (AppendsTooFew (W.written sink.old) (W.written sink.new)
        (headers.now ++ content.now)) }
    ensures fault { IfErr result (λ e. WriterFails W.WriteExt.own sink.old e sink.new) }
    ensures no_fault { OnOk result (W.faults sink.new ≡ W.faults sink.old) }
    ensures continues { W.later sink.old sink.new }
{
    let first = sink.write_exact(headers)?;
    let rest = sink.write_exact(content)?;
    Ok(first + rest)
}
