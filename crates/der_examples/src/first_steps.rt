//! First steps: values written and read by the entry calls.
ghost use Rattle.std.specs.Prelude.{◌≡◌, [], ◌∷◌, length, IfOk, IfErr};
ghost use Rattle.picky_der_core.specs.Primitive.{Primitive};
ghost use Rattle.picky_der_core.specs.Encoding.{der};
ghost use Rattle.picky_der_core.specs.Readable.{IsWritable};
ghost use Rattle.picky_der_core.specs.Tree.{Tree};
ghost use Rattle.picky_der_de.specs.Entry.{IsFront, HasNoFront, ReadsFront, RefusesFront, view_of};
ghost use Rattle.picky_der_ser.specs.Calls.{MemoryExcuse};

use picky_asn1_der::asn1::ByteBuf;
use picky_asn1_der::misc::ReadExt;
use picky_asn1_der::{
    Asn1DerError, Deserialize, Result, Serialize, from_bytes, from_reader, to_vec,
};
use std::alloc::Global;

/// Returns the encoding of an octet string: the tag 04, the length, and these bytes. For `AA BB` it is `04 02 AA BB`.
pub fn octets(alloc: Global, content: Vec<u8>) -> Result<Vec<u8>>
    ensures ok { IfOk result (λ bytes. bytes.items ≡ der (Tree.primitive (Primitive.bytes 0x04 content.items))) }
    ensures err { IfErr result (MemoryExcuse (IsWritable (Tree.primitive (Primitive.bytes 0x04 content.items)))) }
{
    to_vec(alloc, &ByteBuf::from(content))
}

/// Returns the encoding of the number 128, `02 02 00 80`: the tag, the length, a byte 00 that keeps the number from
/// being negative, and 80.
pub fn number(alloc: Global) -> Result<Vec<u8>>
    ensures ok { IfOk result (λ bytes. bytes.items ≡ 0x02 ∷ 0x02 ∷ 0x00 ∷ 0x80 ∷ []) }
    ensures err { IfErr result (λ e. e ≡ Asn1DerError.OutOfMemory) }
{
    to_vec(alloc, &128u8)
}

/// Returns the number of 8 bits at the front: 7 for `02 01 07 05 00`. `02 02 00 80` is read as 128. `02 02 00 7F` is
/// `InvalidData`, since the shorter `02 01 7F` is the one encoding of 127.
pub fn small_number(alloc: Global, bytes: &[u8]) -> Result<u8>
    ensures value { IfOk result (IsFront ⟦<u8 as Serialize>⟧.meaning ⟦<u8 as Deserialize>⟧.shape
        ⟦<u8 as PartialEq>⟧.eq bytes.now (length bytes.now)) }
    ensures err { IfErr result (HasNoFront ⟦<u8 as Serialize>⟧.meaning
        ⟦<u8 as Deserialize>⟧.shape bytes.now (length bytes.now)) }
{
    from_bytes(alloc, bytes)
}

/// Reads the text at the front of a reader. From `0C 02 C3 A9 05 00` it reads `é`, and leaves `05 00` in the reader. It
/// consumes at most 10240 bytes, whatever length the text announces.
pub fn text<R: ReadExt>(alloc: Global, reader: &mut R) -> Result<String>
    ensures value { IfOk result (ReadsFront ⟦<String as Serialize>⟧.meaning
        ⟦<String as Deserialize>⟧.shape ⟦<String as PartialEq>⟧.eq 10240
        (view_of R.remaining R.faults reader.old) (view_of R.remaining R.faults reader.new)) }
    ensures err { IfErr result (RefusesFront ⟦<String as Serialize>⟧.meaning
        ⟦<String as Deserialize>⟧.shape 10240
        (view_of R.remaining R.faults reader.old) (view_of R.remaining R.faults reader.new)) }
    ensures same_references { R.references reader.new ≡ R.references reader.old }
{
    from_reader(alloc, reader)
}
