//! Values of the types that lines name, read and written again.
ghost use Rattle.std.specs.Prelude.{◌≡◌, IfOk, IfErr, string_bytes};
ghost use Rattle.picky_der_core.specs.Equality.{IsKept};
ghost use Rattle.der_tool_lib.specs.Value.{AnswersRead};

mod named;
mod texts;

use crate::{SubjectPublicKeyInfo, TestStruct};
pub(crate) use named::Named;
use picky_asn1_der::asn1::ByteBuf;
use picky_asn1_der::{Asn1DerError, Asn1RawDer, Deserializer, Result};
use std::alloc::Global;
use texts::{hexadecimal, is_out_of_memory, read_text, refused_text};

/// A type that lines name. The word for a type is the name of its variant in lower case, as `null`.
#[derive(Debug, Clone, Copy, PartialEq, Eq)]
pub enum ValueType {
    /// A `bool`.
    Bool,

    /// A `u8`.
    U8,

    /// A `u16`.
    U16,

    /// A `u32`.
    U32,

    /// A `u64`.
    U64,

    /// A `u128`.
    U128,

    /// A `()`.
    Null,

    /// A `char`.
    Char,

    /// A `String`.
    Text,

    /// A `ByteBuf`.
    Octets,

    /// An `Asn1RawDer`.
    Raw,

    /// A `TestStruct`.
    Test,

    /// A `SubjectPublicKeyInfo`.
    Spki,
}

impl ValueType {
    /// A copy names the same type.
    pub fn copies()
        ensures { IsKept ⟦<ValueType as Clone>⟧.is_clone (λ named. named) }
    {}
}

/// Returns the answer to a line that asks for a value of this type from these bytes. It says how many bytes were
/// consumed and the value written again, or why the bytes are refused. The only error is `OutOfMemory`.
pub fn answer_read(alloc: Global, named: ValueType, bytes: &[u8]) -> Result<String>
    ensures ok { IfOk result (λ text. AnswersRead named bytes.now (string_bytes text)) }
    ensures err { IfErr result (λ e. e ≡ Asn1DerError.OutOfMemory) }
{
    match named {
        ValueType::Bool => answer_as::<bool>(alloc, bytes),
        ValueType::U8 => answer_as::<u8>(alloc, bytes),
        ValueType::U16 => answer_as::<u16>(alloc, bytes),
        ValueType::U32 => answer_as::<u32>(alloc, bytes),
        ValueType::U64 => answer_as::<u64>(alloc, bytes),
        ValueType::U128 => answer_as::<u128>(alloc, bytes),
        ValueType::Null => answer_as::<()>(alloc, bytes),
        ValueType::Char => answer_as::<char>(alloc, bytes),
        ValueType::Text => answer_as::<String>(alloc, bytes),
        ValueType::Octets => answer_as::<ByteBuf>(alloc, bytes),
        ValueType::Raw => answer_as::<Asn1RawDer>(alloc, bytes),
        ValueType::Test => answer_as::<TestStruct>(alloc, bytes),
        ValueType::Spki => answer_as::<SubjectPublicKeyInfo>(alloc, bytes),
    }
}

fn answer_as<T: Named>(alloc: Global, bytes: &[u8]) -> Result<String>
    ensures ok { IfOk result (λ text. AnswersRead T.named bytes.now (string_bytes text)) }
    ensures err { IfErr result (λ e. e ≡ Asn1DerError.OutOfMemory) }
{
    let mut de = Deserializer::new_from_bytes(alloc, bytes);
    let outcome = T::read(&mut de);
    let taken = de.taken();
    // No effect at run time. From this the proof reads that a slice never fails.
    let _ = de.into_reader();
    match outcome {
        Ok(value) => read_text(alloc, taken, &hexadecimal(alloc, &value)?),
        Err(error) if is_out_of_memory(error) => Err(Asn1DerError::OutOfMemory),
        Err(error) => refused_text(alloc, error),
    }
}
