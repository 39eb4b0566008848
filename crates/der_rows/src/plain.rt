//! Plain values, octet strings, bytes under tags of their own, and options.

use crate::answers::{RowBytes, read_as, read_copied};
use crate::lists;
use der_elements::AnyElement;
use picky_asn1_der::Asn1RawDer;
use picky_asn1_der::asn1::{ByteBuf, TaggedBytes};
use std::alloc::{AllocError, Global};

/// The result of a row that names one of these types. Other rows go to the next family.
pub(crate) fn answer(alloc: Global, name: &str, row: &RowBytes) -> Result<String, AllocError> {
    match name {
        "bool" => read_as::<bool>(alloc, row),
        "u8" => read_as::<u8>(alloc, row),
        "u16" => read_as::<u16>(alloc, row),
        "u32" => read_as::<u32>(alloc, row),
        "u64" => read_as::<u64>(alloc, row),
        "u128" => read_as::<u128>(alloc, row),
        "usize" => read_as::<usize>(alloc, row),
        "()" => read_as::<()>(alloc, row),
        "char" => read_as::<char>(alloc, row),
        "String" => read_as::<String>(alloc, row),
        "ByteBuf" => read_copied::<ByteBuf>(alloc, row),
        "TaggedBytes<0x1F>" => read_copied::<TaggedBytes<0x1F>>(alloc, row),
        "TaggedBytes<0x9E>" => read_copied::<TaggedBytes<0x9E>>(alloc, row),
        "Option<u8>" => read_as::<Option<u8>>(alloc, row),
        "Asn1RawDer" => read_copied::<Asn1RawDer>(alloc, row),
        "AnyElement" => read_copied::<AnyElement>(alloc, row),
        _ => lists::answer(alloc, name, row),
    }
}
