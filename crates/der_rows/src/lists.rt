//! Lists, sets, arrays, tuples and rows.

use crate::answers::{RowBytes, read_as, read_copied};
use crate::row::Row;
use crate::wrappers;
use picky_asn1_der::Asn1RawDer;
use picky_asn1_der::asn1::{
    Asn1SequenceOf, Asn1SetOf, ByteBuf, ExplicitContextTag0, ObjectIdentifierAsn1,
};
use std::alloc::{AllocError, Global};

/// The result of a row that names one of these types. Other rows go to the next family.
pub(crate) fn answer(alloc: Global, name: &str, row: &RowBytes) -> Result<String, AllocError> {
    match name {
        "Vec<u8>" => read_as::<Vec<u8>>(alloc, row),
        "Vec<ByteBuf>" => read_as::<Vec<ByteBuf>>(alloc, row),
        "Vec<Vec<u8>>" => read_as::<Vec<Vec<u8>>>(alloc, row),
        "Vec<Vec<ByteBuf>>" => read_as::<Vec<Vec<ByteBuf>>>(alloc, row),
        "Vec<Option<u8>>" => read_as::<Vec<Option<u8>>>(alloc, row),
        "Vec<Asn1RawDer>" => read_as::<Vec<Asn1RawDer>>(alloc, row),
        _ => asn1_list(alloc, name, row),
    }
}

fn asn1_list(alloc: Global, name: &str, row: &RowBytes) -> Result<String, AllocError> {
    match name {
        "Asn1SequenceOf<u8>" => read_copied::<Asn1SequenceOf<u8>>(alloc, row),
        "Asn1SetOf<u8>" => read_copied::<Asn1SetOf<u8>>(alloc, row),
        "Asn1SetOf<u16>" => read_copied::<Asn1SetOf<u16>>(alloc, row),
        "Asn1SetOf<ByteBuf>" => read_copied::<Asn1SetOf<ByteBuf>>(alloc, row),
        "Asn1SetOf<Asn1SetOf<u8>>" => read_copied::<Asn1SetOf<Asn1SetOf<u8>>>(alloc, row),
        "Asn1SetOf<ExplicitContextTag0<Asn1SetOf<u8>>>" => read_copied::<
            Asn1SetOf<ExplicitContextTag0<Asn1SetOf<u8>>>,
        >(alloc, row),
        "Asn1SetOf<Vec<Asn1SetOf<u8>>>" => read_copied::<Asn1SetOf<Vec<Asn1SetOf<u8>>>>(alloc, row),
        _ => array_or_tuple(alloc, name, row),
    }
}

fn array_or_tuple(alloc: Global, name: &str, row: &RowBytes) -> Result<String, AllocError> {
    match name {
        "[u8; 0]" => read_as::<[u8; 0]>(alloc, row),
        "[u8; 1]" => read_as::<[u8; 1]>(alloc, row),
        "[u8; 2]" => read_as::<[u8; 2]>(alloc, row),
        "[u8; 3]" => read_as::<[u8; 3]>(alloc, row),
        "[[u8; 1]; 2]" => read_as::<[[u8; 1]; 2]>(alloc, row),
        "(u8,)" => read_as::<(u8,)>(alloc, row),
        "(u8, u8, u8)" => read_as::<(u8, u8, u8)>(alloc, row),
        "(u8, u8, u8, u8)" => read_as::<(u8, u8, u8, u8)>(alloc, row),
        "(u8, u8, u8, u8, u8)" => read_as::<(u8, u8, u8, u8, u8)>(alloc, row),
        "(u8, u8, u8, u8, u8, u8, u8, u8)" => read_as::<(u8, u8, u8, u8, u8, u8, u8, u8)>(
            alloc, row,
        ),
        _ => mixed(alloc, name, row),
    }
}

// Tuples and rows of members of different types.
fn mixed(alloc: Global, name: &str, row: &RowBytes) -> Result<String, AllocError> {
    match name {
        "(u8, (String, u8))" => read_as::<(u8, (String, u8))>(alloc, row),
        "(ObjectIdentifierAsn1, ())" => read_as::<(ObjectIdentifierAsn1, ())>(alloc, row),
        "Row<()>" => read_as::<Row<()>>(alloc, row),
        "Row<(u8, ())>" => read_as::<Row<(u8, ())>>(alloc, row),
        "Row<(u8, (u8, ()))>" => read_as::<Row<(u8, (u8, ()))>>(alloc, row),
        "Row<(u8, (bool, ()))>" => read_as::<Row<(u8, (bool, ()))>>(alloc, row),
        "Row<(u8, (bool, ((), ((u8,), ()))))>" => read_as::<Row<(u8, (bool, ((), ((u8,), ()))))>>(
            alloc, row,
        ),
        _ => wrappers::answer(alloc, name, row),
    }
}
