//! Lists under tags instead of their own.

use crate::answers::{RowBytes, Writing, read_as, read_copied, written};
use crate::generated::widths;
use der_examples::{Attribute, CertificationRequestInfo, SignedData};
use der_x509::AlgorithmIdentifier;
use picky_asn1_der::asn1::{
    Asn1SetOf, ExplicitContextTag0, ImplicitContextTag0, ImplicitList, ImplicitList0,
    ImplicitList1, ImplicitList2, ImplicitList3, ImplicitList4, ObjectIdentifierAsn1,
};
use std::alloc::{AllocError, Global};

/// The result of a row that names one of these types.
pub(crate) fn answer(alloc: Global, name: &str, row: &RowBytes) -> Result<String, AllocError> {
    match name {
        "ImplicitList0<Asn1SetOf<u8>>" => read_copied::<ImplicitList0<Asn1SetOf<u8>>>(alloc, row),
        "ImplicitList1<Vec<u8>>" => read_copied::<ImplicitList1<Vec<u8>>>(alloc, row),
        "ImplicitList2<(u8, bool)>" => read_copied::<ImplicitList2<(u8, bool)>>(alloc, row),
        "ImplicitList3<[u8; 2]>" => read_copied::<ImplicitList3<[u8; 2]>>(alloc, row),
        "ImplicitList4<AlgorithmIdentifier>" => read_as::<ImplicitList4<AlgorithmIdentifier>>(
            alloc, row,
        ),
        "ImplicitList<Vec<u8>, 0x31>" => read_copied::<ImplicitList<Vec<u8>, 0x31>>(alloc, row),
        "ImplicitList<Vec<u8>, 0x60>" => read_copied::<ImplicitList<Vec<u8>, 0x60>>(alloc, row),
        "ImplicitList<Vec<u8>, 0x80>" => read_copied::<ImplicitList<Vec<u8>, 0x80>>(alloc, row),
        "ImplicitList<Vec<u8>, 0xBE>" => read_copied::<ImplicitList<Vec<u8>, 0xBE>>(alloc, row),
        "ImplicitList<Vec<u8>, 0xBF>" => read_copied::<ImplicitList<Vec<u8>, 0xBF>>(alloc, row),
        _ => answer_inside(alloc, name, row),
    }
}

// The same for types that contain such lists.
fn answer_inside(alloc: Global, name: &str, row: &RowBytes) -> Result<String, AllocError> {
    match name {
        "(ImplicitList0<Asn1SetOf<u8>>, ImplicitList1<Vec<u8>>)" => read_as::<
            (ImplicitList0<Asn1SetOf<u8>>, ImplicitList1<Vec<u8>>),
        >(alloc, row),
        "ExplicitContextTag0<ImplicitList1<Vec<u8>>>" => read_copied::<
            ExplicitContextTag0<ImplicitList1<Vec<u8>>>,
        >(alloc, row),
        "ImplicitContextTag0<ImplicitList1<Vec<u8>>>" => read_copied::<
            ImplicitContextTag0<ImplicitList1<Vec<u8>>>,
        >(alloc, row),
        "ImplicitList0<Asn1SetOf<Attribute>>" => read_as::<ImplicitList0<Asn1SetOf<Attribute>>>(
            alloc, row,
        ),
        "CertificationRequestInfo" => read_as::<CertificationRequestInfo>(alloc, row),
        "(ObjectIdentifierAsn1, ExplicitContextTag0<SignedData>)" => read_as::<
            (ObjectIdentifierAsn1, ExplicitContextTag0<SignedData>),
        >(alloc, row),
        _ => widths::answer(alloc, name, row),
    }
}

/// The result of a row that names one of these values.
pub(crate) fn written_value(alloc: Global, how: Writing, name: &str) -> Result<String, AllocError> {
    match name {
        "ImplicitList0(Asn1SetOf([5u8, 3]))" => set(alloc, how),
        "ImplicitList::<[u8; 1], 0x80>([7])" => written(
            alloc,
            how,
            &ImplicitList::<[u8; 1], 0x80>([7]),
        ),
        "ImplicitList::<[u8; 1], 0xBF>([7])" => written(
            alloc,
            how,
            &ImplicitList::<[u8; 1], 0xBF>([7]),
        ),
        "(7u8, ImplicitList::<[u8; 1], 0x80>([7]))" => written(
            alloc,
            how,
            &(7u8, ImplicitList::<[u8; 1], 0x80>([7])),
        ),
        _ => widths::written_value(alloc, how, name),
    }
}

fn set(alloc: Global, how: Writing) -> Result<String, AllocError> {
    let members = vec![in alloc; 5u8, 3]?;
    written(alloc, how, &ImplicitList0::from(Asn1SetOf(members)))
}
