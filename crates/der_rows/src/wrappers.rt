//! Containers, tags and application tags around other types.

use crate::answers::{RowBytes, read_as, read_copied};
use crate::numbered_tags;
use der_examples::NumberOrFlag;
use picky_asn1_der::Asn1RawDer;
use picky_asn1_der::application_tag::ApplicationTag;
use picky_asn1_der::asn1::{
    Asn1SetOf, BitStringAsn1Container, ByteBuf, ExplicitContextTag, ExplicitContextTag0,
    ExplicitContextTag1, ImplicitContextTag, ImplicitContextTag0, ImplicitContextTag1,
    OctetStringAsn1Container, Utf8StringAsn1,
};
use std::alloc::{AllocError, Global};

/// The result of a row that names one of these types. Other rows go to the next family.
pub(crate) fn answer(alloc: Global, name: &str, row: &RowBytes) -> Result<String, AllocError> {
    match name {
        "OctetStringAsn1Container<u8>" => read_copied::<OctetStringAsn1Container<u8>>(alloc, row),
        "OctetStringAsn1Container<(u8,)>" => read_copied::<OctetStringAsn1Container<(u8,)>>(
            alloc, row,
        ),
        "BitStringAsn1Container<u8>" => read_copied::<BitStringAsn1Container<u8>>(alloc, row),
        "BitStringAsn1Container<ByteBuf>" => read_copied::<BitStringAsn1Container<ByteBuf>>(
            alloc, row,
        ),
        _ => under_explicit_tag(alloc, name, row),
    }
}

fn under_explicit_tag(alloc: Global, name: &str, row: &RowBytes) -> Result<String, AllocError> {
    match name {
        "ExplicitContextTag0<BitStringAsn1Container<ByteBuf>>" => read_copied::<
            ExplicitContextTag0<BitStringAsn1Container<ByteBuf>>,
        >(alloc, row),
        "ExplicitContextTag0<BitStringAsn1Container<u8>>" => read_copied::<
            ExplicitContextTag0<BitStringAsn1Container<u8>>,
        >(alloc, row),
        "ExplicitContextTag0<ByteBuf>" => read_copied::<ExplicitContextTag0<ByteBuf>>(alloc, row),
        "ExplicitContextTag0<Asn1RawDer>" => read_copied::<ExplicitContextTag0<Asn1RawDer>>(
            alloc, row,
        ),
        "ExplicitContextTag0<(u8,)>" => read_copied::<ExplicitContextTag0<(u8,)>>(alloc, row),
        "ExplicitContextTag0<Vec<u8>>" => read_copied::<ExplicitContextTag0<Vec<u8>>>(alloc, row),
        "(ExplicitContextTag0<u8>,)" => read_as::<(ExplicitContextTag0<u8>,)>(alloc, row),
        "(ExplicitContextTag0<Option<u8>>, u8)" => read_as::<(ExplicitContextTag0<Option<u8>>, u8)>(
            alloc, row,
        ),
        "ExplicitContextTag<Option<u8>, 31>" => read_copied::<ExplicitContextTag<Option<u8>, 31>>(
            alloc, row,
        ),
        _ => under_implicit_tag(alloc, name, row),
    }
}

fn under_implicit_tag(alloc: Global, name: &str, row: &RowBytes) -> Result<String, AllocError> {
    match name {
        "ImplicitContextTag<Option<u8>, 31>" => read_copied::<ImplicitContextTag<Option<u8>, 31>>(
            alloc, row,
        ),
        "ImplicitContextTag1<Option<u8>>" => read_copied::<ImplicitContextTag1<Option<u8>>>(
            alloc, row,
        ),
        "ImplicitContextTag1<(u8,)>" => read_copied::<ImplicitContextTag1<(u8,)>>(alloc, row),
        "ImplicitContextTag1<OctetStringAsn1Container<u8>>" => read_copied::<
            ImplicitContextTag1<OctetStringAsn1Container<u8>>,
        >(alloc, row),
        "ImplicitContextTag1<Asn1SetOf<u8>>" => read_copied::<ImplicitContextTag1<Asn1SetOf<u8>>>(
            alloc, row,
        ),
        "ImplicitContextTag1<Asn1SetOf<Asn1SetOf<u8>>>" => read_copied::<
            ImplicitContextTag1<Asn1SetOf<Asn1SetOf<u8>>>,
        >(alloc, row),
        "ImplicitContextTag1<Asn1RawDer>" => read_copied::<ImplicitContextTag1<Asn1RawDer>>(
            alloc, row,
        ),
        "ImplicitContextTag1<NumberOrFlag>" => read_as::<ImplicitContextTag1<NumberOrFlag>>(
            alloc, row,
        ),
        "ImplicitContextTag0<ImplicitContextTag1<u8>>" => read_copied::<
            ImplicitContextTag0<ImplicitContextTag1<u8>>,
        >(alloc, row),
        "ImplicitContextTag0<ExplicitContextTag1<u8>>" => read_copied::<
            ImplicitContextTag0<ExplicitContextTag1<u8>>,
        >(alloc, row),
        "ImplicitContextTag1<ApplicationTag<u8, 10>>" => read_copied::<
            ImplicitContextTag1<ApplicationTag<u8, 10>>,
        >(alloc, row),
        _ => under_application_tag(alloc, name, row),
    }
}

fn under_application_tag(alloc: Global, name: &str, row: &RowBytes) -> Result<String, AllocError> {
    match name {
        "ApplicationTag<u8, 10>" => read_copied::<ApplicationTag<u8, 10>>(alloc, row),
        "ApplicationTag<u8, 30>" => read_copied::<ApplicationTag<u8, 30>>(alloc, row),
        "ApplicationTag<u8, 31>" => read_copied::<ApplicationTag<u8, 31>>(alloc, row),
        "ApplicationTag<Option<u8>, 10>" => read_copied::<ApplicationTag<Option<u8>, 10>>(
            alloc, row,
        ),
        "ApplicationTag<Utf8StringAsn1, 10>" => read_copied::<ApplicationTag<Utf8StringAsn1, 10>>(
            alloc, row,
        ),
        "ApplicationTag<Utf8StringAsn1, 11>" => read_copied::<ApplicationTag<Utf8StringAsn1, 11>>(
            alloc, row,
        ),
        _ => numbered_tags::answer(alloc, name, row),
    }
}
