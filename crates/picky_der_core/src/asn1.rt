//! The types of ASN.1: identifier bytes and the wrappers of values.

mod byte_buf;
mod bytes;
mod collections;
mod containers;
mod context_tags;
mod implicit_list;
mod newtype;
mod tag;
mod tagged_bytes;
mod wrapper;

pub use byte_buf::ByteBuf;
pub use bytes::Bytes;
pub use collections::{Asn1SequenceOf, Asn1SetOf};
pub use containers::{BitStringAsn1Container, OctetStringAsn1Container};
pub use context_tags::{
    ExplicitContextTag, ExplicitContextTag0, ExplicitContextTag1, ExplicitContextTag2,
    ExplicitContextTag3, ExplicitContextTag4, ExplicitContextTag5, ExplicitContextTag6,
    ExplicitContextTag7, ExplicitContextTag8, ExplicitContextTag9, ExplicitContextTag10,
    ExplicitContextTag11, ExplicitContextTag12, ExplicitContextTag13, ExplicitContextTag14,
    ExplicitContextTag15, ImplicitContextTag, ImplicitContextTag0, ImplicitContextTag1,
    ImplicitContextTag2, ImplicitContextTag3, ImplicitContextTag4, ImplicitContextTag5,
    ImplicitContextTag6, ImplicitContextTag7, ImplicitContextTag8, ImplicitContextTag9,
    ImplicitContextTag10, ImplicitContextTag11, ImplicitContextTag12, ImplicitContextTag13,
    ImplicitContextTag14, ImplicitContextTag15,
};
pub use implicit_list::{
    ImplicitList, ImplicitList0, ImplicitList1, ImplicitList2, ImplicitList3, ImplicitList4,
    ImplicitList5, ImplicitList6, ImplicitList7, SetOfAsGiven,
};
pub use newtype::Newtype;
pub use tag::{Tag, TagClass};
pub use tagged_bytes::{
    BitStringAsn1, BmpStringAsn1, GeneralStringAsn1, GeneralizedTimeAsn1, Ia5StringAsn1,
    IntegerAsn1, NumericStringAsn1, ObjectIdentifierAsn1, PrintableStringAsn1, TaggedBytes,
    UtcTimeAsn1, Utf8StringAsn1,
};
pub use wrapper::Wrapper;
