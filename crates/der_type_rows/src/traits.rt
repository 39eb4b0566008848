//! Which traits the types of the library have: a generic function for each trait, and for each family of types a
//! function that calls them for all of its types. Eight types may be named as one tuple, which has what all of them
//! have.

mod algorithms;
mod cms;
mod kerberos;
mod pkcs12;
mod pkix;
mod status;
mod versions;
mod x509;

use der_types::{
    Asn1Set, AtLeast, AtMost, BitString, BmpString, DateTime, Encoded, Enumerated, GeneralString,
    GeneralizedTime, GraphicString, Ia5String, ImplicitPrimitive, ImplicitSet, InRange, Integer,
    LaterTime, Minus, NamedBits, NumericString, ObjectDescriptor, ObjectIdentifier, OidError,
    OtherThan, Outside, Plus, PrintableString, RelativeOid, TeletexString, Time, TimeError,
    UniversalString, UtcTime, VideotexString, VisibleString, Width, WithSize,
};
use picky_asn1_der::application_tag::ApplicationTag;
use picky_asn1_der::asn1::{
    Asn1SequenceOf, Asn1SetOf, BitStringAsn1Container, ByteBuf, ExplicitContextTag,
    ImplicitContextTag, ImplicitList, OctetStringAsn1Container, Tag, TaggedBytes,
};
use picky_asn1_der::{Asn1DerError, Asn1RawDer};
use std::alloc::{AllocError, Global};
use std::fmt::{Debug, Display};
use std::hash::Hash;

fn has_clone<T: Clone>() {}

fn has_equality<T: Eq>() {}

fn has_order<T: Ord>() {}

fn has_hash<T: Hash>() {}

fn has_debug<T: Debug>() {}

fn has_display<T: Display>() {}

// What every type of values of the library has.
fn has_all<T: Clone + Ord + Hash + Debug>() {
    has_clone::<T>();
    has_equality::<T>();
    has_order::<T>();
    has_hash::<T>();
    has_debug::<T>();
}

fn has_all_and_text<T: Clone + Ord + Hash + Debug + Display>() {
    has_all::<T>();
    has_display::<T>();
}

// What every type has that a module of ASN.1 is compiled to.
fn has_most<T: Clone + PartialEq + Debug>() {
    has_clone::<T>();
    has_debug::<T>();
}

/// Names all of them, and returns `named`.
pub(crate) fn all(alloc: Global) -> Result<String, AllocError> {
    contents();
    strings();
    constraints();
    around();
    errors();
    plain();
    of_modules();
    String::from_str(alloc, "named")
}

// Types whose contents are checked.
fn contents() {
    has_all_and_text::<Integer>();
    has_all_and_text::<Enumerated>();
    has_all_and_text::<ObjectIdentifier>();
    has_all_and_text::<RelativeOid>();
    has_all_and_text::<BitString>();
    has_all_and_text::<NamedBits>();
    has_all_and_text::<GeneralizedTime>();
    has_all_and_text::<UtcTime>();
    has_all_and_text::<LaterTime>();
    has_all_and_text::<Time>();
    has_all_and_text::<DateTime>();
}

// Character strings. The characters of the last four kinds aren't known, so they have no text.
fn strings() {
    has_all_and_text::<NumericString>();
    has_all_and_text::<PrintableString>();
    has_all_and_text::<Ia5String>();
    has_all_and_text::<VisibleString>();
    has_all_and_text::<UniversalString>();
    has_all_and_text::<BmpString>();
    has_all::<TeletexString>();
    has_all::<VideotexString>();
    has_all::<GraphicString>();
    has_all::<GeneralString>();
    has_all::<ObjectDescriptor>();
}

// Values within bounds.
fn constraints() {
    has_all_and_text::<WithSize<PrintableString, 1, 3>>();
    has_all_and_text::<InRange<Integer, 1, 200>>();
    has_all_and_text::<OtherThan<Integer, 0>>();
    has_all_and_text::<AtLeast<Integer, Minus<1>>>();
    has_all_and_text::<AtMost<Integer, Plus<1>>>();
    has_all_and_text::<Outside<Integer, Minus<1>, Plus<1>>>();
}

// Types around others, which have what the others have.
fn around() {
    has_all::<ImplicitPrimitive<Integer, 0x80>>();
    has_all::<Asn1Set<Integer>>();
    has_all::<ImplicitSet<Integer, 0xA0>>();
    has_clone::<Encoded<Integer>>();
    has_order::<Encoded<Integer>>();
    has_debug::<Encoded<Integer>>();
}

// Errors, and what they are about.
fn errors() {
    has_all_and_text::<OidError>();
    has_all_and_text::<TimeError>();
    has_all::<Width>();
    has_display::<Asn1DerError>();
}

// Types of `picky_asn1_der`.
fn plain() {
    has_all::<ByteBuf>();
    has_all::<TaggedBytes<0x41>>();
    has_all::<Asn1SequenceOf<bool>>();
    has_all::<Asn1SetOf<bool>>();
    has_all::<OctetStringAsn1Container<bool>>();
    has_all::<BitStringAsn1Container<bool>>();
    has_all::<ExplicitContextTag<bool, 0>>();
    has_all::<ImplicitContextTag<bool, 0>>();
    has_all::<ImplicitList<Vec<bool>, 0xA0>>();
    has_all::<ApplicationTag<bool, 1>>();
    has_all::<Asn1RawDer>();
    has_clone::<Asn1DerError>();
    has_equality::<Asn1DerError>();
    has_debug::<Asn1DerError>();
    has_all::<Tag>();
}

// Types of modules of ASN.1.
fn of_modules() {
    x509::all();
    cms::all();
    kerberos::all();
    pkix::all();
    status::all();
    algorithms::all();
    pkcs12::all();
    versions::all();
}
