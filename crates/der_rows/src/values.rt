//! Values that can't be read from what they are written as, and values that can't be written.

use crate::answers::{Writing, written};
use crate::hand_written::{Discarding, Littering, Untouched};
use crate::implicit_list;
use der_examples::NumberOrFlag;
use der_tool_lib::{AlgorithmIdentifier, SubjectPublicKeyInfo, TestStruct};
use picky_asn1_der::Asn1RawDer;
use picky_asn1_der::application_tag::ApplicationTag;
use picky_asn1_der::asn1::{
    Asn1SetOf, ByteBuf, ExplicitContextTag, ExplicitContextTag0, ImplicitContextTag,
    ImplicitContextTag1, TaggedBytes,
};
use std::alloc::{AllocError, Global};

/// The result of a row that names one of these values, which is written in this way. A value that allocates is made in
/// a function of its own.
pub(crate) fn answer(alloc: Global, how: Writing, name: &str) -> Result<String, AllocError> {
    match name {
        "None::<u8>" => written(alloc, how, &None::<u8>),
        "\"\"" => written(alloc, how, &""),
        "[5u8, 6].as_slice()" => written(alloc, how, &[5u8, 6].as_slice()),
        "vec![None::<u8>]" => absent_member(alloc, how),
        _ => hand_written(alloc, how, name),
    }
}

fn absent_member(alloc: Global, how: Writing) -> Result<String, AllocError> {
    written(alloc, how, &vec![in alloc; None::<u8>]?)
}

// Values that are written by calls of their own.
fn hand_written(alloc: Global, how: Writing, name: &str) -> Result<String, AllocError> {
    match name {
        "ImplicitContextTag1(Untouched)" => written(
            alloc,
            how,
            &ImplicitContextTag1::from(Untouched),
        ),
        "[Untouched]" => written(alloc, how, &[Untouched]),
        "Littering" => written(alloc, how, &Littering),
        "vec![Littering]" => littering(alloc, how),
        "(Discarding, 7u8)" => written(alloc, how, &(Discarding, 7u8)),
        _ => bytes(alloc, how, name),
    }
}

// Bytes that are written unchanged, and values with such bytes.
fn bytes(alloc: Global, how: Writing, name: &str) -> Result<String, AllocError> {
    match name {
        "TaggedBytes::<0x1F>([0xAA])" => tagged_bytes(alloc, how),
        "[Asn1RawDer([2, 1, 5, 2, 1, 6])]" => two_elements(alloc, how),
        "TestStruct { number: 7, vec: ByteBuf(b\"Testolope\"), tuple: (4, ()) }" => testolope(
            alloc, how,
        ),
        "SubjectPublicKeyInfo { algorithm: AlgorithmIdentifier { algorithm: [42], parameters: None }, subject_public_key: [0, 7] }" =>
            public_key(alloc, how),
        "AlgorithmIdentifier { algorithm: [42], parameters: Some([5, 0, 5, 0]) }" =>
            with_parameters(alloc, how, &[5, 0, 5, 0]),
        "AlgorithmIdentifier { algorithm: [42], parameters: Some([]) }" => with_parameters(
            alloc,
            how,
            &[],
        ),
        _ => set(alloc, how, name),
    }
}

fn littering(alloc: Global, how: Writing) -> Result<String, AllocError> {
    written(alloc, how, &vec![in alloc; Littering]?)
}

fn tagged_bytes(alloc: Global, how: Writing) -> Result<String, AllocError> {
    let bytes = Vec::from_slice(alloc, &[0xAA])?;
    written(alloc, how, &TaggedBytes::<0x1F>(bytes))
}

fn two_elements(alloc: Global, how: Writing) -> Result<String, AllocError> {
    let bytes = Vec::from_slice(alloc, &[2, 1, 5, 2, 1, 6])?;
    written(alloc, how, &[Asn1RawDer(bytes)])
}

fn testolope(alloc: Global, how: Writing) -> Result<String, AllocError> {
    let value = TestStruct {
        number: 7,
        vec: ByteBuf(Vec::from_slice(alloc, b"Testolope")?),
        tuple: (4, ()),
    };
    written(alloc, how, &value)
}

fn public_key(alloc: Global, how: Writing) -> Result<String, AllocError> {
    let key = SubjectPublicKeyInfo {
        algorithm: identifier(alloc, None)?,
        subject_public_key: TaggedBytes(Vec::from_slice(alloc, &[0, 7])?),
    };
    written(alloc, how, &key)
}

fn with_parameters(alloc: Global, how: Writing, parameters: &[u8]) -> Result<String, AllocError> {
    let parameters = Asn1RawDer(Vec::from_slice(alloc, parameters)?);
    written(alloc, how, &identifier(alloc, Some(parameters))?)
}

fn identifier(
    alloc: Global,
    parameters: Option<Asn1RawDer>,
) -> Result<AlgorithmIdentifier, AllocError> {
    Ok(AlgorithmIdentifier {
        algorithm: TaggedBytes(Vec::from_slice(alloc, &[42])?),
        parameters,
    })
}

// Sets whose members aren't given in the order in which they are written.
fn set(alloc: Global, how: Writing, name: &str) -> Result<String, AllocError> {
    match name {
        "Asn1SetOf([256u16, 5, 5])" => numbers(alloc, how),
        "Asn1SetOf([ByteBuf([0, 0]), ByteBuf([0xFF])])" => octets(alloc, how),
        "Asn1SetOf([Asn1RawDer([2, 1, 5, 5, 0]), Asn1RawDer([2, 1, 5])])" => raw_set(alloc, how),
        "Asn1SetOf([5u8, 3])" => written(alloc, how, &five_and_three(alloc)?),
        "Asn1SetOf([Asn1SetOf([2u8, 1]), Asn1SetOf([1u8])])" => written(alloc, how, &sets(alloc)?),
        "Asn1SetOf([ExplicitContextTag0(Asn1SetOf([2u8, 1])), ExplicitContextTag0(Asn1SetOf([1u8]))])" =>
            { tagged_sets(alloc, how) }
        "ImplicitContextTag1(Asn1SetOf([Asn1SetOf([2u8, 1]), Asn1SetOf([1u8])]))" => {
            written(alloc, how, &ImplicitContextTag1::from(sets(alloc)?))
        }
        "Asn1SetOf([Some(7u8), None, Some(5)])" => options(alloc, how),
        "(Asn1SetOf([5u8, 3]), 1u8)" => set_and_number(alloc, how),
        "ImplicitContextTag1(Asn1SetOf([5u8, 3]))" => tagged_set(alloc, how),
        _ => explicit(alloc, how, name),
    }
}

fn numbers(alloc: Global, how: Writing) -> Result<String, AllocError> {
    let numbers = Vec::from_slice(alloc, &[256u16, 5, 5])?;
    written(alloc, how, &Asn1SetOf(numbers))
}

fn octets(alloc: Global, how: Writing) -> Result<String, AllocError> {
    let zeros = ByteBuf(Vec::from_slice(alloc, &[0, 0])?);
    let one = ByteBuf(Vec::from_slice(alloc, &[0xFF])?);
    written(alloc, how, &Asn1SetOf(vec![in alloc; zeros, one]?))
}

fn raw_set(alloc: Global, how: Writing) -> Result<String, AllocError> {
    let longer = Asn1RawDer(Vec::from_slice(alloc, &[2, 1, 5, 5, 0])?);
    let shorter = Asn1RawDer(Vec::from_slice(alloc, &[2, 1, 5])?);
    written(alloc, how, &Asn1SetOf(vec![in alloc; longer, shorter]?))
}

fn five_and_three(alloc: Global) -> Result<Asn1SetOf<u8>, AllocError> {
    Ok(Asn1SetOf(Vec::from_slice(alloc, &[5, 3])?))
}

fn sets(alloc: Global) -> Result<Asn1SetOf<Asn1SetOf<u8>>, AllocError> {
    let two = Asn1SetOf(Vec::from_slice(alloc, &[2, 1])?);
    let one = Asn1SetOf(Vec::from_slice(alloc, &[1])?);
    Ok(Asn1SetOf(vec![in alloc; two, one]?))
}

fn tagged_sets(alloc: Global, how: Writing) -> Result<String, AllocError> {
    let two = ExplicitContextTag0::from(Asn1SetOf(Vec::from_slice(alloc, &[2u8, 1])?));
    let one = ExplicitContextTag0::from(Asn1SetOf(Vec::from_slice(alloc, &[1u8])?));
    written(alloc, how, &Asn1SetOf(vec![in alloc; two, one]?))
}

fn options(alloc: Global, how: Writing) -> Result<String, AllocError> {
    let numbers = vec![in alloc; Some(7u8), None, Some(5)]?;
    written(alloc, how, &Asn1SetOf(numbers))
}

fn set_and_number(alloc: Global, how: Writing) -> Result<String, AllocError> {
    written(alloc, how, &(five_and_three(alloc)?, 1u8))
}

fn tagged_set(alloc: Global, how: Writing) -> Result<String, AllocError> {
    written(
        alloc,
        how,
        &ImplicitContextTag1::from(five_and_three(alloc)?),
    )
}

// Values in explicit context tags.
fn explicit(alloc: Global, how: Writing, name: &str) -> Result<String, AllocError> {
    match name {
        "ExplicitContextTag0(None::<u8>)" => written(
            alloc,
            how,
            &ExplicitContextTag0::from(None::<u8>),
        ),
        "(ExplicitContextTag0(None::<u8>), 7u8)" => written(
            alloc,
            how,
            &(ExplicitContextTag0::from(None::<u8>), 7u8),
        ),
        "ExplicitContextTag::<u8, 31>(7)" => written(alloc, how, &ExplicitContextTag::<u8, 31>(7)),
        "ExplicitContextTag::<Option<u8>, 31>(None)" => written(
            alloc,
            how,
            &ExplicitContextTag::<Option<u8>, 31>(None),
        ),
        _ => implicit(alloc, how, name),
    }
}

// Values in implicit context tags.
fn implicit(alloc: Global, how: Writing, name: &str) -> Result<String, AllocError> {
    match name {
        "ImplicitContextTag1(NumberOrFlag::Flag(true))" => written(
            alloc,
            how,
            &ImplicitContextTag1::from(NumberOrFlag::Flag(true)),
        ),
        "ImplicitContextTag::<u8, 31>(7)" => written(alloc, how, &ImplicitContextTag::<u8, 31>(7)),
        "ImplicitContextTag::<Option<u8>, 31>(None)" => written(
            alloc,
            how,
            &ImplicitContextTag::<Option<u8>, 31>(None),
        ),
        _ => application(alloc, how, name),
    }
}

// Values in application tags.
fn application(alloc: Global, how: Writing, name: &str) -> Result<String, AllocError> {
    match name {
        "ApplicationTag::<Option<u8>, 10>(None)" => written(
            alloc,
            how,
            &ApplicationTag::<Option<u8>, 10>(None),
        ),
        "ApplicationTag::<u8, 31>(7)" => written(alloc, how, &ApplicationTag::<u8, 31>(7)),
        "(7u8, ApplicationTag::<u8, 31>(7))" => written(
            alloc,
            how,
            &(7u8, ApplicationTag::<u8, 31>(7)),
        ),
        _ => implicit_list::written_value(alloc, how, name),
    }
}
