//! Values that have a `clone` of their own.

use crate::growths::{Stop, is};
use crate::reads::by_from_bytes;
use der_elements::AnyElement;
use picky_asn1_der::Asn1DerError::OutOfMemory;
use picky_asn1_der::application_tag::ApplicationTag;
use picky_asn1_der::asn1::{
    Asn1SequenceOf, Asn1SetOf, BitStringAsn1Container, ByteBuf, ExplicitContextTag,
    ExplicitContextTag0, ImplicitContextTag, ImplicitContextTag1, ImplicitList, ImplicitList1,
    OctetStringAsn1Container, TaggedBytes,
};
use picky_asn1_der::{Asn1RawDer, Deserialize, List, Result as DerResult};
use std::alloc::Global;
use std::fmt::Debug;

/// A type of the library with a `clone` of its own.
pub(crate) trait Copied: Deserialize {
    /// Calls that `clone`.
    fn copied(&self) -> DerResult<Self>;
}

impl Copied for ByteBuf {
    fn copied(&self) -> DerResult<ByteBuf> {
        self.clone()
    }
}

impl<const TAG: u8> Copied for TaggedBytes<TAG> {
    fn copied(&self) -> DerResult<TaggedBytes<TAG>> {
        self.clone()
    }
}

impl Copied for Asn1RawDer {
    fn copied(&self) -> DerResult<Asn1RawDer> {
        self.clone()
    }
}

impl Copied for AnyElement {
    fn copied(&self) -> DerResult<AnyElement> {
        match self.clone() {
            Ok(copy) => Ok(copy),
            Err(_) => Err(OutOfMemory),
        }
    }
}

impl<T: Deserialize + Clone> Copied for Asn1SequenceOf<T> {
    fn copied(&self) -> DerResult<Asn1SequenceOf<T>> {
        self.clone()
    }
}

impl<T: Deserialize + Clone> Copied for Asn1SetOf<T> {
    fn copied(&self) -> DerResult<Asn1SetOf<T>> {
        self.clone()
    }
}

impl<T: Deserialize + Clone> Copied for OctetStringAsn1Container<T> {
    fn copied(&self) -> DerResult<OctetStringAsn1Container<T>> {
        self.clone()
    }
}

impl<T: Deserialize + Clone> Copied for BitStringAsn1Container<T> {
    fn copied(&self) -> DerResult<BitStringAsn1Container<T>> {
        self.clone()
    }
}

impl<T: Deserialize + Clone, const N: u8> Copied for ExplicitContextTag<T, N> {
    fn copied(&self) -> DerResult<ExplicitContextTag<T, N>> {
        self.clone()
    }
}

impl<T: Deserialize + Clone, const N: u8> Copied for ImplicitContextTag<T, N> {
    fn copied(&self) -> DerResult<ImplicitContextTag<T, N>> {
        self.clone()
    }
}

impl<T: Deserialize + Debug + Clone, const N: u8> Copied for ApplicationTag<T, N> {
    fn copied(&self) -> DerResult<ApplicationTag<T, N>> {
        self.clone()
    }
}

impl<T: List + Deserialize + Clone, const TAG: u8> Copied for ImplicitList<T, TAG> {
    fn copied(&self) -> DerResult<ImplicitList<T, TAG>> {
        self.clone()
    }
}

/// Whether the copy of the value is equal to the value that the bytes encode. Bytes that are refused have none.
pub(crate) fn is_copied<T: Copied>(alloc: Global, bytes: &[u8]) -> bool {
    match by_from_bytes::<T>(alloc, bytes) {
        Ok(value) => value.copied() == Ok(value),
        Err(_) => true,
    }
}

/// The same for the type with this name, where allocations may fail.
pub(crate) fn copy(alloc: Global, name: &str, bytes: &[u8]) -> Result<(), Stop> {
    match name {
        "ByteBuf" => copy_as::<ByteBuf>(alloc, bytes),
        "TaggedBytes<0x9E>" => copy_as::<TaggedBytes<0x9E>>(alloc, bytes),
        "Asn1RawDer" => copy_as::<Asn1RawDer>(alloc, bytes),
        "AnyElement" => copy_as::<AnyElement>(alloc, bytes),
        "Asn1SequenceOf<ByteBuf>" => copy_as::<Asn1SequenceOf<ByteBuf>>(alloc, bytes),
        "Asn1SetOf<ByteBuf>" => copy_as::<Asn1SetOf<ByteBuf>>(alloc, bytes),
        "Asn1SetOf<Asn1SetOf<ByteBuf>>" => copy_as::<Asn1SetOf<Asn1SetOf<ByteBuf>>>(alloc, bytes),
        "ImplicitList1<Asn1SetOf<ByteBuf>>" => {
            copy_as::<ImplicitList1<Asn1SetOf<ByteBuf>>>(alloc, bytes)
        }
        _ => copy_wrapped(alloc, name, bytes),
    }
}

// The same for a type in a container or under a tag.
fn copy_wrapped(alloc: Global, name: &str, bytes: &[u8]) -> Result<(), Stop> {
    match name {
        "ExplicitContextTag0<ByteBuf>" => copy_as::<ExplicitContextTag0<ByteBuf>>(alloc, bytes),
        "ImplicitContextTag1<ByteBuf>" => copy_as::<ImplicitContextTag1<ByteBuf>>(alloc, bytes),
        "ApplicationTag<ByteBuf, 10>" => copy_as::<ApplicationTag<ByteBuf, 10>>(alloc, bytes),
        "OctetStringAsn1Container<ByteBuf>" => {
            copy_as::<OctetStringAsn1Container<ByteBuf>>(alloc, bytes)
        }
        "BitStringAsn1Container<ByteBuf>" => {
            copy_as::<BitStringAsn1Container<ByteBuf>>(alloc, bytes)
        }
        "ExplicitContextTag0<OctetStringAsn1Container<ByteBuf>>" => {
            copy_as::<ExplicitContextTag0<OctetStringAsn1Container<ByteBuf>>>(alloc, bytes)
        }
        "ExplicitContextTag0<Asn1SequenceOf<ByteBuf>>" => {
            copy_as::<ExplicitContextTag0<Asn1SequenceOf<ByteBuf>>>(alloc, bytes)
        }
        _ => Err(Stop::Wrong("type")),
    }
}

fn copy_as<T: Copied>(alloc: Global, bytes: &[u8]) -> Result<(), Stop> {
    match by_from_bytes::<T>(alloc, bytes) {
        Ok(value) => is("clone", value.copied(), &value),
        Err(OutOfMemory) => Err(Stop::Refused("from_bytes")),
        Err(_) => Err(Stop::Wrong("from_bytes")),
    }
}
