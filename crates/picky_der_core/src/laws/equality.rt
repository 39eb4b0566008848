//! When two values of a type of this crate are equal by `==`: each law is the contract of a function that does nothing.
//!
//! Reading gives a value that is equal by `==`, so these laws say how much is known of it.
ghost use Rattle.std.specs.Cmp.Lexicographic.{pointwise};
ghost use Rattle.picky_der_core.specs.Equality.{IsEqualityOf, IsThatOf, comparison_of};

use crate::asn1::{
    Asn1SequenceOf, Asn1SetOf, BitStringAsn1Container, ByteBuf, Bytes, ExplicitContextTag,
    ImplicitContextTag, ImplicitList, Newtype, OctetStringAsn1Container, Tag, TagClass,
    TaggedBytes, Wrapper,
};
use crate::{Asn1DerError, Failure, SignedBits};

/// Octet strings, and bytes under one tag, are equal exactly if their bytes are the same.
pub fn bytes<const TAG: u8>()
    ensures byte_buf { IsEqualityOf ⟦<ByteBuf as PartialEq>⟧.eq (λ octets. octets.0.items) }
    ensures bytes { IsEqualityOf ⟦<Bytes<'static> as PartialEq>⟧.eq (λ octets. octets.0.now) }
    ensures tagged { IsEqualityOf ⟦<TaggedBytes<TAG> as PartialEq>⟧.eq (λ tagged. tagged.0.items) }
{}

/// Lists are equal exactly if they have the same length and the two values at each index are equal.
pub fn lists<T: PartialEq>()
    ensures sequence { IsThatOf ⟦<Asn1SequenceOf<T> as PartialEq>⟧.eq (λ list. list.0.items)
        (pointwise T.eq) }
    ensures set { IsThatOf ⟦<Asn1SetOf<T> as PartialEq>⟧.eq (λ list. list.0.items)
        (pointwise T.eq) }
{}

/// Two values in one wrapper are equal exactly if they are equal without it.
pub fn wrappers<T: PartialEq, const N: u8, const TAG: u8>()
    ensures octets { IsThatOf ⟦<OctetStringAsn1Container<T> as PartialEq>⟧.eq
        (λ held. held.0) T.eq }
    ensures bits { IsThatOf ⟦<BitStringAsn1Container<T> as PartialEq>⟧.eq (λ held. held.0) T.eq }
    ensures explicit { IsThatOf ⟦<ExplicitContextTag<T, N> as PartialEq>⟧.eq (λ held. held.0) T.eq }
    ensures implicit { IsThatOf ⟦<ImplicitContextTag<T, N> as PartialEq>⟧.eq (λ held. held.0) T.eq }
    ensures implicit_list { IsThatOf ⟦<ImplicitList<T, TAG> as PartialEq>⟧.eq (λ held. held.0) T.eq }
{}

/// Tags are equal exactly if their bytes are the same. Classes are equal exactly if they are one class.
pub fn tags()
    ensures tag { IsEqualityOf ⟦<Tag as PartialEq>⟧.eq (λ tag. tag) }
    ensures class { IsEqualityOf ⟦<TagClass as PartialEq>⟧.eq (λ class. class) }
{}

/// Wrappers, and the kinds of newtypes, are equal exactly if they are one kind with one number.
pub fn newtypes()
    ensures newtype { IsEqualityOf ⟦<Newtype as PartialEq>⟧.eq (λ newtype. newtype) }
    ensures wrapper { IsEqualityOf ⟦<Wrapper as PartialEq>⟧.eq (λ wrapper. wrapper) }
{}

/// Errors are equal exactly if they are the same variant, with the same I/O error kind or the same text.
pub fn errors()
    ensures error { IsEqualityOf ⟦<Asn1DerError as PartialEq>⟧.eq comparison_of }
    ensures failure { IsEqualityOf ⟦<Failure as PartialEq>⟧.eq (λ failure. failure) }
{}

/// Signs and bits are equal exactly if both are the same.
pub fn numbers()
    ensures { IsEqualityOf ⟦<SignedBits as PartialEq>⟧.eq (λ bits. bits) }
{}
