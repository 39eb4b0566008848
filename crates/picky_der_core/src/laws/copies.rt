//! What a copy of a value of a type of this crate is, by `Clone`: each law is the contract of a function that does
//! nothing.
ghost use Rattle.std.specs.List.{AllZip};
ghost use Rattle.picky_der_core.specs.Equality.{IsKept, IsCopied};

use crate::asn1::{
    Asn1SequenceOf, Asn1SetOf, BitStringAsn1Container, ByteBuf, Bytes, ExplicitContextTag,
    ImplicitContextTag, ImplicitList, Newtype, OctetStringAsn1Container, Tag, TagClass,
    TaggedBytes, Wrapper,
};
use crate::{Asn1DerError, Failure, SignedBits};

/// A copy of an octet string, or of bytes under one tag, has the same bytes.
pub fn bytes<const TAG: u8>()
    ensures byte_buf { IsKept ⟦<ByteBuf as Clone>⟧.is_clone (λ octets. octets.0.items) }
    ensures bytes { IsKept ⟦<Bytes<'static> as Clone>⟧.is_clone (λ octets. octets.0.now) }
    ensures tagged { IsKept ⟦<TaggedBytes<TAG> as Clone>⟧.is_clone (λ tagged. tagged.0.items) }
{}

/// A copy of a list has copies of its members, in order.
pub fn lists<T: Clone>()
    ensures sequence { IsCopied ⟦<Asn1SequenceOf<T> as Clone>⟧.is_clone (λ list. list.0.items)
        (AllZip T.is_clone) }
    ensures set { IsCopied ⟦<Asn1SetOf<T> as Clone>⟧.is_clone (λ list. list.0.items)
        (AllZip T.is_clone) }
{}

/// A copy of a value in a wrapper holds a copy of it.
pub fn wrappers<T: Clone, const N: u8, const TAG: u8>()
    ensures octets { IsCopied ⟦<OctetStringAsn1Container<T> as Clone>⟧.is_clone
        (λ held. held.0) T.is_clone }
    ensures bits { IsCopied ⟦<BitStringAsn1Container<T> as Clone>⟧.is_clone
        (λ held. held.0) T.is_clone }
    ensures explicit { IsCopied ⟦<ExplicitContextTag<T, N> as Clone>⟧.is_clone
        (λ held. held.0) T.is_clone }
    ensures implicit { IsCopied ⟦<ImplicitContextTag<T, N> as Clone>⟧.is_clone
        (λ held. held.0) T.is_clone }
    ensures implicit_list { IsCopied ⟦<ImplicitList<T, TAG> as Clone>⟧.is_clone
        (λ held. held.0) T.is_clone }
{}

/// A copy of a tag, or of a class of tags, is the same one.
pub fn tags()
    ensures tag { IsKept ⟦<Tag as Clone>⟧.is_clone (λ tag. tag) }
    ensures class { IsKept ⟦<TagClass as Clone>⟧.is_clone (λ class. class) }
{}

/// A copy of a wrapper, or of what a newtype names, is the same one.
pub fn newtypes()
    ensures newtype { IsKept ⟦<Newtype as Clone>⟧.is_clone (λ newtype. newtype) }
    ensures wrapper { IsKept ⟦<Wrapper as Clone>⟧.is_clone (λ wrapper. wrapper) }
{}

/// A copy of an error, or of what is kept of one, is the same one.
pub fn errors()
    ensures error { IsKept ⟦<Asn1DerError as Clone>⟧.is_clone (λ error. error) }
    ensures failure { IsKept ⟦<Failure as Clone>⟧.is_clone (λ failure. failure) }
{}

/// A copy of a sign and bits is the same.
pub fn numbers()
    ensures { IsKept ⟦<SignedBits as Clone>⟧.is_clone (λ bits. bits) }
{}
