//! How values of the types of this crate are ordered: each law is the contract of a function that does nothing. Equal
//! values by `==` are those of which neither is less, and they have the same hash, as the traits' own laws say.
ghost use Rattle.std.specs.Cmp.Lexicographic.{slice_cmp};
ghost use Rattle.std.specs.Ordering.{nat_cmp};
ghost use Rattle.picky_der_core.specs.Equality.{IsThatOf};

use crate::asn1::{
    Asn1SequenceOf, Asn1SetOf, BitStringAsn1Container, ByteBuf, ExplicitContextTag,
    ImplicitContextTag, ImplicitList, OctetStringAsn1Container, Tag, TaggedBytes,
};

/// Octet strings, and bytes under one tag, are ordered by their bytes, at the first index where these differ.
pub fn bytes<const TAG: u8>()
    ensures byte_buf { IsThatOf ⟦<ByteBuf as Ord>⟧.cmp (λ octets. octets.0.items) (slice_cmp nat_cmp) }
    ensures tagged { IsThatOf ⟦<TaggedBytes<TAG> as Ord>⟧.cmp (λ tagged. tagged.0.items) (slice_cmp nat_cmp) }
{}

/// Lists are ordered by their members, at the first index where these differ, and a list is before a longer one that
/// begins with it. So are those of a SET OF, whose members are in ascending order of their encodings if it was read.
pub fn lists<T: Ord>()
    ensures sequence { IsThatOf ⟦<Asn1SequenceOf<T> as Ord>⟧.cmp (λ list. list.0.items) (slice_cmp T.cmp) }
    ensures set { IsThatOf ⟦<Asn1SetOf<T> as Ord>⟧.cmp (λ list. list.0.items) (slice_cmp T.cmp) }
{}

/// Two values in one wrapper are ordered as they are without it.
pub fn wrappers<T: Ord, const N: u8, const TAG: u8>()
    ensures octets { IsThatOf ⟦<OctetStringAsn1Container<T> as Ord>⟧.cmp (λ held. held.0) T.cmp }
    ensures bits { IsThatOf ⟦<BitStringAsn1Container<T> as Ord>⟧.cmp (λ held. held.0) T.cmp }
    ensures explicit { IsThatOf ⟦<ExplicitContextTag<T, N> as Ord>⟧.cmp (λ held. held.0) T.cmp }
    ensures implicit { IsThatOf ⟦<ImplicitContextTag<T, N> as Ord>⟧.cmp (λ held. held.0) T.cmp }
    ensures implicit_list { IsThatOf ⟦<ImplicitList<T, TAG> as Ord>⟧.cmp (λ held. held.0) T.cmp }
{}

/// Tags are ordered by their bytes.
pub fn tags()
    ensures { IsThatOf ⟦<Tag as Ord>⟧.cmp (λ tag. tag) nat_cmp }
{}
