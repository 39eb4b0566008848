//! Object identifiers.
ghost use Rattle.std.specs.Prelude.{◌≡◌, ◌↔◌, ◌⊎◌, Some, true, false, map, IsTrue, OnOk, IfOk, IfErr};
ghost use Rattle.der_types.specs.Dotted.{dotted_or_marked, fitted};
ghost use Rattle.der_types.specs.Arcs.{arcs_left};
ghost use Rattle.der_types.specs.ObjectIdentifier.{is_object_identifier, are_arcs, object_identifier_content, arcs_of};
ghost use Rattle.der_types.specs.ObjectIdentifier.{arcs_error, RefusesArcs, IsText, RefusesOidText};

use crate::dotted::arcs_of_text;
use crate::subidentifiers::{push_subidentifier, push_subidentifiers};
use crate::{Arcs, Contents, OidError};
use picky_der_core::{Asn1DerError, Result};
use smallvec::SmallVec;
use std::alloc::{AllocError, Global};
use std::fmt;

// So many bytes of a content are kept in the value itself.
pub(crate) const INLINE: usize = 16;

/// An object identifier (X.690, 8.19), by its content. No number in it begins with a needless 80, and the last one
/// ends.
///
/// It prints as its arcs with points between them, as `2.5.4.3`; an arc above `u64::MAX` prints as `(above 64 bits)`.
/// Its order is that of the bytes of its content.
#[derive(Drop, PartialEq, Eq, PartialOrd, Ord, Hash)]
pub struct ObjectIdentifier {
    pub(crate) content: SmallVec<u8, INLINE>,
    ghost canonical: { is_object_identifier content.items ≡ true },
}

// Why these are no arcs of an object identifier, if they aren't.
fn arcs_error(arcs: &[u64]) -> Option<OidError>
    ensures { result ≡ arcs_error arcs.now }
{
    match arcs {
        [first, _, ..] if *first > 2 => Some(OidError::FirstArc),
        [first, second, ..] if *first < 2 && *second >= 40 => Some(OidError::SecondArc),
        [_, _, ..] => None,
        _ => Some(OidError::TooFewArcs),
    }
}

// The content of arcs, or no bytes of fewer than two.
fn content_of(alloc: Global, arcs: &[u64]) -> std::result::Result<Vec<u8>, AllocError>
    ensures { IfOk result (λ content. content.items ≡ object_identifier_content arcs.now) }
{
    let mut content = Vec::new(alloc);
    if let [first, second, others @ ..] = arcs {
        let number = u128::from(*first) * 40 + u128::from(*second);
        push_subidentifier(&mut content, number)?;
        push_subidentifiers(&mut content, others)?;
    }
    Ok(content)
}

impl ObjectIdentifier {
    /// The object identifier with these arcs.
    ///
    /// `TooFewArcs`, `FirstArc` and `SecondArc` where they aren't arcs of one (X.690, 8.19.4), and `OutOfMemory`.
    pub fn from_arcs(alloc: Global, arcs: &[u64]) -> std::result::Result<ObjectIdentifier, OidError>
        ensures arcs { OnOk result (are_arcs arcs.now ≡ true) }
        ensures ok { IfOk result (λ it. ⟦<ObjectIdentifier as Contents>⟧.content it
            ≡ object_identifier_content arcs.now) }
        ensures err { IfErr result (λ e. (e ≡ OidError.OutOfMemory) ⊎ RefusesArcs arcs.now e) }
    {
        match arcs_error(arcs) {
            Some(error) => Err(error),
            None => {
                let content = SmallVec::from_vec(content_of(alloc, arcs)?);
                Ok(ObjectIdentifier { content })
            }
        }
    }

    /// The object identifier that the text is, as `2.5.4.3`: its arcs in decimal, with points between them.
    ///
    /// `NotANumber` where a part isn't a decimal number, or has a needless 0 in front; `ArcTooLarge` where one is above
    /// `u64::MAX`; else the errors of `from_arcs`.
    pub fn from_str(alloc: Global, text: &str) -> std::result::Result<ObjectIdentifier, OidError>
        ensures ok { IfOk result (λ it. IsText text.now (⟦<ObjectIdentifier as Contents>⟧.content it)) }
        ensures err { IfErr result (λ e. (e ≡ OidError.OutOfMemory) ⊎ RefusesOidText text.now e) }
    {
        let arcs = arcs_of_text(alloc, text)?;
        ObjectIdentifier::from_arcs(alloc, &arcs)
    }

    /// Returns the object identifier with this content, as `from_bytes(alloc, names::KEY_USAGE)`.
    ///
    /// `InvalidData` if it is empty, a number in it begins with a needless 80 or the last one doesn't end (X.690,
    /// 8.19.2), and `OutOfMemory` if an allocation fails.
    pub fn from_bytes(alloc: Global, content: &[u8]) -> Result<ObjectIdentifier>
        ensures ok { IfOk result (λ it. ⟦<ObjectIdentifier as Contents>⟧.content it ≡ content.now) }
        ensures err { IfErr result (λ e. (e ≡ Asn1DerError.OutOfMemory)
            ⊎ (is_object_identifier content.now ≡ false) × (e ≡ Asn1DerError.InvalidData)) }
    {
        match ObjectIdentifier::from_content(content.to_vec(alloc)?) {
            Some(identifier) => Ok(identifier),
            None => Err(Asn1DerError::InvalidData),
        }
    }

    /// The bytes of its content (X.690, 8.19.2), as they are after the tag and the length.
    pub fn content(&self) -> &[u8]
        ensures { result.now ≡ ⟦<ObjectIdentifier as Contents>⟧.content self.now }
    {
        &self.content
    }

    /// Whether it is the one with this content, as `oid.is(names::KEY_USAGE)`.
    pub fn is(&self, content: &[u8]) -> bool
        ensures { IsTrue result ↔ (⟦<ObjectIdentifier as Contents>⟧.content self.now ≡ content.now) }
    {
        self.content.as_slice() == content
    }

    /// Its arcs, in order; `ArcTooLarge` in place of one above `u64::MAX`.
    pub fn arcs(&self) -> Arcs<'_>
        ensures { arcs_left result ≡ arcs_of (⟦<ObjectIdentifier as Contents>⟧.content self.now) }
    {
        Arcs::of_object_identifier(&self.content)
    }
}

impl fmt::Display for ObjectIdentifier {
    ghost output = { λ it. Some (dotted_or_marked (map fitted (arcs_of it.content.items))) };

    fn fmt<W: fmt::Write>(&self, f: &mut fmt::Formatter<W>) -> fmt::Result {
        self.arcs().fmt(f)
    }
}
