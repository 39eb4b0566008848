//! Relative object identifiers.
ghost use Rattle.std.specs.Prelude.{◌≡◌, ◌⊎◌, Some, true, false, map, OnOk, IfOk, IfErr};
ghost use Rattle.der_types.specs.Subidentifiers.{numbers_after};
ghost use Rattle.der_types.specs.Dotted.{dotted_or_marked, fitted, RefusesText};
ghost use Rattle.der_types.specs.Arcs.{arcs_left};
ghost use Rattle.der_types.specs.RelativeOid.{is_relative_oid, are_relative_arcs, relative_oid_content, IsRelativeText};

use crate::dotted::arcs_of_text;
use crate::subidentifiers::push_subidentifiers;
use crate::{Arcs, OidError};
use std::alloc::{AllocError, Global};
use std::fmt;

/// The arcs that follow an object identifier which both sides know (X.690, 8.20), kept as the content. Each number in
/// it is in the fewest bytes, and the last one is complete.
///
/// It prints as its arcs with points between them, as `8571.3.2`. An arc above `u64::MAX` prints as `(above 64 bits)`.
/// Its order is that of the bytes of its content.
#[derive(Drop, PartialEq, Eq, PartialOrd, Ord, Hash)]
pub struct RelativeOid {
    pub(crate) content: Vec<u8>,
    ghost canonical: { is_relative_oid content.items ≡ true },
}

// The content of these arcs.
fn content_of(alloc: Global, arcs: &[u64]) -> std::result::Result<Vec<u8>, AllocError>
    ensures { IfOk result (λ content. content.items ≡ relative_oid_content arcs.now) }
{
    let mut content = Vec::new(alloc);
    push_subidentifiers(&mut content, arcs)?;
    Ok(content)
}

impl RelativeOid {
    /// Returns the relative object identifier with these arcs. `TooFewArcs` if there is no arc, and `OutOfMemory` if
    /// the allocation fails.
    #[tactic(auto, using(crate::specs::RelativeOidLaws::valid_relative))]
    pub fn from_arcs(alloc: Global, arcs: &[u64]) -> std::result::Result<RelativeOid, OidError>
        ensures arcs { OnOk result (are_relative_arcs arcs.now ≡ true) }
        ensures ok { IfOk result (λ it. it.content.items ≡ relative_oid_content arcs.now) }
        ensures err { IfErr result (λ e. (e ≡ OidError.OutOfMemory)
            ⊎ (are_relative_arcs arcs.now ≡ false) × (e ≡ OidError.TooFewArcs)) }
    {
        if arcs.is_empty() {
            return Err(OidError::TooFewArcs);
        }
        let content = content_of(alloc, arcs)?;
        Ok(RelativeOid { content })
    }

    /// Returns the relative object identifier that the text is, as `8571.3.2`: arcs in decimal, separated by points.
    ///
    /// `NotANumber` if a part isn't a decimal number or has a leading 0, `ArcTooLarge` if an arc is above `u64::MAX`,
    /// and `OutOfMemory` if an allocation fails.
    pub fn from_str(alloc: Global, text: &str) -> std::result::Result<RelativeOid, OidError>
        ensures ok { IfOk result (λ it. IsRelativeText text.now it.content.items) }
        ensures err { IfErr result (λ e. (e ≡ OidError.OutOfMemory) ⊎ RefusesText text.now e) }
    {
        let arcs = arcs_of_text(alloc, text)?;
        RelativeOid::from_arcs(alloc, &arcs)
    }

    /// Returns the bytes of its content, without the tag and the length (X.690, 8.20.2).
    pub fn content(&self) -> &[u8]
        ensures { result.now ≡ self.now.content.items }
    {
        &self.content
    }

    /// Returns its arcs, in order. An arc above `u64::MAX` is returned as the error `ArcTooLarge`.
    pub fn arcs(&self) -> Arcs<'_>
        ensures { arcs_left result ≡ numbers_after 0 self.now.content.items }
    {
        Arcs::of_numbers(&self.content)
    }
}

impl fmt::Display for RelativeOid {
    ghost output = { λ it. Some (dotted_or_marked (map fitted (numbers_after 0 it.content.items))) };

    fn fmt<W: fmt::Write>(&self, f: &mut fmt::Formatter<W>) -> fmt::Result {
        self.arcs().fmt(f)
    }
}
