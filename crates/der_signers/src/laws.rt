//! Laws of definitions.
ghost use Rattle.std.specs.Prelude.{◌≡◌};
ghost use Rattle.picky_der_core.specs.Equality.{IsKept};
ghost use Rattle.der_types.specs.ObjectIdentifier.{object_identifier_content};
ghost use Rattle.der_signers.specs.declared.digest.DigestAlgorithm.{DigestAlgorithm};
ghost use Rattle.der_signers.specs.Digest.{arcs_of_algorithm, identifier_of};

use crate::{
    ContentComparison, DigestAlgorithm, DigestComparison, LineEnds, RequiredAttributes, Signed,
    TypeComparison,
};

/// A copy is the same.
pub fn copies()
    ensures algorithm { IsKept ⟦<DigestAlgorithm as Clone>⟧.is_clone (λ it. it) }
    ensures digest { IsKept ⟦<DigestComparison as Clone>⟧.is_clone (λ it. it) }
    ensures content_type { IsKept ⟦<TypeComparison as Clone>⟧.is_clone (λ it. it) }
    ensures attributes { IsKept ⟦<RequiredAttributes as Clone>⟧.is_clone (λ it. it) }
    ensures content { IsKept ⟦<ContentComparison as Clone>⟧.is_clone (λ it. it) }
    ensures line_ends { IsKept ⟦<LineEnds as Clone>⟧.is_clone (λ it. it) }
    ensures signed { IsKept ⟦<Signed as Clone>⟧.is_clone (λ it. it) }
{}

/// The content of a digest algorithm's identifier is that of its arcs.
pub fn digest_identifiers()
    ensures { (algorithm : DigestAlgorithm)
        → identifier_of algorithm ≡ object_identifier_content (arcs_of_algorithm algorithm) }
{}
