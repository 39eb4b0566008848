//! What is written of a list under another tag: what is written of the list, except for the tag.
ghost use Rattle.std.specs.Prelude.{◌≡◌};
ghost use Rattle.picky_der_core.specs.Element.{tlv};
ghost use Rattle.picky_der_core.specs.Encoding.{der, content, plain_tag};

use crate::asn1::ImplicitList;
use crate::{List, Serialize};

/// A list has the same content under its own tag, 30 or 31, and in an `ImplicitList` under `TAG`.
pub fn same_content<T: List, const TAG: u8>()
    ensures own { (value : T) → der (T.meaning value)
        ≡ tlv (plain_tag (T.meaning value)) (content (T.meaning value)) }
    ensures other { (value : T) → der (⟦<ImplicitList<T, TAG> as Serialize>⟧.meaning
        (record { 0 = value })) ≡ tlv TAG (content (T.meaning value)) }
{}
