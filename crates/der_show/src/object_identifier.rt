//! Object identifiers as text.
ghost use Rattle.std.specs.Prelude.{◌≡◌, ◌++◌, option_map, OnOk};
ghost use Rattle.der_show.specs.ObjectIdentifiers.{has_wide_arc, identifier_text, known_name_of};

use crate::names::further_name_of;
use der_program_base::{Line, push_bytes};
use der_types::ObjectIdentifier;
use der_types::names::name_of;
use std::alloc::AllocError;

/// Appends an object identifier. A common one gets its name, as in `rsaEncryption (1.2.840.113549.1.1.1)`. One with an
/// arc above 64 bits is appended as the bytes of its content.
///
/// The only error is a failed allocation.
pub fn push_object_identifier(
    line: &mut Line,
    identifier: &ObjectIdentifier,
) -> Result<(), AllocError>
    ensures { OnOk result (line.new ≡ line.old ++ identifier_text identifier.now) }
{
    if has_wide_arc(identifier) {
        return push_bytes(line, identifier.content());
    }
    match known_name_of(identifier.content()) {
        Some(name) => write!(line, "{name} ({identifier})"),
        None => write!(line, "{identifier}"),
    }
}

// Whether an arc has more than 64 bits.
fn has_wide_arc(identifier: &ObjectIdentifier) -> bool
    ensures { result ≡ has_wide_arc identifier.now }
{
    identifier.arcs().any(|arc| arc.is_err())
}

// The name of the object identifier with this content, or `None` if it isn't known.
fn known_name_of(content: &[u8]) -> Option<&'static str>
    ensures { option_map (λ name. name.now) result ≡ known_name_of content.now }
{
    match name_of(content) {
        Some(name) => Some(name),
        None => further_name_of(content),
    }
}
