//! The first bytes of values, by which alternatives are distinguished.
ghost use Rattle.std.specs.Prelude.{◌↔◌, IsTrue};
ghost use Rattle.picky_der_core.specs.Shape.{IsFirst};

use crate::Deserialize;
use picky_der_core::asn1::Tag;

/// A type for which one byte shows whether a value can begin there, as the tag of an alternative does.
pub trait Begins: Deserialize {
    /// Whether a value can begin with this byte.
    fn begins_with(tag: Tag) -> bool
        ensures { IsTrue result ↔ IsFirst Self.shape tag };
}
