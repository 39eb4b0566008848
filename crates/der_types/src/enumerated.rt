//! Values of enumerated types.
ghost use Rattle.der_types.specs.IntegerOrder.{number_text};

use crate::Integer;
use std::fmt;

/// An ENUMERATED (X.690, 8.4): the integer of the value. It is encoded as that INTEGER, with the tag 0A. It prints and
/// is ordered as that INTEGER.
#[derive(Drop, PartialEq, Eq, PartialOrd, Ord, Hash)]
pub struct Enumerated(pub Integer);

impl fmt::Display for Enumerated {
    ghost output = { λ it. number_text it.0.content.items };

    fn fmt<W: fmt::Write>(&self, f: &mut fmt::Formatter<W>) -> fmt::Result {
        self.0.fmt(f)
    }
}
