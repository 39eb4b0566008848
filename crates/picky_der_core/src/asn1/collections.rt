//! Lists of values of one type.
ghost use Rattle.std.specs.Prelude.{◌≡◌, IfOk, IfErr};
ghost use Rattle.std.specs.List.{AllZip};

use crate::{Asn1DerError, Result};
use std::hash::Hash;

/// A SEQUENCE OF (X.690, 8.10): values of one type, in their order.
#[derive(Debug, Clone, Drop, PartialEq, Eq, PartialOrd, Ord, Hash)]
pub struct Asn1SequenceOf<T>(pub Vec<T>);

impl<T: Clone> Asn1SequenceOf<T> {
    /// A clone of each value, in order, on the same allocator. `OutOfMemory` if an allocation fails.
    pub fn clone(&self) -> Result<Asn1SequenceOf<T>>
        ensures same { IfOk result (λ copy. AllZip T.is_clone self.now.0.items copy.0.items) }
        ensures memory { IfErr result (λ e. e ≡ Asn1DerError.OutOfMemory) }
    {
        Ok(Asn1SequenceOf(self.0.clone()?))
    }
}

impl<T> From<Vec<T>> for Asn1SequenceOf<T> {
    ghost from_gives = { λ items list. list.0 ≡ items };

    fn from(items: Vec<T>) -> Asn1SequenceOf<T> {
        Asn1SequenceOf(items)
    }
}

/// A SET OF (X.690, 8.12): values of one type. They keep the order in which they are given. They are written in
/// ascending order of their encodings (11.6).
#[derive(Debug, Clone, Drop, PartialEq, Eq, PartialOrd, Ord, Hash)]
pub struct Asn1SetOf<T>(pub Vec<T>);

impl<T: Clone> Asn1SetOf<T> {
    /// A clone of each value, in order, on the same allocator. `OutOfMemory` if an allocation fails.
    pub fn clone(&self) -> Result<Asn1SetOf<T>>
        ensures same { IfOk result (λ copy. AllZip T.is_clone self.now.0.items copy.0.items) }
        ensures memory { IfErr result (λ e. e ≡ Asn1DerError.OutOfMemory) }
    {
        Ok(Asn1SetOf(self.0.clone()?))
    }
}

impl<T> From<Vec<T>> for Asn1SetOf<T> {
    ghost from_gives = { λ items list. list.0 ≡ items };

    fn from(items: Vec<T>) -> Asn1SetOf<T> {
        Asn1SetOf(items)
    }
}
