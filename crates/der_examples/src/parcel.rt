//! A struct of a protocol whose later versions may have more members.
mod derived;

use picky_asn1_der::{LaterMembers, NoneOf, OneOf};

/// A parcel, with members that later versions may add: `SEQUENCE { number INTEGER (0..4294967295), fragile BOOLEAN,
/// note UTF8String OPTIONAL, ... }`.
// asn1: clone
#[derive(Debug, Drop, PartialEq, Eq)]
pub struct Parcel {
    /// Its number.
    pub number: u32,
    /// Whether it is to be carried with care.
    pub fragile: bool,
    /// What is written on it.
    pub note: Option<String>,
    /// The members of later versions, in order. The parameter has the types of the optional members directly before
    /// this one, here the note, and then `NoneOf`. The first later member can't have the tag of one of these, be it
    /// primitive or constructed.
    pub later: LaterMembers<OneOf<String, NoneOf>>,
}
