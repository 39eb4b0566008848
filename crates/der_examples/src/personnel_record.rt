//! A record of personnel, the example of X.690's annex A. It has sets of different members, and application tags
//! instead of the types' own tags.
mod derived;

use der_types::{Asn1Set, ImplicitPrimitive, ImplicitSet, Integer, VisibleString};
use picky_asn1_der::asn1::{
    ExplicitContextTag0, ExplicitContextTag1, ExplicitContextTag2, ImplicitList, ImplicitList3,
};

/// The name of a person, as a SEQUENCE.
#[derive(Debug, Clone, Drop, PartialEq, Eq)]
pub struct PersonName {
    /// The given name.
    pub given_name: VisibleString,
    /// The initial of the middle name.
    pub initial: VisibleString,
    /// The family name.
    pub family_name: VisibleString,
}

/// A name under the tag `[APPLICATION 1] IMPLICIT`.
pub type TaggedName = ImplicitList<PersonName, 0x61>;

/// The number of an employee, `[APPLICATION 2] IMPLICIT INTEGER`.
pub type EmployeeNumber = ImplicitPrimitive<Integer, 0x42>;

/// A date as `19710917`, `[APPLICATION 3] IMPLICIT VisibleString`.
pub type RecordDate = ImplicitPrimitive<VisibleString, 0x43>;

/// Information about a child, as the members of a SET in the order of their tags.
// asn1: set
#[derive(Debug, Clone, Drop, PartialEq, Eq)]
pub struct ChildInformation {
    /// The name.
    pub name: TaggedName,
    /// The date of birth.
    pub date_of_birth: ExplicitContextTag0<RecordDate>,
}

/// Information about an employee, as the members of a SET in the order of their tags. The members with application tags
/// come first.
// asn1: set, clone
#[derive(Debug, Drop, PartialEq, Eq)]
pub struct PersonnelMembers {
    /// The name.
    pub name: TaggedName,
    /// The number.
    pub number: EmployeeNumber,
    /// The title.
    pub title: ExplicitContextTag0<VisibleString>,
    /// The date of hire.
    pub date_of_hire: ExplicitContextTag1<RecordDate>,
    /// The name of the person's spouse.
    pub name_of_spouse: ExplicitContextTag2<TaggedName>,
    /// The children.
    pub children: Option<ImplicitList3<Vec<Asn1Set<ChildInformation>>>>,
}

/// The record of an employee, `[APPLICATION 0] IMPLICIT SET`.
pub type PersonnelRecord = ImplicitSet<PersonnelMembers, 0x60>;
