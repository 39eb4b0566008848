//! A struct of a protocol whose second version has more members. Its tags are automatic.
mod derived;

use picky_asn1_der::asn1::{
    ImplicitContextTag0, ImplicitContextTag1, ImplicitContextTag2, ImplicitContextTag3,
};
use picky_asn1_der::{Added, LaterMembersFrom};

/// Seats that are reserved: `SEQUENCE { seats INTEGER (0..255), remark UTF8String OPTIONAL, ..., [[ paid BOOLEAN,
/// voucher UTF8String OPTIONAL ]] }`, in a module with AUTOMATIC TAGS.
#[derive(Debug, Clone, Drop, PartialEq, Eq)]
pub struct Reservation {
    /// How many.
    pub seats: ImplicitContextTag0<u8>,
    /// What the guests wish.
    pub remark: Option<ImplicitContextTag1<String>>,
    /// What the second version added, or `None` in a value of the first one.
    pub payment: Added<Payment>,
}

// asn1: added
/// How the seats are paid, and the members of later versions.
#[derive(Debug, Clone, Drop, PartialEq, Eq)]
pub struct Payment {
    /// Whether they are.
    pub paid: ImplicitContextTag2<bool>,
    /// The number of a voucher.
    pub voucher: Option<ImplicitContextTag3<String>>,
    /// The members of later versions, in order: context tags from 4 on.
    pub later: LaterMembersFrom<4>,
}
