//! A ticket, under its application tag.
mod derived;

use crate::{EncryptedData, PrincipalName};
use picky_asn1_der::application_tag::ApplicationTag;
use picky_asn1_der::asn1::{
    ExplicitContextTag0, ExplicitContextTag1, ExplicitContextTag2, ExplicitContextTag3,
    GeneralStringAsn1,
};

/// A ticket: its body under the application tag 1.
pub type Ticket = ApplicationTag<TicketBody, 1>;

/// The body of a ticket, as a SEQUENCE (RFC 4120, 5.3).
// asn1: clone
#[derive(Debug, Drop, PartialEq, Eq)]
pub struct TicketBody {
    /// The version of the form, 5.
    pub tkt_vno: ExplicitContextTag0<u8>,
    /// The issuer.
    pub realm: ExplicitContextTag1<GeneralStringAsn1>,
    /// The server that it is for.
    pub sname: ExplicitContextTag2<PrincipalName>,
    /// The part that only that server can read.
    pub enc_part: ExplicitContextTag3<EncryptedData>,
}
