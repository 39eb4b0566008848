//! A name in parts.
mod derived;

use picky_asn1_der::asn1::{ExplicitContextTag0, ExplicitContextTag1, GeneralStringAsn1};

/// The name of a client or a server, as a SEQUENCE (RFC 4120, 5.2.2).
#[derive(Debug, Clone, Drop, PartialEq, Eq)]
pub struct PrincipalName {
    /// The kind of name. Only numbers from 0 on are read.
    pub name_type: ExplicitContextTag0<u32>,
    /// Its parts.
    pub name_string: ExplicitContextTag1<Vec<GeneralStringAsn1>>,
}
