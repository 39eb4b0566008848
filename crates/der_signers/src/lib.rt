//! The signers of messages of CMS (RFC 5652): whether the digest and the type of the content are those that a signer
//! signed, and what exactly is signed. Signatures aren't verified.
#![tactic(auto)]

mod algorithm;
mod attributes;
mod comparison;
mod digest;
mod encoding;
mod json;
pub mod laws;
mod line_ends;
mod message;
mod outcome;
mod printed;
mod reason;
mod report;
mod request;
mod text;
mod who;

pub use comparison::{ContentComparison, DigestComparison, RequiredAttributes, TypeComparison};
pub use digest::DigestAlgorithm;
pub use line_ends::LineEnds;
pub use message::Message;
pub use outcome::{Outcome, Refusal, examine};
pub use printed::signers_report;
pub use reason::Reason;
pub use report::{Report, Signed};
pub use request::Request;
pub use who::{CertificateName, Who};
