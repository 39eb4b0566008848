//! The base of the workspace: the error, the types of ASN.1, and what canonical DER is (`specs/`), with its laws.
#![tactic(auto)]

pub mod asn1;
mod error;
mod failure;
mod generated;
mod int;
pub mod integer;
pub mod laws;
pub mod misc;
mod uint;

pub use error::{Asn1DerError, Result};
pub use failure::Failure;
pub use int::{Int, SignedBits};
pub use uint::UInt;
