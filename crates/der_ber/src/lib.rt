//! BER in, DER out: the lengths of elements, whatever their types, and strings in parts.
#![tactic(auto)]

mod error;
mod front;
mod in_der;
mod joining;
pub mod laws;
mod lengths;
mod parts;
mod reading;
mod short_lengths;
mod strings;
mod whole_strings;

pub use error::{BerError, BerRule};
pub use short_lengths::{MAX_DEPTH, with_short_lengths};
pub use whole_strings::with_whole_strings;
