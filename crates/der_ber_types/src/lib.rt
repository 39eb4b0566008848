//! BER in, DER out, by the type of a value: what the type says of an element, whatever its tag is.
#![tactic(auto)]

mod bits;
mod by_type;
mod content;
mod contents;
mod defaults;
mod error;
mod header;
mod inside;
mod kinds;
pub mod laws;
mod message;
mod order;
mod sets;

pub use by_type::to_der;
pub use error::ToDerError;
pub use message::{ContentType, message_to_der};
