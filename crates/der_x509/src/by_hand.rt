//! What is written by hand: the methods of types that `tools/der_asn1` writes, and names that other libraries use.

mod key_usage_flag;
mod names;
mod signed;

pub use key_usage_flag::KeyUsageFlag;
pub use names::{Attribute, RelativeName};
