//! Tests for what no row of bytes covers: entry calls, a long content and texts. The rows of bytes are in the program
//! `der_rows`.
#![tactic(auto)]

#[cfg(test)]
mod tests;

pub use der_examples::NumberOrFlag;
