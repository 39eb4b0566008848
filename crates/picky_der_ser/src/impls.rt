//! What the built-in types mean.

mod booleans;
mod lists;
mod plain;
mod wrappers;
