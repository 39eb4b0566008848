//! A struct whose fields are structs and nothing else.
mod derived;

use crate::Moment;

/// A time spent somewhere, as a SEQUENCE of its begin and its end.
#[derive(Debug, Clone, Drop, PartialEq, Eq)]
pub struct Stay {
    /// When it begins.
    pub from: Moment,
    /// When it ends.
    pub to: Moment,
}
