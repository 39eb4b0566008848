//! A choice of a struct and another choice.
mod derived;

use crate::{NumberOrFlag, Point};

/// Where something is.
#[derive(Debug, Clone, Drop, PartialEq, Eq)]
pub enum Place {
    /// At a point, a SEQUENCE.
    At(Point),
    /// By a number or a flag, a CHOICE.
    By(NumberOrFlag),
}
