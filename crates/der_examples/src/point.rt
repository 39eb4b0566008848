//! A struct of three fields.
mod derived;

/// A point on a map, which may be hidden, as a SEQUENCE of two INTEGERs and a BOOLEAN.
#[derive(Debug, Clone, Drop, PartialEq, Eq)]
pub struct Point {
    /// How far east.
    pub x: u32,
    /// How far north.
    pub y: u32,
    /// Whether it is hidden.
    pub hidden: bool,
}
