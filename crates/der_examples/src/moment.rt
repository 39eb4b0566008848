//! A struct of seven fields.
mod derived;

/// A moment of a day, as a SEQUENCE of seven INTEGERs.
// asn1: clone
#[derive(Debug, Drop, PartialEq, Eq)]
pub struct Moment {
    /// The year.
    pub year: u16,
    /// The month, 1 for January.
    pub month: u8,
    /// The day of the month, from 1 on.
    pub day: u8,
    /// Whole hours since midnight.
    pub hour: u8,
    /// Whole minutes of the hour.
    pub minute: u8,
    /// Whole seconds of the minute.
    pub second: u8,
    /// Whole milliseconds of the second.
    pub millisecond: u16,
}
