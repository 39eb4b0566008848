//! A struct of twenty-five fields.
mod derived;

/// The level of a river in each hour of a day, as a SEQUENCE of twenty-five INTEGERs.
// asn1: exact, faithful, clone
#[derive(Debug, Drop, PartialEq, Eq)]
pub struct RiverLevels {
    /// The day of the year, from 1 on.
    pub day: u16,
    /// In centimeters at 00:00.
    pub at_00: u16,
    /// In centimeters at 01:00.
    pub at_01: u16,
    /// In centimeters at 02:00.
    pub at_02: u16,
    /// In centimeters at 03:00.
    pub at_03: u16,
    /// In centimeters at 04:00.
    pub at_04: u16,
    /// In centimeters at 05:00.
    pub at_05: u16,
    /// In centimeters at 06:00.
    pub at_06: u16,
    /// In centimeters at 07:00.
    pub at_07: u16,
    /// In centimeters at 08:00.
    pub at_08: u16,
    /// In centimeters at 09:00.
    pub at_09: u16,
    /// In centimeters at 10:00.
    pub at_10: u16,
    /// In centimeters at 11:00.
    pub at_11: u16,
    /// In centimeters at 12:00.
    pub at_12: u16,
    /// In centimeters at 13:00.
    pub at_13: u16,
    /// In centimeters at 14:00.
    pub at_14: u16,
    /// In centimeters at 15:00.
    pub at_15: u16,
    /// In centimeters at 16:00.
    pub at_16: u16,
    /// In centimeters at 17:00.
    pub at_17: u16,
    /// In centimeters at 18:00.
    pub at_18: u16,
    /// In centimeters at 19:00.
    pub at_19: u16,
    /// In centimeters at 20:00.
    pub at_20: u16,
    /// In centimeters at 21:00.
    pub at_21: u16,
    /// In centimeters at 22:00.
    pub at_22: u16,
    /// In centimeters at 23:00.
    pub at_23: u16,
}
