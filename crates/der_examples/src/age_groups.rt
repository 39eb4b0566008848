//! A struct of seventeen fields, more than a tuple has.
mod derived;

/// How many people there are in each age group, as a SEQUENCE of seventeen INTEGERs.
// asn1: clone
#[derive(Debug, Drop, PartialEq, Eq)]
pub struct AgeGroups {
    /// Under 5 years.
    pub under_5: u32,
    /// From 5 to 9 years.
    pub from_5: u32,
    /// From 10 to 14 years.
    pub from_10: u32,
    /// From 15 to 19 years.
    pub from_15: u32,
    /// From 20 to 24 years.
    pub from_20: u32,
    /// From 25 to 29 years.
    pub from_25: u32,
    /// From 30 to 34 years.
    pub from_30: u32,
    /// From 35 to 39 years.
    pub from_35: u32,
    /// From 40 to 44 years.
    pub from_40: u32,
    /// From 45 to 49 years.
    pub from_45: u32,
    /// From 50 to 54 years.
    pub from_50: u32,
    /// From 55 to 59 years.
    pub from_55: u32,
    /// From 60 to 64 years.
    pub from_60: u32,
    /// From 65 to 69 years.
    pub from_65: u32,
    /// From 70 to 74 years.
    pub from_70: u32,
    /// From 75 to 79 years.
    pub from_75: u32,
    /// 80 years and more.
    pub from_80: u32,
}
