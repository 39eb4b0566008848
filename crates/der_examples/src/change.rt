//! A struct with members that are choices of a number, a text and a list.
mod derived;

use crate::Setting;

/// A change of a setting, as a SEQUENCE.
#[derive(Debug, Clone, Drop, PartialEq, Eq)]
pub struct Change {
    /// The new value of the setting.
    pub to: Setting,
    /// Whether the setting can't be changed again.
    pub is_final: bool,
    /// The old value of the setting, if it had one.
    pub from: Option<Setting>,
}
