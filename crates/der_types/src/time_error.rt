//! Why a date and time isn't one of a form.

use thiserror::Error;

/// Why a date and time isn't one of a form. It prints as the reason.
#[derive(Debug, Clone, Copy, PartialEq, Eq, PartialOrd, Ord, Hash, Error)]
pub enum TimeError {
    /// Times of the form don't have this year.
    #[error("a year that the form doesn't have")]
    OtherYear,
    /// A text isn't a date and time as `2026-11-27T23:12:00Z`.
    #[error("a text that is no date and time, as 2026-11-27T23:12:00Z is")]
    OtherText,
}
