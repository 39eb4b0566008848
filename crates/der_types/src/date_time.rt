//! Dates with times of day.
ghost use Rattle.std.specs.Prelude.{◌≡◌, ◌&&◌, ◌/◌, ◌<◌, ◌≤◌, Some, true, false, IfSome, IfNone};
ghost use Rattle.der_types.specs.Calendar.{is_leap_year, days_in, is_date, is_time_of_day};

use std::fmt;

/// A second in UTC, of the years 0 to 9999 of the Gregorian calendar (ISO 8601). No second is a leap second. Its order
/// is that of time.
///
/// It prints as `2026-11-27T23:12:00Z`.
#[derive(Clone, Copy, PartialEq, Eq, PartialOrd, Ord, Hash)]
pub struct DateTime {
    pub(crate) year: u16,
    pub(crate) month: u8,
    pub(crate) day: u8,
    pub(crate) hour: u8,
    pub(crate) minute: u8,
    pub(crate) second: u8,
    ghost date: { is_date year month day ≡ true },
    ghost time: { is_time_of_day hour minute second ≡ true },
}

// Whether the year has a 29 February.
fn is_leap_year(year: u16) -> bool
    ensures { result ≡ is_leap_year year }
{
    year % 4 == 0 && (year % 100 != 0 || year % 400 == 0)
}

// How many days the month has; none if there is no such month.
fn days_in(year: u16, month: u8) -> u8
    ensures value { result ≡ days_in year month }
    ensures few { result ≤ 31 }
{
    match month {
        2 if is_leap_year(year) => 29,
        2 => 28,
        4 | 6 | 9 | 11 => 30,
        1..=12 => 31,
        _ => 0,
    }
}

// Whether the calendar has this date, in a year of up to four digits.
pub(crate) fn is_date(year: u16, month: u8, day: u8) -> bool
    ensures { result ≡ is_date year month day }
{
    year < 10_000 && 0 < day && day < days_in(year, month) + 1
}

// Whether this is a time of day; none is a leap second.
pub(crate) fn is_time_of_day(hour: u8, minute: u8, second: u8) -> bool
    ensures { result ≡ is_time_of_day hour minute second }
{
    hour < 24 && minute < 60 && second < 60
}

impl DateTime {
    ghost use Rattle.der_types.specs.DateTimes.{IsAt};

    /// The second with these numbers, or `None` if there is none: the year has at most four digits, the calendar has
    /// the date, and the time of day is from 00:00:00 to 23:59:59.
    pub fn new(year: u16, month: u8, day: u8, hour: u8, minute: u8, second: u8) -> Option<DateTime>
        ensures some { IfSome result (IsAt year month day hour minute second) }
        ensures none { IfNone result
            ((is_date year month day && is_time_of_day hour minute second) ≡ false) }
    {
        if !is_date(year, month, day) {
            return None;
        }
        if !is_time_of_day(hour, minute, second) {
            return None;
        }
        Some(DateTime {
            year,
            month,
            day,
            hour,
            minute,
            second,
        })
    }

    // The first two digits of the year.
    pub(crate) fn century(self) -> u8
        ensures value { result ≡ self.year / 100 }
        ensures few { result < 100 }
    {
        (self.year / 100) as u8
    }

    /// The year, up to 9999.
    pub fn year(self) -> u16
        ensures { result ≡ self.year }
    {
        self.year
    }

    /// The month, from 1 to 12.
    pub fn month(self) -> u8
        ensures { result ≡ self.month }
    {
        self.month
    }

    /// The day of the month, from 1 on.
    pub fn day(self) -> u8
        ensures { result ≡ self.day }
    {
        self.day
    }

    /// The hour, up to 23.
    pub fn hour(self) -> u8
        ensures { result ≡ self.hour }
    {
        self.hour
    }

    /// The minute, up to 59.
    pub fn minute(self) -> u8
        ensures { result ≡ self.minute }
    {
        self.minute
    }

    /// The second, up to 59.
    pub fn second(self) -> u8
        ensures { result ≡ self.second }
    {
        self.second
    }
}

// It prints with two digits.
#[derive(Clone, Copy)]
struct TwoDigits {
    number: u8,
    ghost short: { number < 100 },
}

impl fmt::Display for TwoDigits {
    ghost use Rattle.der_types.specs.DateTimes.{two_digits};

    ghost output = { λ it. Some (two_digits it.number) };

    fn fmt<W: fmt::Write>(&self, f: &mut fmt::Formatter<W>) -> fmt::Result {
        let tens = self.number / 10;
        let ones = self.number % 10;
        write!(f, "{tens}{ones}")
    }
}

impl fmt::Display for DateTime {
    ghost use Rattle.der_types.specs.DateTimes.{date_time_text};

    ghost output = { λ it. Some (date_time_text it) };

    #[tactic(auto, unfolding(crate::specs::DateTimes::date_time_text))]
    fn fmt<W: fmt::Write>(&self, f: &mut fmt::Formatter<W>) -> fmt::Result {
        let century = TwoDigits {
            number: self.century(),
        };
        let year = TwoDigits {
            number: (self.year % 100) as u8,
        };
        let month = TwoDigits { number: self.month };
        let day = TwoDigits { number: self.day };
        let hour = TwoDigits { number: self.hour };
        let minute = TwoDigits {
            number: self.minute,
        };
        let second = TwoDigits {
            number: self.second,
        };
        write!(f, "{century}{year}-{month}-{day}T{hour}:{minute}:{second}Z")
    }
}
