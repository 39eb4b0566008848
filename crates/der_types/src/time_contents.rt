//! The digits of times.
ghost use Rattle.std.specs.Prelude.{◌≡◌, ◌+◌, ◌<◌, true, [], length};
ghost use Rattle.der_types.specs.Calendar.{is_date, is_time_of_day};
ghost use Rattle.der_types.specs.TimeContents.{are_digits_at, number_at, is_date_time_at, full_year, year_at_first};
ghost use Rattle.der_types.specs.TimeContents.{is_utc_time, are_whole_seconds, is_fraction, is_ended};
ghost use Rattle.der_types.specs.TimeContents.{is_generalized_time, is_later_time};
ghost use Rattle.der_types.specs.TimeLaws.{IsStamp};
ghost use Rattle.der_types.specs.TimeValues.{generalized_content, IsReadAt};

use crate::DateTime;
use crate::date_time::{is_date, is_time_of_day};

// Whether the byte with this index and the next are digits.
fn are_digits_at(bytes: &[u8], at: usize) -> bool
    requires { at + 1 < length bytes.now }
    ensures { result ≡ are_digits_at bytes.now at }
{
    bytes[at].is_ascii_digit() && bytes[at + 1].is_ascii_digit()
}

// The number of these two digits.
pub(crate) fn number_at(bytes: &[u8], at: usize) -> u8
    requires inside { at + 1 < length bytes.now }
    requires digits { are_digits_at bytes.now at ≡ true }
    ensures value { result ≡ number_at bytes.now at }
    ensures few { result < 100 }
{
    (bytes[at] - b'0') * 10 + (bytes[at + 1] - b'0')
}

// Whether the ten bytes from here on are the month, the day, the hour, the minute and the second of a time of this
// year.
fn is_date_time_at(bytes: &[u8], at: usize, year: u16) -> bool
    requires { at + 9 < length bytes.now }
    ensures { result ≡ is_date_time_at year bytes.now at }
{
    if !are_digits_at(bytes, at) || !are_digits_at(bytes, at + 2) {
        return false;
    }
    if !are_digits_at(bytes, at + 4) || !are_digits_at(bytes, at + 6) {
        return false;
    }
    if !are_digits_at(bytes, at + 8) {
        return false;
    }
    let month = number_at(bytes, at);
    let day = number_at(bytes, at + 2);
    let hour = number_at(bytes, at + 4);
    let minute = number_at(bytes, at + 6);
    let second = number_at(bytes, at + 8);
    is_date(year, month, day) && is_time_of_day(hour, minute, second)
}

// The year of these two digits.
pub(crate) fn full_year(digits: u8) -> u16
    ensures { result ≡ full_year digits }
{
    if digits < 50 {
        2000 + u16::from(digits)
    } else {
        1900 + u16::from(digits)
    }
}

// The year of the four digits at the beginning.
pub(crate) fn year_at_first(bytes: &[u8]) -> u16
    requires inside { 3 < length bytes.now }
    requires century { are_digits_at bytes.now 0 ≡ true }
    requires year { are_digits_at bytes.now 2 ≡ true }
    ensures { result ≡ year_at_first bytes.now }
{
    u16::from(number_at(bytes, 0)) * 100 + u16::from(number_at(bytes, 2))
}

/// Returns whether bytes are the content of a UTCTime (X.690, 11.8).
pub fn is_utc_time(bytes: &[u8]) -> bool
    ensures { result ≡ is_utc_time bytes.now }
{
    if bytes.len() != 13 {
        return false;
    }
    if !are_digits_at(bytes, 0) {
        return false;
    }
    let year = full_year(number_at(bytes, 0));
    bytes[12] == b'Z' && is_date_time_at(bytes, 2, year)
}

// Whether bytes begin with the fourteen digits of a year, a date and a time of day.
fn are_whole_seconds(bytes: &[u8]) -> bool
    requires { 13 < length bytes.now }
    ensures { result ≡ are_whole_seconds bytes.now }
{
    if !are_digits_at(bytes, 0) {
        return false;
    }
    if !are_digits_at(bytes, 2) {
        return false;
    }
    is_date_time_at(bytes, 4, year_at_first(bytes))
}

// Whether all are digits, and the last isn't 0.
fn is_fraction(bytes: &[u8]) -> bool
    ensures { result ≡ is_fraction bytes.now }
{
    for byte in bytes {
        if !byte.is_ascii_digit() {
            return false;
        }
    }
    bytes.is_empty() || bytes[bytes.len() - 1] != b'0'
}

// Whether the seconds are followed by Z, or by a fraction and Z.
fn is_ended(bytes: &[u8]) -> bool
    requires { 14 < length bytes.now }
    ensures { result ≡ is_ended bytes.now }
{
    let len = bytes.len();
    if len == 15 {
        return bytes[14] == b'Z';
    }
    if len < 17 {
        return false;
    }
    bytes[14] == b'.' && bytes[len - 1] == b'Z' && is_fraction(&bytes[15..len - 1])
}

/// Returns whether bytes are the content of a GeneralizedTime (X.690, 11.7).
pub fn is_generalized_time(bytes: &[u8]) -> bool
    ensures { result ≡ is_generalized_time bytes.now }
{
    bytes.len() > 14 && are_whole_seconds(bytes) && is_ended(bytes)
}

/// Whether bytes are the content of a GeneralizedTime from 2050 on, without a fraction (RFC 5280, 4.1.2.5.2).
pub(crate) fn is_later_time(bytes: &[u8]) -> bool
    ensures { result ≡ is_later_time bytes.now }
{
    if bytes.len() != 15 {
        return false;
    }
    if !are_whole_seconds(bytes) {
        return false;
    }
    bytes[14] == b'Z' && year_at_first(bytes) > 2049
}

/// The time of this year whose other digits are the ten bytes from here on.
pub(crate) fn date_time_at(bytes: &[u8], at: usize, year: u16) -> DateTime
    requires inside { at + 9 < length bytes.now }
    requires stamp { IsStamp year bytes.now at }
    ensures { IsReadAt year bytes.now at result }
{
    DateTime {
        year,
        month: number_at(bytes, at),
        day: number_at(bytes, at + 2),
        hour: number_at(bytes, at + 4),
        minute: number_at(bytes, at + 6),
        second: number_at(bytes, at + 8),
    }
}

/// YYYYMMDDHHMMSSZ.
#[tactic(auto, unfolding(crate::specs::TimeValues::generalized_content, crate::specs::TimeValues::month_to_second))]
pub(crate) fn content_of(at: DateTime) -> [u8; 15]
    ensures { result ≡ generalized_content at [] }
{
    let century = at.century();
    let year = (at.year % 100) as u8;
    [
        b'0' + century / 10,
        b'0' + century % 10,
        b'0' + year / 10,
        b'0' + year % 10,
        b'0' + at.month / 10,
        b'0' + at.month % 10,
        b'0' + at.day / 10,
        b'0' + at.day % 10,
        b'0' + at.hour / 10,
        b'0' + at.hour % 10,
        b'0' + at.minute / 10,
        b'0' + at.minute % 10,
        b'0' + at.second / 10,
        b'0' + at.second % 10,
        b'Z',
    ]
}
