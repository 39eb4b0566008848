//! Conversions between dates and times of `der_types` and of the crate `jiff`.
//!
//! They are functions, since the types belong to other crates. The contracts of `jiff` say which year, month, day,
//! hour, minute, second and nanosecond each of its values shows. They also say how many nanoseconds after 1970 each of
//! its instants is. So what is proved of an instant is that the calendars of both crates count the same days.
ghost use Rattle.std.specs.Prelude.{◌≡◌, ◌↔◌, ◌⊎◌, ◌<◌, ◌≤◌, ◌^◌, ◌<ℤ◌, ◌++◌, pos, true, length, IsOk, OnOk, IfOk};
ghost use Rattle.std.specs.Prelude.{IfErr, IfSome, IfNone};
ghost use Rattle.jiff.specs.Words.{IsRange, IsTimestampNanos};
ghost use Rattle.der_types.specs.GeneralizedTimes.{scaled};
ghost use Rattle.der_types.specs.TimeContents.{are_digits, fraction_of, is_generalized_time};
ghost use Rattle.der_types.specs.TimeValues.{after_point, generalized_content};
ghost use Rattle.der_jiff.specs.JiffTimes.{fewest_digits, Shows, ShowsContent, unix_nanoseconds};

use der_types::{Contents, DateTime, GeneralizedTime, UtcTime};
use jiff::tz::Offset;
use jiff::{Error, Timestamp, civil};
use picky_asn1_der::Asn1DerError;
use std::alloc::Global;

// This many nanoseconds after the second, on `jiff`'s calendar.
fn civil_at(at: DateTime, nanoseconds: u32) -> civil::DateTime
    requires { nanoseconds < 1_000_000_000 }
    ensures { Shows result at nanoseconds }
{
    civil::datetime(
        at.year() as i16,
        at.month() as i8,
        at.day() as i8,
        at.hour() as i8,
        at.minute() as i8,
        at.second() as i8,
        nanoseconds as i32,
    )
}

/// Returns the same second on `jiff`'s calendar.
pub fn to_civil(at: DateTime) -> civil::DateTime
    ensures { Shows result at 0 }
{
    civil_at(at, 0)
}

// The second that `jiff`'s value shows, without the nanoseconds after it. `None` if the year is before 0.
fn whole_second(at: civil::DateTime) -> Option<DateTime>
    ensures some { IfSome result (λ it. Shows at it at.time.subsec_nanosecond) }
    ensures none { IfNone result (at.date.year <ℤ pos 0) }
{
    if at.year() < 0 {
        return None;
    }
    DateTime::new(
        at.year() as u16,
        at.month() as u8,
        at.day() as u8,
        at.hour() as u8,
        at.minute() as u8,
        at.second() as u8,
    )
}

/// Returns the same second, or `None` if the year is before 0 or there is a fraction of a second.
pub fn from_civil(at: civil::DateTime) -> Option<DateTime>
    ensures some { IfSome result (λ it. Shows at it 0) }
    ensures none { IfNone result ((at.date.year <ℤ pos 0) ⊎ (0 < at.time.subsec_nanosecond)) }
{
    if at.subsec_nanosecond() > 0 {
        return None;
    }
    whole_second(at)
}

/// Returns the same second as an instant. The error is `Range` after 22:00:00 on 30 December 9999, the last second of
/// `jiff`'s instants.
pub fn to_timestamp(at: DateTime) -> Result<Timestamp, Error>
    ensures succeeds { IsOk result ↔ IsTimestampNanos (unix_nanoseconds at) }
    ensures value { IfOk result (λ instant. instant.nanosecond ≡ unix_nanoseconds at) }
    ensures err { IfErr result IsRange }
{
    Offset::UTC.to_timestamp(to_civil(at))
}

/// Returns the second of the instant, or `None` if its year is before 0 or it has a fraction of a second.
pub fn from_timestamp(instant: Timestamp) -> Option<DateTime>
    ensures some { IfSome result (λ it. unix_nanoseconds it ≡ instant.nanosecond) }
    ensures none { IfNone result
        ((it : DateTime) → unix_nanoseconds it ≡ instant.nanosecond → ⊥) }
{
    from_civil(Offset::UTC.to_datetime(instant))
}

/// Returns the same second on `jiff`'s calendar.
pub fn utc_time_to_civil(time: UtcTime) -> civil::DateTime
    ensures { Shows result time.at 0 }
{
    to_civil(time.date_time())
}

/// Returns the same second, or `None` if the year isn't from 1950 to 2049 or there is a fraction of a second.
pub fn utc_time_from_civil(at: civil::DateTime) -> Option<UtcTime>
    ensures some { IfSome result (λ it. Shows at it.at 0) }
    ensures none { IfNone result ((at.date.year <ℤ pos 1950) ⊎ ((pos 2049 <ℤ at.date.year)
        ⊎ (0 < at.time.subsec_nanosecond))) }
{
    UtcTime::new(from_civil(at)?)
}

// The value of the digits as a fraction in `places` digits; missing digits are 0.
fn digits_value(places: u32, digits: &[u8]) -> u32
    requires few { places ≤ 9 }
    requires digits { are_digits digits.now ≡ true }
    ensures value { result ≡ scaled places digits.now }
    ensures below { result < 10 ^ places }
{
    if places == 0 {
        return 0;
    }
    match digits {
        [] => 0,
        [digit, others @ ..] => {
            u32::from(*digit - b'0') * 10u32.pow(places - 1) + digits_value(places - 1, others)
        }
    }
}

/// Returns the same time on `jiff`'s calendar, or `None` if its fraction has more than nine digits.
pub fn generalized_time_to_civil(time: &GeneralizedTime) -> Option<civil::DateTime>
    ensures some { IfSome result (λ civil. ShowsContent civil time.now.content.items) }
    ensures none { IfNone result (9 < length (fraction_of time.now.content.items)) }
{
    let fraction = time.fraction();
    if fraction.len() > 9 {
        return None;
    }
    Some(civil_at(time.whole_seconds(), digits_value(9, fraction)))
}

// Appends the number as the digits of a fraction in `places` digits, without zeros at the end: no digit for 0.
fn push_digits(content: &mut Vec<u8>, places: u32, number: u32) -> Result<(), Asn1DerError>
    requires few { places ≤ 9 }
    requires below { number < 10 ^ places }
    ensures ok { OnOk result
        (content.new.items ≡ content.old.items ++ fewest_digits places number) }
    ensures err { IfErr result (λ e. e ≡ Asn1DerError.OutOfMemory) }
{
    if number == 0 {
        return Ok(());
    }
    let unit = 10u32.pow(places - 1);
    content.push(b'0' + (number / unit) as u8)?;
    push_digits(content, places - 1, number % unit)
}

// Appends the point and the digits of a fraction, or nothing for 0.
fn push_fraction(content: &mut Vec<u8>, nanoseconds: u32) -> Result<(), Asn1DerError>
    requires { nanoseconds < 1_000_000_000 }
    ensures ok { OnOk result
        (content.new.items ≡ content.old.items ++ after_point (fewest_digits 9 nanoseconds)) }
    ensures err { IfErr result (λ e. e ≡ Asn1DerError.OutOfMemory) }
{
    if nanoseconds == 0 {
        return Ok(());
    }
    content.push(b'.')?;
    push_digits(content, 9, nanoseconds)
}

// The second and the nanoseconds after it, as the content of a `GeneralizedTime`.
fn content_with(alloc: Global, at: DateTime, nanoseconds: u32) -> Result<Vec<u8>, Asn1DerError>
    requires { nanoseconds < 1_000_000_000 }
    ensures is { IfOk result (λ it. it.items ≡ generalized_content at (fewest_digits 9 nanoseconds)) }
    ensures valid { IfOk result (λ it. is_generalized_time it.items ≡ true) }
    ensures err { IfErr result (λ e. e ≡ Asn1DerError.OutOfMemory) }
{
    let whole = GeneralizedTime::from_date_time(alloc, at)?;
    let mut content = whole.content().to_vec(alloc)?;
    content.truncate(14);
    push_fraction(&mut content, nanoseconds)?;
    content.push(b'Z')?;
    Ok(content)
}

/// Returns the same time, with the fewest digits of its fraction, or `None` if the year is before 0. `OutOfMemory` if
/// an allocation fails.
pub fn generalized_time_from_civil(
    alloc: Global,
    at: civil::DateTime,
) -> Result<Option<GeneralizedTime>, Asn1DerError>
    ensures some { IfOk result (λ made. IfSome made (λ it. ShowsContent at it.content.items)) }
    ensures none { IfOk result (λ made. IfNone made (at.date.year <ℤ pos 0)) }
    ensures err { IfErr result (λ e. e ≡ Asn1DerError.OutOfMemory) }
{
    match whole_second(at) {
        Some(whole) => {
            let content = content_with(alloc, whole, at.subsec_nanosecond() as u32)?;
            Ok(GeneralizedTime::from_content(content))
        }
        None => Ok(None),
    }
}
