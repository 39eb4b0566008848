//! Times.

use crate::outcomes::{Shown, decoded, made, written};
use der_types::{DateTime, GeneralizedTime, Time, UtcTime};
use picky_der_ser::Serialize;
use std::alloc::{AllocError, Global};
use std::cmp::Ordering;
use std::str;

// The date and time, and how it is written.
fn both<T: Serialize>(alloc: Global, at: DateTime, time: &T) -> Result<String, AllocError> {
    let bytes = written(alloc, time)?;
    format!(in alloc; "{at} {bytes}")
}

impl Shown for UtcTime {
    fn shown(&self, alloc: Global) -> Result<String, AllocError> {
        both(alloc, self.date_time(), self)
    }
}

impl Shown for Time {
    fn shown(&self, alloc: Global) -> Result<String, AllocError> {
        both(alloc, self.date_time(), self)
    }
}

// The same with its fraction, and whether it is a whole second.
impl Shown for GeneralizedTime {
    fn shown(&self, alloc: Global) -> Result<String, AllocError> {
        let at = self.whole_seconds();
        let fraction = str::from_utf8(self.fraction()).unwrap_or("-");
        let is_whole = self.date_time() == Some(at);
        let bytes = written(alloc, self)?;
        format!(in alloc; "{at} {fraction} {is_whole} {bytes}")
    }
}

// The numbers of a date and time.
fn numbers_of(text: &str) -> Option<[u16; 6]> {
    let mut numbers = [0; 6];
    let mut count = 0;
    for word in text.split(' ') {
        if count < 6 {
            numbers[count] = word.parse().ok()?;
            count += 1;
        }
    }
    if count == 6 { Some(numbers) } else { None }
}

fn date_time_of(text: &str) -> Option<DateTime> {
    let [year, month, day, hour, minute, second] = numbers_of(text)?;
    let month = u8::try_from(month).ok()?;
    let day = u8::try_from(day).ok()?;
    let hour = u8::try_from(hour).ok()?;
    let minute = u8::try_from(minute).ok()?;
    let second = u8::try_from(second).ok()?;
    DateTime::new(year, month, day, hour, minute, second)
}

/// A date and time as a GeneralizedTime, and as a time of RFC 5280 if it is one.
pub(crate) fn date(alloc: Global, text: &str) -> Result<String, AllocError> {
    let Some(at) = date_time_of(text) else {
        return String::from_str(alloc, "none");
    };
    let generalized = made(alloc, GeneralizedTime::from_date_time(alloc, at))?;
    match Time::new(at) {
        Some(time) => {
            let bytes = written(alloc, &time)?;
            format!(in alloc; "{at} {generalized}, {bytes}")
        }
        None => format!(in alloc; "{at} {generalized}"),
    }
}

/// The date and time of a text, as its own text.
pub(crate) fn parsed(alloc: Global, text: &str) -> Result<String, AllocError> {
    match text.parse::<DateTime>() {
        Ok(at) => format!(in alloc; "{at}"),
        Err(error) => format!(in alloc; "{error}"),
    }
}

/// How two times compare.
pub(crate) fn order(alloc: Global, text: &str) -> Result<String, AllocError> {
    let Some((first, second)) = text.split_once(", ") else {
        return String::from_str(alloc, "no times");
    };
    let first = match decoded::<GeneralizedTime>(alloc, first)? {
        Ok(time) => time,
        Err(error) => return Ok(error),
    };
    let second = match decoded::<GeneralizedTime>(alloc, second)? {
        Ok(time) => time,
        Err(error) => return Ok(error),
    };
    let sign = match first.cmp(&second) {
        Ordering::Less => "before",
        Ordering::Equal => "the same",
        Ordering::Greater => "after",
    };
    String::from_str(alloc, sign)
}
