//! Dates with times of day from texts.
ghost use Rattle.std.specs.Prelude.{◌≡◌, ◌<◌, ◌∷◌, [], length, IfOk, IfErr, IfSome, IfNone};
ghost use Rattle.der_types.specs.DateTimes.{date_time_text, two_digits};
ghost use Rattle.der_types.specs.DateTimeTexts.{IsNoDateTime, IsNumberOf, IsOfText};

use crate::{DateTime, TimeError};
use std::str::FromStr;

// The number below 100 that has these two digits; 0 if there is none.
fn number_of(tens: u8, ones: u8) -> u8
    ensures { IsNumberOf tens ones result }
{
    if tens.is_ascii_digit() && ones.is_ascii_digit() {
        (tens - b'0') * 10 + (ones - b'0')
    } else {
        0
    }
}

// The date and time that the digits of a text say, if it is the text of one.
fn read_from(text: &[u8]) -> Option<DateTime>
    requires { length text.now ≡ 20 }
    ensures some { IfSome result (IsOfText text.now) }
    ensures none { IfNone result (IsNoDateTime text.now) }
{
    let century = number_of(text[0], text[1]);
    let year = number_of(text[2], text[3]);
    let month = number_of(text[5], text[6]);
    let day = number_of(text[8], text[9]);
    let hour = number_of(text[11], text[12]);
    let minute = number_of(text[14], text[15]);
    let second = number_of(text[17], text[18]);
    DateTime::new(
        u16::from(century) * 100 + u16::from(year),
        month,
        day,
        hour,
        minute,
        second,
    )
}

#[tactic(auto, unfolding(crate::specs::DateTimes::date_time_text))]
fn text_of(at: DateTime) -> [u8; 20]
    ensures { result ≡ date_time_text at }
{
    let century = at.century();
    let year = (at.year % 100) as u8;
    [
        b'0' + century / 10,
        b'0' + century % 10,
        b'0' + year / 10,
        b'0' + year % 10,
        b'-',
        b'0' + at.month / 10,
        b'0' + at.month % 10,
        b'-',
        b'0' + at.day / 10,
        b'0' + at.day % 10,
        b'T',
        b'0' + at.hour / 10,
        b'0' + at.hour % 10,
        b':',
        b'0' + at.minute / 10,
        b'0' + at.minute % 10,
        b':',
        b'0' + at.second / 10,
        b'0' + at.second % 10,
        b'Z',
    ]
}

// The date and time of which this is the text.
fn date_time_of(text: &[u8]) -> Option<DateTime>
    ensures some { IfSome result (λ it. date_time_text it ≡ text.now) }
    ensures none { IfNone result (IsNoDateTime text.now) }
{
    if text.len() != 20 {
        return None;
    }
    let at = read_from(text)?;
    if text_of(at).as_slice() == text {
        Some(at)
    } else {
        None
    }
}

/// The second that the text is, as `2026-11-27T23:12:00Z`, or `OtherText`.
impl FromStr for DateTime {
    type Err = TimeError;

    ghost use Rattle.der_types.specs.declared.time_error.TimeError.TheVariants.{OtherText};

    ghost from_str_gives = { λ text made. IfOk made (λ it. date_time_text it ≡ text)
        × IfErr made (λ e. (e ≡ OtherText) × IsNoDateTime text) };

    fn from_str(text: &str) -> Result<DateTime, TimeError> {
        date_time_of(text.as_bytes()).ok_or(TimeError::OtherText)
    }
}
