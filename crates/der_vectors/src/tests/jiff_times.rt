//! Times of `jiff`. The seconds since 1970 are from Python's `calendar.timegm`.

use crate::tests::checks::read_back;
use der_jiff::{
    from_civil, from_timestamp, generalized_time_from_civil, generalized_time_to_civil, to_civil,
    to_timestamp, utc_time_from_civil, utc_time_to_civil,
};
use der_types::{DateTime, GeneralizedTime, UtcTime};
use jiff::{Timestamp, civil};
use std::process::Abort;
use std::test::Fail;

// So many seconds since 1970 are this date and time, both ways.
fn is_instant(rt: &impl Abort, at: Option<DateTime>, seconds: i64) -> Result<(), Fail> {
    let instant = Timestamp::from_second(seconds)?;
    same!(*rt; from_timestamp(instant), at);
    let at = at.expect(rt, "a date and time");
    same!(*rt; to_timestamp(at)?, instant);
    same!(*rt; from_civil(to_civil(at)), Some(at));
    Ok(())
}

#[test]
fn instants_are_those_of_the_calendar(rt: HostRuntime) -> Result<(), Fail> {
    is_instant(&rt, DateTime::new(1, 1, 1, 0, 0, 0), -62_135_596_800)?;
    is_instant(&rt, DateTime::new(1950, 1, 1, 0, 0, 0), -631_152_000)?;
    is_instant(&rt, DateTime::new(2000, 2, 29, 23, 59, 59), 951_868_799)?;
    is_instant(&rt, DateTime::new(2026, 11, 28, 3, 40, 0), 1_795_837_200)?;
    is_instant(&rt, DateTime::new(9999, 12, 30, 22, 0, 0), 253_402_207_200)?;
    same!(rt; from_timestamp(Timestamp::MAX), None);
    same!(rt; from_civil(civil::DateTime::MIN), None);
    Ok(())
}

#[test]
fn jiff_has_no_later_instant(rt: HostRuntime) {
    let at = DateTime::new(9999, 12, 30, 22, 0, 1).expect(&rt, "a date and time");
    same!(rt; to_timestamp(at).is_err(), true);
}

// 1950-01-01, and 2050-01-01.
#[test]
fn a_utc_time_is_of_a_hundred_years(rt: HostRuntime) -> Result<(), Fail> {
    let time: UtcTime = read_back(&rt, "17 0D 35 30 30 31 30 31 30 30 30 30 30 30 5A");
    let first = civil::DateTime::new(1950, 1, 1, 0, 0, 0, 0)?;
    same!(rt; utc_time_to_civil(time) == first, true);
    same!(rt; utc_time_from_civil(first), Some(time));
    let later = civil::DateTime::new(2050, 1, 1, 0, 0, 0, 0)?;
    same!(rt; utc_time_from_civil(later), None);
    Ok(())
}

// 20261128034000.125Z, and one of ten digits.
#[test]
fn a_fraction_is_nanoseconds(rt: HostRuntime) -> Result<(), Fail> {
    let time: GeneralizedTime = read_back(
        &rt,
        "18 13 32 30 32 36 31 31 32 38 30 33 34 30 30 30 2E 31 32 35 5A",
    );
    let at = civil::DateTime::new(2026, 11, 28, 3, 40, 0, 125_000_000)?;
    same!(rt; generalized_time_to_civil(&time) == Some(at), true);
    same!(rt; generalized_time_from_civil(rt.alloc(), at)?, Some(time));
    same!(rt; from_civil(at), None);
    same!(rt; generalized_time_from_civil(rt.alloc(), civil::DateTime::MIN)?, None);
    let time: GeneralizedTime = read_back(
        &rt,
        "18 1A 32 30 32 36 31 31 32 38 30 33 34 30 30 30 2E 30 30 30 30 30 30 30 30 30 31 5A",
    );
    same!(rt; generalized_time_to_civil(&time).is_none(), true);
    Ok(())
}
