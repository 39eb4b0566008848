//! Times as times of another form.
ghost use Rattle.std.specs.Prelude.{◌≡◌, ◌⊎◌, ◌<◌, IfOk, IfErr};

use crate::{DateTime, LaterTime, Time, TimeError, UtcTime};
use std::convert::TryFrom;

/// The same second.
impl From<UtcTime> for DateTime {
    ghost from_gives = { λ time at. at ≡ time.at };

    fn from(time: UtcTime) -> DateTime {
        time.date_time()
    }
}

/// The same second.
impl From<LaterTime> for DateTime {
    ghost from_gives = { λ time at. at ≡ time.at };

    fn from(time: LaterTime) -> DateTime {
        time.date_time()
    }
}

/// The same second.
impl From<Time> for DateTime {
    ghost use Rattle.der_types.specs.TimeChoice.{date_time_of};

    ghost from_gives = { λ time at. at ≡ date_time_of time };

    fn from(time: Time) -> DateTime {
        time.date_time()
    }
}

/// The same second.
impl From<UtcTime> for Time {
    ghost use Rattle.der_types.specs.declared.time.Time.TheVariants.{Utc};

    ghost from_gives = { λ time it. it ≡ Utc time };

    fn from(time: UtcTime) -> Time {
        Time::Utc(time)
    }
}

/// The same second.
impl From<LaterTime> for Time {
    ghost use Rattle.der_types.specs.declared.time.Time.TheVariants.{Generalized};

    ghost from_gives = { λ time it. it ≡ Generalized time };

    fn from(time: LaterTime) -> Time {
        Time::Generalized(time)
    }
}

/// The same second; `OtherYear` if its year isn't from 1950 to 2049.
impl TryFrom<DateTime> for UtcTime {
    ghost use Rattle.der_types.specs.declared.time_error.TimeError.TheVariants.{OtherYear};

    type Error = TimeError;

    ghost try_from_gives = { λ at made. IfOk made (λ it. it.at ≡ at)
        × IfErr made (λ e. (e ≡ OtherYear) × ((at.year < 1950) ⊎ (2049 < at.year))) };

    fn try_from(at: DateTime) -> Result<UtcTime, TimeError> {
        match UtcTime::new(at) {
            Some(time) => Ok(time),
            None => Err(TimeError::OtherYear),
        }
    }
}

/// The same second; `OtherYear` if its year is before 2050.
impl TryFrom<DateTime> for LaterTime {
    ghost use Rattle.der_types.specs.declared.time_error.TimeError.TheVariants.{OtherYear};

    type Error = TimeError;

    ghost try_from_gives = { λ at made. IfOk made (λ it. it.at ≡ at)
        × IfErr made (λ e. (e ≡ OtherYear) × (at.year < 2050)) };

    fn try_from(at: DateTime) -> Result<LaterTime, TimeError> {
        match LaterTime::new(at) {
            Some(time) => Ok(time),
            None => Err(TimeError::OtherYear),
        }
    }
}

/// The same second; `OtherYear` if its year is before 1950.
impl TryFrom<DateTime> for Time {
    ghost use Rattle.der_types.specs.TimeChoice.{date_time_of};
    ghost use Rattle.der_types.specs.declared.time_error.TimeError.TheVariants.{OtherYear};

    type Error = TimeError;

    ghost try_from_gives = { λ at made. IfOk made (λ it. date_time_of it ≡ at)
        × IfErr made (λ e. (e ≡ OtherYear) × (at.year < 1950)) };

    fn try_from(at: DateTime) -> Result<Time, TimeError> {
        match Time::new(at) {
            Some(time) => Ok(time),
            None => Err(TimeError::OtherYear),
        }
    }
}
