//! Times as texts.
ghost use Rattle.std.specs.Prelude.{Some};
ghost use Rattle.der_types.specs.DateTimes.{date_time_text};
ghost use Rattle.der_types.specs.TimeChoice.{date_time_of};

use crate::{DateTime, GeneralizedTime, LaterTime, Time, UtcTime};
use std::fmt;

// Writes bytes as the characters with their numbers.
fn write_characters<W: fmt::Write>(bytes: &[u8], f: &mut fmt::Formatter<W>) -> fmt::Result {
    for byte in bytes {
        f.write_char(char::from(*byte))?;
    }
    Ok(())
}

/// It prints as its date and time with its fraction, as `2026-11-27T23:12:00.5Z`.
impl fmt::Display for GeneralizedTime {
    fn fmt<W: fmt::Write>(&self, f: &mut fmt::Formatter<W>) -> fmt::Result {
        let content = self.content();
        write_characters(&content[..4], f)?;
        f.write_char('-')?;
        write_characters(&content[4..6], f)?;
        f.write_char('-')?;
        write_characters(&content[6..8], f)?;
        f.write_char('T')?;
        write_characters(&content[8..10], f)?;
        f.write_char(':')?;
        write_characters(&content[10..12], f)?;
        f.write_char(':')?;
        write_characters(&content[12..], f)
    }
}

/// It prints as its date and time.
impl fmt::Display for UtcTime {
    ghost output = { λ it. Some (date_time_text it.at) };

    fn fmt<W: fmt::Write>(&self, f: &mut fmt::Formatter<W>) -> fmt::Result {
        self.date_time().fmt(f)
    }
}

/// It prints as its date and time.
impl fmt::Display for LaterTime {
    ghost output = { λ it. Some (date_time_text it.at) };

    fn fmt<W: fmt::Write>(&self, f: &mut fmt::Formatter<W>) -> fmt::Result {
        self.date_time().fmt(f)
    }
}

/// It prints as its date and time.
impl fmt::Display for Time {
    ghost output = { λ it. Some (date_time_text (date_time_of it)) };

    fn fmt<W: fmt::Write>(&self, f: &mut fmt::Formatter<W>) -> fmt::Result {
        self.date_time().fmt(f)
    }
}

/// It prints as its text.
impl fmt::Debug for DateTime {
    ghost debug_output = { ⟦<Self as fmt::Display>⟧.output };

    fn fmt<W: fmt::Write>(&self, f: &mut fmt::Formatter<W>) -> fmt::Result {
        fmt::Display::fmt(self, f)
    }
}

/// It prints as its text.
impl fmt::Debug for LaterTime {
    ghost debug_output = { ⟦<Self as fmt::Display>⟧.output };

    fn fmt<W: fmt::Write>(&self, f: &mut fmt::Formatter<W>) -> fmt::Result {
        fmt::Display::fmt(self, f)
    }
}

/// It prints as its text.
impl fmt::Debug for Time {
    ghost debug_output = { ⟦<Self as fmt::Display>⟧.output };

    fn fmt<W: fmt::Write>(&self, f: &mut fmt::Formatter<W>) -> fmt::Result {
        fmt::Display::fmt(self, f)
    }
}
