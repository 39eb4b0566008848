//! Times whose year has two digits.
ghost use Rattle.std.specs.Prelude.{◌≡◌, ◌<◌, ◌≤◌, ◌⊎◌, drop, true, false, refl, IfSome, IfNone};
ghost use Rattle.picky_der_core.specs.Primitive.{Primitive};
ghost use Rattle.picky_der_ser.specs.Calls.{WritesPrimitive};

use crate::DateTime;
use crate::time_contents::{content_of, date_time_at, full_year, is_utc_time, number_at};
use picky_der_core::Result;
use picky_der_core::asn1::Tag;
use picky_der_core::misc::WriteExt;
use picky_der_ser::Serializer;

/// A UTCTime (X.690, 8.25, 11.8) as DER and RFC 5280 (4.1.2.5.1) have it: `YYMMDDHHMMSSZ`, a second of the years 1950
/// to 2049. Its order is that of time.
#[derive(Clone, Copy, PartialEq, Eq, PartialOrd, Ord, Hash)]
pub struct UtcTime {
    pub(crate) at: DateTime,
    ghost first: { 1950 ≤ at.year },
    ghost last: { at.year ≤ 2049 },
}

impl UtcTime {
    ghost use Rattle.der_types.specs.TimeContents.{is_utc_time};
    ghost use Rattle.der_types.specs.TimeValues.{utc_content};

    // The time with this content.
    pub(crate) fn of(content: &[u8]) -> Option<UtcTime>
        ensures some { IfSome result (λ it. utc_content it.at ≡ content.now) }
        ensures none { IfNone result (is_utc_time content.now ≡ false) }
    {
        if is_utc_time(content) {
            let year = full_year(number_at(content, 0));
            let at = date_time_at(content, 2, year);
            Some(UtcTime { at })
        } else {
            None
        }
    }

    // Writes the content under this tag.
    pub(crate) fn write_under<W: WriteExt>(
        &self,
        tag: Tag,
        serializer: &mut Serializer<W>,
    ) -> Result<usize>
        ensures { WritesPrimitive W.WriteExt.own (Primitive.bytes tag (utc_content self.now.at)) serializer.old
            result serializer.new }
    {
        let content = content_of(self.at);
        serializer.serialize_tagged_bytes(tag, &content[2..])
    }

    /// This second, or `None` where its year isn't from 1950 to 2049.
    pub fn new(at: DateTime) -> Option<UtcTime>
        ensures some { IfSome result (λ it. it.at ≡ at) }
        ensures none { IfNone result ((at.year < 1950) ⊎ (2049 < at.year)) }
    {
        if at.year < 1950 {
            return None;
        }
        if at.year > 2049 {
            return None;
        }
        Some(UtcTime { at })
    }

    /// Its date and time.
    pub fn date_time(self) -> DateTime
        ensures { result ≡ self.at }
    {
        self.at
    }
}
