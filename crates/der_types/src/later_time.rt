//! Times of RFC 5280 from 2050 on.
ghost use Rattle.std.proofs.Common.{lit≤};
ghost use Rattle.std.specs.Prelude.{◌≡◌, ◌<◌, ◌≤◌, [], true, false, refl, IfSome, IfNone, IfOk, IfErr};
ghost use Rattle.der_types.specs.ContentsFacts.{contents_of, contents_shape};
ghost use Rattle.der_types.specs.ContentTests.{ReadsContent, RefusesContent};

use crate::time_contents::{content_of, date_time_at, is_later_time, year_at_first};
use crate::{Contents, DateTime, deserialize_contents_as};
use picky_der_core::Result;
use picky_der_core::asn1::Tag;
use picky_der_core::misc::{ReadExt, WriteExt};
use picky_der_de::{Begins, Deserialize, Deserializer};
use picky_der_ser::{Serialize, Serializer};
use std::alloc::Global;

/// A GeneralizedTime of RFC 5280 (4.1.2.5.2) where a UTCTime can't be: `YYYYMMDDHHMMSSZ`, a second of the years 2050 to
/// 9999, without a fraction. Its order is that of time.
#[derive(Clone, Copy, PartialEq, Eq, PartialOrd, Ord, Hash)]
pub struct LaterTime {
    at: DateTime,
    ghost later: { 2050 ≤ at.year },
}

impl LaterTime {
    ghost use Rattle.der_types.specs.TimeContents.{is_later_time};
    ghost use Rattle.der_types.specs.TimeValues.{generalized_content};

    // The time with this content.
    fn of(content: &[u8]) -> Option<LaterTime>
        ensures some { IfSome result (λ it. generalized_content it.at [] ≡ content.now) }
        ensures none { IfNone result (is_later_time content.now ≡ false) }
    {
        if is_later_time(content) {
            let at = date_time_at(content, 4, year_at_first(content));
            Some(LaterTime { at })
        } else {
            None
        }
    }

    /// This second, or `None` where its year is before 2050.
    pub fn new(at: DateTime) -> Option<LaterTime>
        ensures some { IfSome result (λ it. it.at ≡ at) }
        ensures none { IfNone result (at.year < 2050) }
    {
        if at.year < 2050 {
            return None;
        }
        Some(LaterTime { at })
    }

    /// Its date and time.
    pub fn date_time(self) -> DateTime
        ensures { result ≡ self.at }
    {
        self.at
    }
}

impl Contents for LaterTime {
    ghost use Rattle.der_types.specs.TimeContents.{is_later_time};
    ghost use Rattle.der_types.specs.TimeValues.{generalized_content};
    ghost use Rattle.der_types.specs.TimeLaws.{generalized-same, later-valid};

    ghost TAG = { 0x18 };

    ghost is_content = { is_later_time };

    ghost content = { λ it. generalized_content it.at [] };

    ghost equal = { ⟦<Self as PartialEq>⟧.eq };

    ghost same = { λ x y. generalized-same x.at y.at [] [] };

    const TAG: u8 = 0x18;

    fn from_content(content: Vec<u8>) -> Option<LaterTime>
        ensures some { IfSome result (λ it. generalized_content it.at [] ≡ content.items) }
        ensures none { IfNone result (is_later_time content.items ≡ false) }
    {
        LaterTime::of(&content)
    }

    fn from_short(_alloc: Global, content: &[u8]) -> Option<LaterTime> {
        LaterTime::of(content)
    }

    fn serialize_under<W: WriteExt>(
        &self,
        tag: Tag,
        serializer: &mut Serializer<W>,
    ) -> Result<usize> {
        let content = content_of(self.at);
        serializer.serialize_tagged_bytes(tag, &content)
    }

    ghost short = { lit≤ tt };

    ghost valid = { λ it. later-valid it.at it.later };

    ghost equal_so = { Prim.assumption };
}

impl Serialize for LaterTime {
    ghost use Rattle.der_types.specs.TimeValues.{generalized_content};

    ghost meaning = { contents_of 0x18 (λ it. generalized_content it.at []) };

    fn serialize<W: WriteExt>(&self, serializer: &mut Serializer<W>) -> Result<usize> {
        self.serialize_under(Tag::GENERALIZED_TIME, serializer)
    }
}

impl Deserialize for LaterTime {
    ghost use Rattle.der_types.specs.TimeContents.{is_later_time};
    ghost use Rattle.der_types.specs.TimeValues.{generalized_content};
    ghost use Rattle.der_types.specs.ContentsFacts.{contents_of, contents_shape, contents_facts};

    ghost shape = { contents_shape 0x18 };

    ghost facts = { contents_facts 0x18 (λ it. generalized_content it.at []) ⟦<Self as PartialEq>⟧.eq is_later_time
        ⟦<Self as Contents>⟧.same };

    ghost proved = { Prim.assumption };

    fn deserialize<R: ReadExt>(deserializer: &mut Deserializer<R>) -> Result<LaterTime>
        ensures read { IfOk result (λ it. ReadsContent 0x18 is_later_time deserializer.old
            deserializer.new (generalized_content it.at [])) }
        ensures refused { IfErr result (RefusesContent ⟦<LaterTime as Contents>⟧.content 0x18 is_later_time
            deserializer.old deserializer.new) }
    {
        deserialize_contents_as(deserializer)
    }
}

impl Begins for LaterTime {
    fn begins_with(tag: Tag) -> bool {
        tag == Tag::GENERALIZED_TIME
    }
}
