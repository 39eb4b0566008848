//! Strings in parts (X.690, 8.6.4, 8.7.3, 8.23.3).
ghost use Rattle.std.specs.Prelude.{◌≡◌, MatchOption};
ghost use Rattle.der_ber.specs.Strings.{is_octets, segment_tag, segment_first, segment_at, IsStringAt};

use picky_der_core::asn1::Tag;

// What becomes of universal strings in parts.
#[derive(Clone, Copy)]
pub(crate) enum Strings {
    // They stay in parts.
    InParts,
    // Each becomes primitive.
    Whole,
}

// A string that becomes primitive.
#[derive(Clone, Copy)]
pub(crate) struct WholeString {
    // Its tag as a primitive one.
    pub(crate) tag: Tag,
    // The tag of the primitive ones of its parts.
    pub(crate) segment: Tag,
}

impl Strings {
    // The string at the front of bytes, if one in parts is there that becomes primitive.
    pub(crate) fn string_at(self, bytes: &[u8]) -> Option<WholeString>
        ensures { MatchOption result (segment_at self bytes.now ≡ None) (IsStringAt self bytes.now) }
    {
        match self {
            Strings::InParts => None,
            Strings::Whole => string_of(bytes),
        }
    }
}

// The same of any string in parts.
fn string_of(bytes: &[u8]) -> Option<WholeString>
    ensures { MatchOption result (segment_first bytes.now ≡ None)
        (IsStringAt Strings.Whole bytes.now) }
{
    let [first, ..] = bytes else {
        return None;
    };
    let tag = Tag::from(*first);
    let segment = segment_tag(tag)?;
    Some(WholeString {
        tag: Tag::from(tag.number()),
        segment,
    })
}

// The tag of the parts of a string, if this is the tag of one in parts.
fn segment_tag(tag: Tag) -> Option<Tag>
    ensures { result ≡ segment_tag tag }
{
    if tag.inner() == 0x23 {
        Some(Tag::BIT_STRING)
    } else if is_octets(tag.inner()) {
        Some(Tag::OCTET_STRING)
    } else {
        None
    }
}

// Whether it is the tag of a string whose parts are octet strings.
fn is_octets(tag: u8) -> bool
    ensures { result ≡ is_octets tag }
{
    tag == 0x24 || tag == 0x27 || tag == 0x2C || (0x32 <= tag && tag <= 0x3C) || tag == 0x3E
}
