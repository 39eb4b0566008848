//! What is at an index, what is inside of a type, its tag, and what the standard calls it.
ghost use Rattle.std.specs.Prelude.{◌≡◌, slice_get, option_map};
ghost use Rattle.der_schema.specs.Kinds.{inner_of, kind_name, string_name};
ghost use Rattle.der_schema.specs.Tags.{own_tag, own_wrapper_tag};

use crate::{Kind, Node, Schema};
use picky_der_core::asn1::{Tag, Wrapper};

impl Schema {
    /// The node at an index, or `None` past the end of the table.
    pub fn node(self, index: u16) -> Option<Node>
        ensures { result ≡ slice_get self.nodes.now index }
    {
        node_at(self.nodes, index)
    }
}

/// The node at an index, or `None` past the end of the table.
pub fn node_at(nodes: &[Node], index: u16) -> Option<Node>
    ensures { result ≡ slice_get nodes.now index }
{
    nodes.get(usize::from(index)).copied()
}

impl Kind {
    /// The index of the one type inside: of a reference, a list, a tag or a constraint. Any other kind has `None`.
    pub fn inner(self) -> Option<u16>
        ensures { result ≡ inner_of self }
    {
        match self {
            Kind::Reference(node)
            | Kind::SequenceOf(node)
            | Kind::SetOf(node)
            | Kind::Wrapped { node, .. }
            | Kind::ContentUnder { node, .. }
            | Kind::InRange { node, .. }
            | Kind::AtLeast { node, .. }
            | Kind::AtMost { node, .. }
            | Kind::Outside { node, .. }
            | Kind::Sized { node, .. }
            | Kind::Permitted { node, .. } => Some(node),
            _ => None,
        }
    }

    /// The only tag of the type's elements (X.680, table 1). It is `None` for a CHOICE, for any element, and for a kind
    /// whose values have the tags of those inside.
    pub fn own_tag(self) -> Option<Tag>
        ensures { result ≡ own_tag self }
    {
        match self {
            Kind::Boolean => Some(Tag::BOOLEAN),
            Kind::Integer | Kind::NamedInteger(_) => Some(Tag::INTEGER),
            Kind::Unsigned(_) | Kind::Signed(_) => Some(Tag::INTEGER),
            Kind::Enumerated(_) | Kind::ExtensibleEnumerated(_) => Some(Tag::ENUMERATED),
            Kind::BitString | Kind::NamedBits(_) => Some(Tag::BIT_STRING),
            Kind::OctetString => Some(Tag::OCTET_STRING),
            Kind::Null => Some(Tag::NULL),
            Kind::ObjectIdentifier => Some(Tag::OID),
            Kind::RelativeOid => Some(Tag::RELATIVE_OID),
            Kind::Utf8String | Kind::Character => Some(Tag::UTF8_STRING),
            Kind::GeneralizedTime | Kind::LaterTime => Some(Tag::GENERALIZED_TIME),
            Kind::UtcTime => Some(Tag::UTC_TIME),
            Kind::Sequence(_) | Kind::SequenceOf(_) => Some(Tag::SEQUENCE),
            Kind::SetOf(_) => Some(Tag::SET),
            Kind::RestrictedString(tag) | Kind::AnyContent(tag) => Some(Tag::from(tag)),
            Kind::ContentUnder { tag, .. } => Some(Tag::from(tag)),
            Kind::Wrapped { wrapper, .. } => own_wrapper_tag(wrapper),
            _ => None,
        }
    }

    /// What the standard calls the type (X.680), or `None` for a name of another type, a tag, a constraint and a
    /// content of any type.
    pub fn name(self) -> Option<&'static str>
        ensures { option_map (λ name. name.now) result ≡ kind_name self }
    {
        match self {
            Kind::Boolean => Some("BOOLEAN"),
            Kind::Integer | Kind::NamedInteger(_) => Some("INTEGER"),
            Kind::Unsigned(_) | Kind::Signed(_) => Some("INTEGER"),
            Kind::Enumerated(_) | Kind::ExtensibleEnumerated(_) => Some("ENUMERATED"),
            Kind::BitString | Kind::NamedBits(_) => Some("BIT STRING"),
            Kind::OctetString => Some("OCTET STRING"),
            Kind::Null => Some("NULL"),
            Kind::ObjectIdentifier => Some("OBJECT IDENTIFIER"),
            Kind::RelativeOid => Some("RELATIVE-OID"),
            Kind::Utf8String | Kind::Character => Some("UTF8String"),
            Kind::RestrictedString(tag) => string_name(tag),
            Kind::GeneralizedTime | Kind::LaterTime => Some("GeneralizedTime"),
            Kind::UtcTime => Some("UTCTime"),
            Kind::AnyElement | Kind::WellFormedElement => Some("ANY"),
            Kind::Sequence(_) => Some("SEQUENCE"),
            Kind::Choice(_) => Some("CHOICE"),
            Kind::SequenceOf(_) => Some("SEQUENCE OF"),
            Kind::SetOf(_) => Some("SET OF"),
            _ => None,
        }
    }
}

// The tag of a wrapper, unless its number is past 30.
fn own_wrapper_tag(wrapper: Wrapper) -> Option<Tag>
    ensures { result ≡ own_wrapper_tag wrapper }
{
    if wrapper.has_tag_number() {
        Some(wrapper.tag())
    } else {
        None
    }
}

// the name of a restricted string by its identifier byte (X.680, 41, table 8, and 48.3)
fn string_name(tag: u8) -> Option<&'static str>
    ensures { option_map (λ name. name.now) result ≡ string_name tag }
{
    match tag {
        0x07 => Some("ObjectDescriptor"),
        0x12 => Some("NumericString"),
        0x13 => Some("PrintableString"),
        0x14 => Some("TeletexString"),
        0x15 => Some("VideotexString"),
        0x16 => Some("IA5String"),
        0x19 => Some("GraphicString"),
        0x1A => Some("VisibleString"),
        0x1B => Some("GeneralString"),
        0x1C => Some("UniversalString"),
        0x1E => Some("BMPString"),
        _ => None,
    }
}
