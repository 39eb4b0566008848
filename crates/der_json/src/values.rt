//! Values.
ghost use Rattle.std.specs.Prelude.{◌≡◌, ◌<◌, true, IfOk, OnOk};
ghost use Rattle.serde_json.specs.Data.{object, member, no_members};
ghost use Rattle.serde_json.specs.View.{view};
ghost use Rattle.der_json.specs.Json.{IsArray, IsAlternative, IsAny, AreMembers, IsJson, IsOfKind};
ghost use Rattle.der_json.specs.Json.{can_be_absent, same_as, wrapped_data};

use crate::JsonError;
use crate::contents::plain_value;
use crate::part::Part;
use der_schema::{Alternative, Kind, Member, Node, Presence, Schema, begins};
use hex::encode_upper;
use picky_der_core::asn1::{Tag, Wrapper};
use serde_json::{Map, Value, push, put};
use std::alloc::Global;

/// Returns the JSON of the message that these bytes are the encoding of, by the schema of its type.
pub fn to_json(alloc: Global, schema: Schema, bytes: &[u8]) -> Result<Value, JsonError>
    ensures { IfOk result (λ value. IsJson schema.nodes.now schema.root true bytes.now (view value)) }
{
    let nodes = schema.nodes;
    Reader { alloc, nodes }.value(nodes.len(), schema.root, true, Part { bytes, place: 0 })
}

// What is read: the nodes of a schema.
#[derive(Clone, Copy)]
struct Reader {
    alloc: Global,
    nodes: &'static [Node],
}

impl Reader {
    // The kind of the node at this index, or `Schema` if it doesn't come before this many nodes.
    fn kind_before(self, limit: usize, index: u16) -> Result<Kind, JsonError>
        ensures kind { IfOk result (λ kind. IsOfKind self.nodes.now index kind) }
        ensures before { OnOk result (index < limit) }
    {
        if usize::from(index) >= limit {
            return Err(JsonError::Schema);
        }
        match self.nodes.get(usize::from(index)) {
            Some(node) => Ok(node.kind),
            None => Err(JsonError::Schema),
        }
    }

    // The JSON of a value of the type at this index, of which the bytes have the header or not.
    #[cycle(values)]
    fn value(
        self,
        limit: usize,
        index: u16,
        has_header: bool,
        part: Part<'_>,
    ) -> Result<Value, JsonError>
        ensures { IfOk result (λ value. IsJson self.nodes.now index has_header part.entry.bytes.now (view value)) }
    {
        let kind = self.kind_before(limit, index)?;
        let before = usize::from(index);
        match kind {
            Kind::Sequence(members) => {
                let content = part.content_of(Tag::SEQUENCE, has_header)?;
                self.object(before, members, content)
            }
            Kind::SequenceOf(item) => {
                let content = part.content_of(Tag::SEQUENCE, has_header)?;
                self.array(before, item, content)
            }
            Kind::SetOf(item) => {
                let content = part.content_of(Tag::SET, has_header)?;
                self.array(before, item, content)
            }
            Kind::Choice(alternatives) => self.choice(before, alternatives, has_header, part),
            Kind::Wrapped { wrapper, node } => {
                let inner = part.inside(wrapper)?;
                let value = self.value(before, node, wrapper.keeps_header(), inner)?;
                wrapped_value(self.alloc, wrapper, value)
            }
            Kind::ContentUnder { tag, node } => {
                let content = part.content_of(Tag::from(tag), has_header)?;
                self.value(before, node, false, content)
            }
            Kind::AnyElement => any_value(self.alloc, part),
            Kind::WellFormedElement => any_value(self.alloc, part),
            kind => match same_as(kind) {
                Some(node) => self.value(before, node, has_header, part),
                None => plain_value(self.alloc, kind, has_header, part),
            },
        }
    }

    // The object of the members whose encodings are the content.
    #[cycle(values)]
    fn object(
        self,
        limit: usize,
        members: &'static [Member],
        content: Part<'_>,
    ) -> Result<Value, JsonError>
        ensures { IfOk result (λ value. AreMembers self.nodes.now members.now content.entry.bytes.now no_members
            (view value)) }
    {
        let mut object = Map::new(self.alloc);
        let mut rest = content;
        for member in members {
            if !self.is_absent(member, rest) {
                let (first, after) = rest.split()?;
                let value = self.value(limit, member.node, true, first)?;
                put(&mut object, self.alloc, member.name, value)?;
                rest = after;
            }
        }
        if !rest.bytes.is_empty() {
            return Err(JsonError::Extra(rest.place));
        }
        Ok(Value::Object(object))
    }

    // The array of the items whose encodings are the content.
    #[cycle(values)]
    fn array(self, limit: usize, item: u16, content: Part<'_>) -> Result<Value, JsonError>
        ensures { IfOk result (λ value. IsArray self.nodes.now item content.entry.bytes.now (view value)) }
    {
        let mut list = Vec::new(self.alloc);
        let mut rest = content;
        while !rest.bytes.is_empty() {
            let (first, after) = rest.split()?;
            let value = self.value(limit, item, true, first)?;
            push(&mut list, value)?;
            rest = after;
        }
        Ok(Value::Array(list))
    }

    // The object of the alternative with which the bytes begin.
    #[cycle(values)]
    fn choice(
        self,
        limit: usize,
        alternatives: &'static [Alternative],
        has_header: bool,
        part: Part<'_>,
    ) -> Result<Value, JsonError>
        ensures { IfOk result (λ value. IsAlternative self.nodes.now alternatives.now has_header part.entry.bytes.now
            (view value)) }
    {
        let Some(first) = part.bytes.first() else {
            return Err(JsonError::NoElement(part.place));
        };
        let tag = Tag::from(*first);
        for alternative in alternatives {
            if begins(self.nodes, alternative.node, tag) {
                let value = self.value(limit, alternative.node, has_header, part)?;
                return named_value(self.alloc, alternative.name, value);
            }
        }
        Err(JsonError::OtherTag(part.place))
    }

    // Whether a member is absent before these bytes: it can be, and they don't begin as its values do.
    fn is_absent(self, member: &Member, rest: Part<'_>) -> bool
        ensures { result ≡ true → can_be_absent member.now.presence ≡ true }
    {
        if matches!(member.presence, Presence::Required) {
            return false;
        }
        match rest.bytes.first() {
            Some(first) => !begins(self.nodes, member.node, Tag::from(*first)),
            None => true,
        }
    }
}

// The index of the type that a kind is another name of, or some of whose values are its own.
pub(crate) fn same_as(kind: Kind) -> Option<u16>
    ensures { result ≡ same_as kind }
{
    match kind {
        Kind::Reference(node)
        | Kind::InRange { node, .. }
        | Kind::AtLeast { node, .. }
        | Kind::AtMost { node, .. }
        | Kind::Outside { node, .. }
        | Kind::Sized { node, .. }
        | Kind::Permitted { node, .. } => Some(node),
        _ => None,
    }
}

// The object of one member.
fn named_value(alloc: Global, name: &str, value: Value) -> Result<Value, JsonError>
    ensures { IfOk result (λ it. view it ≡ object (member name.now (view value) no_members)) }
{
    let mut object = Map::new(alloc);
    put(&mut object, alloc, name, value)?;
    Ok(Value::Object(object))
}

// The JSON of a value in a wrapper.
fn wrapped_value(alloc: Global, wrapper: Wrapper, value: Value) -> Result<Value, JsonError>
    ensures { IfOk result (λ it. view it ≡ wrapped_data wrapper (view value)) }
{
    match wrapper {
        Wrapper::OctetContainer | Wrapper::BitContainer => named_value(alloc, "containing", value),
        _ => Ok(value),
    }
}

// The bytes of an element of any type in hexadecimal.
fn any_value(alloc: Global, part: Part<'_>) -> Result<Value, JsonError>
    ensures { IfOk result (λ it. IsAny part.entry.bytes.now (view it)) }
{
    part.element()?;
    Ok(Value::String(encode_upper(alloc, part.bytes)?))
}
