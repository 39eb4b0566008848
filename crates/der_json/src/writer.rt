//! Values from JSON.
ghost use Rattle.std.specs.Prelude.{◌<◌, IfErr, OnOk};
ghost use Rattle.serde_json.specs.Data.{Data};
ghost use Rattle.serde_json.specs.View.{view};
ghost use Rattle.der_json.specs.Refusals.{IsMistake, IsRefusal};

use crate::contents::plain_tag;
use crate::defaults::has_default;
use crate::limits::{broken_constraint, broken_type};
use crate::octets::{content_octets, hexadecimal_octets};
use crate::part::Part;
use crate::refusal::{FromJsonError, JsonForm, JsonMistake};
use crate::values::same_as;
use der_schema::{Alternative, Kind, Member, Node, Presence};
use picky_der_core::asn1::{Tag, Wrapper};
use picky_der_core::misc::Length;
use serde_json::{Map, Value};
use std::alloc::{AllocError, Global};

// What is written: the nodes of a schema.
#[derive(Clone, Copy)]
pub(crate) struct Writer {
    pub(crate) alloc: Global,
    pub(crate) nodes: &'static [Node],
}

impl Writer {
    // The kind of the node at this index, or `Schema` if it doesn't come before this many nodes.
    fn kind_before(self, limit: usize, index: u16) -> Result<Kind, FromJsonError>
        ensures before { OnOk result (index < limit) }
        ensures refused { (whole : Data) → IfErr result (IsRefusal whole) }
    {
        if usize::from(index) >= limit {
            return Err(self.mistake(JsonMistake::Schema));
        }
        match self.nodes.get(usize::from(index)) {
            Some(node) => Ok(node.kind),
            None => Err(self.mistake(JsonMistake::Schema)),
        }
    }

    fn mistake(self, mistake: JsonMistake) -> FromJsonError
        ensures { (whole : Data) → IsMistake mistake whole → IsRefusal whole result }
    {
        FromJsonError::of(self.alloc, mistake)
    }

    // What is written of the value of the type at this index with this JSON, with its header or without.
    #[cycle(written)]
    pub(crate) fn value(
        self,
        limit: usize,
        index: u16,
        has_header: bool,
        json: &Value,
    ) -> Result<Vec<u8>, FromJsonError>
        ensures { IfErr result (IsRefusal (view json.now)) }
    {
        let kind = self.kind_before(limit, index)?;
        let before = usize::from(index);
        match kind {
            Kind::Sequence(members) => {
                let content = self.members(before, members, json)?;
                self.plain(Tag::SEQUENCE, has_header, content)
            }
            Kind::SequenceOf(item) => {
                let content = self.items(before, item, false, json)?;
                self.plain(Tag::SEQUENCE, has_header, content)
            }
            Kind::SetOf(item) => {
                let content = self.items(before, item, true, json)?;
                self.plain(Tag::SET, has_header, content)
            }
            Kind::Choice(alternatives) => self.choice(before, alternatives, has_header, json),
            Kind::Wrapped { wrapper, node } => self.wrapped(before, wrapper, node, json),
            Kind::ContentUnder { tag, node } => {
                let content = self.value(before, node, false, json)?;
                self.plain(Tag::from(tag), has_header, content)
            }
            Kind::AnyElement | Kind::WellFormedElement => self.any(json),
            kind => match same_as(kind) {
                Some(node) => {
                    let bytes = self.value(before, node, has_header, json)?;
                    match broken_constraint(self.nodes, kind, json) {
                        Some(mistake) => Err(self.mistake(mistake)),
                        None => Ok(bytes),
                    }
                }
                None => self.without_parts(kind, has_header, json),
            },
        }
    }

    // A value without parts.
    fn without_parts(
        self,
        kind: Kind,
        has_header: bool,
        json: &Value,
    ) -> Result<Vec<u8>, FromJsonError>
        ensures { IfErr result (IsRefusal (view json.now)) }
    {
        let Some(tag) = plain_tag(kind) else {
            return Err(self.mistake(JsonMistake::Schema));
        };
        let content = content_octets(self.alloc, kind, json)?;
        if let Some(mistake) = broken_type(kind, &content, json) {
            return Err(self.mistake(mistake));
        }
        self.plain(tag, has_header, content)
    }

    // An element of any type.
    fn any(self, json: &Value) -> Result<Vec<u8>, FromJsonError>
        ensures { IfErr result (IsRefusal (view json.now)) }
    {
        let octets = hexadecimal_octets(self.alloc, json)?;
        let bytes = octets.as_slice();
        match (Part { bytes, place: 0 }).element() {
            Ok(()) => Ok(octets),
            Err(_) => Err(self.mistake(JsonMistake::Content("element"))),
        }
    }

    // What is written of a plain value with this tag and content.
    fn plain(self, tag: Tag, has_header: bool, content: Vec<u8>) -> Result<Vec<u8>, FromJsonError>
        ensures { (whole : Data) → IfErr result (IsRefusal whole) }
    {
        if has_header {
            Ok(element(self.alloc, tag, &content)?)
        } else {
            Ok(content)
        }
    }

    // What is written of a value in a wrapper.
    #[cycle(written)]
    fn wrapped(
        self,
        limit: usize,
        wrapper: Wrapper,
        node: u16,
        json: &Value,
    ) -> Result<Vec<u8>, FromJsonError>
        ensures { IfErr result (IsRefusal (view json.now)) }
    {
        if !wrapper.has_tag_number() {
            return Err(self.mistake(JsonMistake::Schema));
        }
        let inner = match wrapper {
            Wrapper::OctetContainer | Wrapper::BitContainer => self.contained(limit, node, json)?,
            _ => self.value(limit, node, wrapper.keeps_header(), json)?,
        };
        let mut content = Vec::new(self.alloc);
        if wrapper.counts_unused_bits() {
            content.push(0x00)?;
        }
        content.extend_from_slice(&inner)?;
        Ok(element(self.alloc, wrapper.tag(), &content)?)
    }

    // What is written of the value that a string contains.
    #[cycle(written)]
    fn contained(self, limit: usize, node: u16, json: &Value) -> Result<Vec<u8>, FromJsonError>
        ensures { IfErr result (IsRefusal (view json.now)) }
    {
        let Some(object) = json.as_object() else {
            return Err(self.mistake(JsonMistake::Form(JsonForm::Object)));
        };
        if let Some(name) = other_name(object, "containing") {
            return Err(self.unknown(json, name));
        }
        let Some(value) = json.get("containing") else {
            return Err(self.mistake(JsonMistake::Missing("containing")));
        };
        match self.value(limit, node, true, value) {
            Ok(inner) => Ok(inner),
            Err(error) => Err(error.in_member(self.alloc, "containing")),
        }
    }

    // What is written of the members of an object.
    #[cycle(written)]
    fn members(
        self,
        limit: usize,
        members: &'static [Member],
        json: &Value,
    ) -> Result<Vec<u8>, FromJsonError>
        ensures { IfErr result (IsRefusal (view json.now)) }
    {
        let Some(object) = json.as_object() else {
            return Err(self.mistake(JsonMistake::Form(JsonForm::Object)));
        };
        if let Some(name) = unknown_name(members, object) {
            return Err(self.unknown(json, name));
        }
        let mut content = Vec::new(self.alloc);
        for member in members {
            let encoding = self.member(limit, member, json)?;
            content.extend_from_slice(&encoding)?;
        }
        Ok(content)
    }

    // The refusal of a member with this name, which the type doesn't have.
    fn unknown(self, object: &Value, name: &str) -> FromJsonError
        ensures { IsRefusal (view object.now) result }
    {
        let error = self.mistake(JsonMistake::Unknown);
        match object.get(name) {
            Some(_) => error.in_member(self.alloc, name),
            None => error,
        }
    }

    // What is written of a member of an object: nothing if it is absent.
    #[cycle(written)]
    fn member(
        self,
        limit: usize,
        member: &'static Member,
        object: &Value,
    ) -> Result<Vec<u8>, FromJsonError>
        ensures { IfErr result (IsRefusal (view object.now)) }
    {
        let Some(value) = object.get(member.name) else {
            return match member.presence {
                Presence::Required => Err(self.mistake(JsonMistake::Missing(member.name))),
                _ => Ok(Vec::new(self.alloc)),
            };
        };
        let encoding = match self.value(limit, member.node, true, value) {
            Ok(encoding) => encoding,
            Err(error) => return Err(error.in_member(self.alloc, member.name)),
        };
        if has_default(member.presence, &encoding) {
            let error = self.mistake(JsonMistake::Default);
            return Err(error.in_member(self.alloc, member.name));
        }
        Ok(encoding)
    }

    // What is written of the items of an array. Those of a set have to ascend.
    #[cycle(written)]
    fn items(
        self,
        limit: usize,
        item: u16,
        is_set: bool,
        json: &Value,
    ) -> Result<Vec<u8>, FromJsonError>
        ensures { IfErr result (IsRefusal (view json.now)) }
    {
        let Some(array) = json.as_array() else {
            return Err(self.mistake(JsonMistake::Form(JsonForm::Array)));
        };
        let mut content = Vec::new(self.alloc);
        let mut last = Vec::new(self.alloc);
        for index in 0..array.len() {
            let Some(value) = json.get(index) else {
                return Err(self.mistake(JsonMistake::Schema));
            };
            let encoding = match self.value(limit, item, true, value) {
                Ok(encoding) => encoding,
                Err(error) => return Err(error.in_item(index)),
            };
            if is_set && encoding.as_slice().cmp(last.as_slice()).is_lt() {
                return Err(self.mistake(JsonMistake::Order).in_item(index));
            }
            content.extend_from_slice(&encoding)?;
            last = encoding;
        }
        Ok(content)
    }

    // What is written of the alternative that an object of one member names.
    #[cycle(written)]
    fn choice(
        self,
        limit: usize,
        alternatives: &'static [Alternative],
        has_header: bool,
        json: &Value,
    ) -> Result<Vec<u8>, FromJsonError>
        ensures { IfErr result (IsRefusal (view json.now)) }
    {
        let Some(name) = only_name(json) else {
            return Err(self.mistake(JsonMistake::Form(JsonForm::Alternative)));
        };
        let Some(value) = json.get(name) else {
            return Err(self.mistake(JsonMistake::Form(JsonForm::Alternative)));
        };
        for alternative in alternatives {
            if alternative.name == name {
                return match self.value(limit, alternative.node, has_header, value) {
                    Ok(bytes) => Ok(bytes),
                    Err(error) => Err(error.in_member(self.alloc, name)),
                };
            }
        }
        let error = self.mistake(JsonMistake::Unknown);
        Err(error.in_member(self.alloc, name))
    }
}

// The bytes of an element with this tag and content.
fn element(alloc: Global, tag: Tag, content: &[u8]) -> Result<Vec<u8>, AllocError> {
    let mut bytes = Vec::new(alloc);
    bytes.push(tag.inner())?;
    bytes.extend_from_slice(&Length::bytes(content.len()))?;
    bytes.extend_from_slice(content)?;
    Ok(bytes)
}

// The first name of an object that none of these members has.
fn unknown_name<'a>(members: &[Member], object: &'a Map<String, Value>) -> Option<&'a str> {
    for (name, _) in object.iter() {
        if !has_name(members, name) {
            return Some(name.as_str());
        }
    }
    None
}

// The first name of an object that is another than this.
fn other_name<'a>(object: &'a Map<String, Value>, own: &str) -> Option<&'a str> {
    for (name, _) in object.iter() {
        if name.as_str() != own {
            return Some(name.as_str());
        }
    }
    None
}

fn has_name(members: &[Member], name: &str) -> bool {
    for member in members {
        if member.name == name {
            return true;
        }
    }
    false
}

// The name of the only member of an object.
fn only_name(json: &Value) -> Option<&str> {
    let object = json.as_object()?;
    if object.len() != 1 {
        return None;
    }
    let mut members = object.iter();
    let (name, _) = members.next()?;
    Some(name.as_str())
}
