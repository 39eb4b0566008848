//! What may come in a content.
ghost use Rattle.std.specs.Prelude.{◌≡◌, option_map};
ghost use Rattle.der_error_path.specs.Awaited.{awaited, awaited_after, part_of, default_of, required_in};
ghost use Rattle.der_error_path.specs.Awaited.{default_in, first_required, is_required, present_from};

use der_schema::{DefaultValue, Member, Node, Presence, begins};
use picky_der_core::asn1::Tag;

/// What an element is in the one around it.
#[derive(Debug, Clone, Copy, PartialEq, Eq)]
pub enum Part {
    /// The value itself, or the one in a tag.
    Value,
    /// The member with this name.
    Member(&'static str),
    /// An item of a SEQUENCE OF or a SET OF.
    Item,
    /// Nothing that the type has.
    Extra,
    /// A part of an element whose type isn't known.
    Unknown,
}

// What may come next in a content.
#[derive(Clone, Copy)]
pub(crate) enum Expected {
    // A value of this node's type.
    Value(u16),
    // These members.
    Members(&'static [Member]),
    // Any number of values of this node's type, in ascending order if they are sorted.
    Items { node: u16, are_sorted: bool },
    // Nothing.
    End,
    // Anything.
    Unknown,
}

impl Expected {
    // What an element with this tag is, and the index of its node, if it has one.
    pub(crate) fn part(self, nodes: &[Node], tag: Tag) -> (Part, Option<u16>)
        ensures { result ≡ part_of nodes.now tag (awaited self) }
    {
        match self {
            Expected::Value(node) => (Part::Value, Some(node)),
            Expected::Members(members) => match present_from(nodes, members, tag) {
                [member, ..] => (Part::Member(member.name), Some(member.node)),
                [] => (Part::Extra, None),
            },
            Expected::Items { node, .. } => (Part::Item, Some(node)),
            Expected::End => (Part::Extra, None),
            Expected::Unknown => (Part::Unknown, None),
        }
    }

    // What may come after an element with this tag.
    pub(crate) fn after(self, nodes: &[Node], tag: Tag) -> Expected
        ensures { awaited result ≡ awaited_after nodes.now tag (awaited self) }
    {
        match self {
            Expected::Value(_) | Expected::End => Expected::End,
            Expected::Members(members) => match present_from(nodes, members, tag) {
                [_, others @ ..] => Expected::Members(others),
                [] => Expected::End,
            },
            Expected::Items { .. } | Expected::Unknown => self,
        }
    }

    // The value with which an element with this tag would be absent, if it is a member that has a default.
    pub(crate) fn default(self, nodes: &[Node], tag: Tag) -> Option<DefaultValue>
        ensures { result ≡ default_in nodes.now tag (awaited self) }
    {
        match self {
            Expected::Members(members) => match present_from(nodes, members, tag) {
                [member, ..] => default_of(member.presence),
                [] => None,
            },
            _ => None,
        }
    }

    // The name of the first member that has to come, if one has.
    pub(crate) fn required(self) -> Option<&'static str>
        ensures { result ≡ option_map (λ m. m.name) (required_in (awaited self)) }
    {
        match self {
            Expected::Members(members) => first_required(members),
            _ => None,
        }
    }
}

// Whether a member always comes.
fn is_required(presence: Presence) -> bool
    ensures { result ≡ is_required presence }
{
    matches!(presence, Presence::Required)
}

// The value of a member that is absent, if it has a default.
fn default_of(presence: Presence) -> Option<DefaultValue>
    ensures { result ≡ default_of presence }
{
    match presence {
        Presence::Default(value) | Presence::DefaultOf(value) => Some(value),
        Presence::Required | Presence::Optional => None,
    }
}

// The name of the first of these members that has to come, if one has.
fn first_required(members: &'static [Member]) -> Option<&'static str>
    ensures { result ≡ option_map (λ m. m.name) (first_required members.now) }
{
    let mut left = members;
    while let [first, others @ ..] = left {
        if is_required(first.presence) {
            return Some(first.name);
        }
        left = others;
    }
    None
}

// The members from the one on that an element with this tag is, if those before it are absent. It is the first one that
// can begin with the tag or that has to come.
fn present_from(nodes: &[Node], members: &'static [Member], tag: Tag) -> &'static [Member]
    ensures { result.now ≡ present_from nodes.now tag members.now }
{
    let mut left = members;
    while let [first, others @ ..] = left {
        if is_required(first.presence) || begins(nodes, first.node, tag) {
            return left;
        }
        left = others;
    }
    left
}
