//! Paths and mistakes as text.
ghost use Rattle.std.specs.Prelude.{◌≡◌, IfOk, OnOk, string_bytes};
ghost use Rattle.der_error_path.specs.Names.{names_of, then_name, then_part};

use crate::expected::Part;
use crate::{ErrorPath, Mistake, Step};
use der_schema::{Kind, Node, Schema};
use picky_der_core::asn1::{Tag, Wrapper};
use std::alloc::{AllocError, Global};

impl ErrorPath {
    /// Returns the path by names, as `tbsCertificate.extensions[3].extnID`: a member by its name, an item by its index
    /// in brackets, and what has no type by its index. The text is empty for the value itself.
    ///
    /// `AllocError` if an allocation fails.
    pub fn names(&self, alloc: Global) -> Result<String, AllocError>
        ensures { IfOk result (λ text. string_bytes text ≡ names_of self.now.steps.items) }
    {
        let mut text = String::new(alloc);
        for step in &self.steps {
            push_part(alloc, &mut text, step)?;
        }
        Ok(text)
    }

    /// Returns what is wrong, as `expected OBJECT IDENTIFIER, found UTF8String (X.690, 8.1.2)`, with the clause.
    ///
    /// `AllocError` if an allocation fails.
    pub fn reason(&self, alloc: Global, schema: Schema) -> Result<String, AllocError> {
        let Some(step) = self.steps.last() else {
            return String::from_str(alloc, "no element (X.690, 8.1.1)");
        };
        let found = found_name(alloc, Tag::from(step.identifier))?;
        let expected = expected_name(alloc, schema.nodes, step)?;
        match self.mistake {
            Mistake::Extra => format!(in alloc; "expected nothing, found {found} (X.680, 25)"),
            Mistake::OtherTag => format!(in alloc;
                "expected {expected}, found {found} (X.690, 8.1.2)"
            ),
            Mistake::NoElement => format!(in alloc;
                "{found} that is cut short or of another length (X.690, 8.1.3, 10.1)"
            ),
            Mistake::Missing(name) => format!(in alloc; "no {name} (X.680, 25)"),
            Mistake::Default => String::from_str(
                alloc,
                "a default that is written out (X.690, 11.5)",
            ),
            Mistake::Order => String::from_str(alloc, "less than the one before it (X.690, 11.6)"),
            Mistake::Content => {
                let clause = clause_of(schema.nodes, step);
                format!(in alloc; "no {expected} of DER (X.690, {clause})")
            }
        }
    }
}

// Appends what a step is.
fn push_part(alloc: Global, text: &mut String, step: &Step) -> Result<(), AllocError>
    ensures { OnOk result (string_bytes text.new ≡ then_part (string_bytes text.old) step.now.index step.now.part) }
{
    match step.part {
        Part::Value => Ok(()),
        Part::Member(name) => push_name(text, name),
        Part::Item => {
            let item = format!(in alloc; "[{}]", step.index)?;
            text.push_str(&item)
        }
        Part::Extra | Part::Unknown => {
            let index = format!(in alloc; "{}", step.index)?;
            push_name(text, &index)
        }
    }
}

// Appends a name, after a point if it isn't the first.
fn push_name(text: &mut String, name: &str) -> Result<(), AllocError>
    ensures { OnOk result (string_bytes text.new ≡ then_name (string_bytes text.old) name.now) }
{
    if !text.is_empty() {
        text.push('.')?;
    }
    text.push_str(name)
}

// What the standard calls the types with a universal tag, and else the tag.
fn found_name(alloc: Global, tag: Tag) -> Result<String, AllocError> {
    let name = match tag.inner() {
        0x01 => Some("BOOLEAN"),
        0x02 => Some("INTEGER"),
        0x03 => Some("BIT STRING"),
        0x04 => Some("OCTET STRING"),
        0x05 => Some("NULL"),
        0x06 => Some("OBJECT IDENTIFIER"),
        0x0A => Some("ENUMERATED"),
        0x0C => Some("UTF8String"),
        0x17 => Some("UTCTime"),
        0x18 => Some("GeneralizedTime"),
        0x30 => Some("SEQUENCE"),
        0x31 => Some("SET"),
        other => Kind::RestrictedString(other).name(),
    };
    match name {
        Some(name) => String::from_str(alloc, name),
        None => tag_text(alloc, tag),
    }
}

// A tag as ASN.1 has it, with its class unless that is context-specific (X.680, 31.2).
fn tag_text(alloc: Global, tag: Tag) -> Result<String, AllocError> {
    let number = tag.number();
    match tag.inner() / 64 {
        0 => format!(in alloc; "[UNIVERSAL {number}]"),
        1 => format!(in alloc; "[APPLICATION {number}]"),
        2 => format!(in alloc; "[{number}]"),
        _ => format!(in alloc; "[PRIVATE {number}]"),
    }
}

// What is expected where this step is.
fn expected_name(alloc: Global, nodes: &[Node], step: &Step) -> Result<String, AllocError> {
    match kind_of(nodes, step.node) {
        Some(Kind::Wrapped { wrapper, .. }) => match tag_in(wrapper) {
            Some(tag) => found_name(alloc, tag),
            None => String::from_str(alloc, "another tag"),
        },
        Some(Kind::ContentUnder { tag, .. }) => tag_text(alloc, Tag::from(tag)),
        Some(kind) => String::from_str(alloc, kind.name().unwrap_or("another type")),
        None => found_name(alloc, Tag::from(step.identifier)),
    }
}

fn tag_in(wrapper: Wrapper) -> Option<Tag> {
    if wrapper.has_tag_number() {
        Some(wrapper.tag())
    } else {
        None
    }
}

// The kind of a node's type, without names and constraints.
fn kind_of(nodes: &[Node], start: Option<u16>) -> Option<Kind> {
    let mut index = start?;
    while let Some(node) = nodes.get(usize::from(index)) {
        let inner = match node.kind {
            Kind::Reference(node)
            | Kind::InRange { node, .. }
            | Kind::AtLeast { node, .. }
            | Kind::AtMost { node, .. }
            | Kind::Outside { node, .. }
            | Kind::Sized { node, .. }
            | Kind::Permitted { node, .. } => node,
            kind => return Some(kind),
        };
        if inner >= index {
            return None;
        }
        index = inner;
    }
    None
}

// The clauses of X.690 on the contents of a type.
fn clause_of(nodes: &[Node], step: &Step) -> &'static str {
    match kind_of(nodes, step.node) {
        Some(Kind::Boolean) => "8.2, 11.1",
        Some(Kind::Integer | Kind::NamedInteger(_) | Kind::Unsigned(_) | Kind::Signed(_)) => "8.3",
        Some(Kind::Enumerated(_) | Kind::ExtensibleEnumerated(_)) => "8.4",
        Some(Kind::BitString | Kind::NamedBits(_)) => "8.6, 11.2",
        Some(Kind::Null) => "8.8",
        Some(Kind::ObjectIdentifier) => "8.19",
        Some(Kind::RelativeOid) => "8.20",
        Some(Kind::UtcTime) => "11.8",
        Some(Kind::GeneralizedTime | Kind::LaterTime) => "11.7",
        Some(Kind::SetOf(_)) => "8.12, 11.6",
        Some(Kind::Utf8String | Kind::Character | Kind::RestrictedString(_)) => "8.23",
        _ => "8.1, 11",
    }
}
