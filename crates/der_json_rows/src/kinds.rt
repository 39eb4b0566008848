//! Types of kinds that the messages don't have.

use der_schema::{Alternative, Item, Kind, Member, Node, Presence, Schema};
use picky_der_core::asn1::Wrapper;

// The schema of the type with this name.
pub(crate) fn schema_of(name: &str) -> Option<Schema> {
    let root = match name.as_bytes() {
        b"Status" => 0,
        b"Reason" => 1,
        b"Number" => 2,
        b"Small" => 3,
        b"Numbers" => 4,
        b"Truth" => 5,
        b"Nothing" => 6,
        b"Relative" => 7,
        b"Wide" => 8,
        b"Wider" => 9,
        b"Text" => 10,
        b"Letter" => 11,
        b"Octets" => 12,
        b"Few" => 13,
        b"Later" => 14,
        b"Flags" => 15,
        b"Holder" => 16,
        b"Any" => 17,
        b"Pair" => 19,
        _ => return None,
    };
    Some(Schema {
        nodes: &NODES,
        root,
    })
}

static NODES: [Node; 20] = [
    Node {
        name: None,
        kind: Kind::Enumerated(&[
            Item {
                name: "good",
                number: 0,
            },
            Item {
                name: "later",
                number: 300,
            },
        ]),
    },
    Node {
        name: None,
        kind: Kind::ExtensibleEnumerated(&[Item {
            name: "good",
            number: 0,
        }]),
    },
    Node {
        name: None,
        kind: Kind::Integer,
    },
    Node {
        name: None,
        kind: Kind::Signed(16),
    },
    Node {
        name: None,
        kind: Kind::SetOf(3),
    },
    Node {
        name: None,
        kind: Kind::Boolean,
    },
    Node {
        name: None,
        kind: Kind::Null,
    },
    Node {
        name: None,
        kind: Kind::RelativeOid,
    },
    Node {
        name: None,
        kind: Kind::RestrictedString(0x1E),
    },
    Node {
        name: None,
        kind: Kind::RestrictedString(0x1C),
    },
    Node {
        name: None,
        kind: Kind::Utf8String,
    },
    Node {
        name: None,
        kind: Kind::Character,
    },
    Node {
        name: None,
        kind: Kind::OctetString,
    },
    Node {
        name: None,
        kind: Kind::Sized {
            least: 1,
            most: 2,
            node: 12,
        },
    },
    Node {
        name: None,
        kind: Kind::LaterTime,
    },
    Node {
        name: None,
        kind: Kind::NamedBits(&[]),
    },
    Node {
        name: None,
        kind: Kind::Wrapped {
            wrapper: Wrapper::BitContainer,
            node: 3,
        },
    },
    Node {
        name: None,
        kind: Kind::AnyElement,
    },
    Node {
        name: None,
        kind: Kind::Choice(&[
            Alternative {
                name: "truth",
                node: 5,
            },
            Alternative {
                name: "holder",
                node: 16,
            },
        ]),
    },
    Node {
        name: None,
        kind: Kind::Sequence(&[
            Member {
                name: "number",
                presence: Presence::Optional,
                node: 3,
            },
            Member {
                name: "value",
                presence: Presence::Required,
                node: 18,
            },
        ]),
    },
];
