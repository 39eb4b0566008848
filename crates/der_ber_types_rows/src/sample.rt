//! A type that has what those of messages haven't: a SET of different members, defaults of all kinds, and a BIT STRING
//! under an implicit tag.
//!
//!     Sample ::= SET {
//!         on      BOOLEAN DEFAULT TRUE,
//!         count   INTEGER DEFAULT -129,
//!         name    UTF8String,
//!         level   [0] EXPLICIT ENUMERATED { low(0), high(1) } DEFAULT high,
//!         bits    [1] IMPLICIT BIT STRING OPTIONAL,
//!         choice  CHOICE { number [2] IMPLICIT INTEGER, octets [3] IMPLICIT OCTET STRING } OPTIONAL }

use der_schema::{Alternative, DefaultValue, Item, Kind, Member, Node, Presence, Schema};
use picky_der_core::asn1::Wrapper;

/// The schema of `Sample`.
pub fn sample() -> Schema {
    Schema {
        nodes: &NODES,
        root: 13,
    }
}

// each type comes after those that it names
static NODES: [Node; 14] = [
    Node {
        name: None,
        kind: Kind::Boolean,
    },
    Node {
        name: None,
        kind: Kind::Integer,
    },
    Node {
        name: None,
        kind: Kind::Utf8String,
    },
    Node {
        name: None,
        kind: Kind::Enumerated(&[
            Item {
                name: "low",
                number: 0,
            },
            Item {
                name: "high",
                number: 1,
            },
        ]),
    },
    Node {
        name: None,
        kind: Kind::Wrapped {
            wrapper: Wrapper::Explicit(0),
            node: 3,
        },
    },
    Node {
        name: None,
        kind: Kind::BitString,
    },
    Node {
        name: None,
        kind: Kind::Wrapped {
            wrapper: Wrapper::Implicit(1),
            node: 5,
        },
    },
    Node {
        name: None,
        kind: Kind::Integer,
    },
    Node {
        name: None,
        kind: Kind::Wrapped {
            wrapper: Wrapper::Implicit(2),
            node: 7,
        },
    },
    Node {
        name: None,
        kind: Kind::OctetString,
    },
    Node {
        name: None,
        kind: Kind::Wrapped {
            wrapper: Wrapper::Implicit(3),
            node: 9,
        },
    },
    Node {
        name: None,
        kind: Kind::Choice(&[
            Alternative {
                name: "number",
                node: 8,
            },
            Alternative {
                name: "octets",
                node: 10,
            },
        ]),
    },
    Node {
        name: None,
        kind: Kind::Sequence(&[
            Member {
                name: "on",
                presence: Presence::Default(DefaultValue::True),
                node: 0,
            },
            Member {
                name: "count",
                presence: Presence::Default(DefaultValue::Number(-129)),
                node: 1,
            },
            Member {
                name: "name",
                presence: Presence::Required,
                node: 2,
            },
            Member {
                name: "level",
                presence: Presence::Default(DefaultValue::Number(1)),
                node: 4,
            },
            Member {
                name: "bits",
                presence: Presence::Optional,
                node: 6,
            },
            Member {
                name: "choice",
                presence: Presence::Optional,
                node: 11,
            },
        ]),
    },
    Node {
        name: Some("Sample"),
        kind: Kind::Wrapped {
            wrapper: Wrapper::ImplicitList(0x31),
            node: 12,
        },
    },
];
