//! A schema by hand.
//!
//! ```text
//! Order ::= SEQUENCE {
//!     number INTEGER,
//!     buyer SEQUENCE { name PrintableString, tax OBJECT IDENTIFIER OPTIONAL },
//!     lines SEQUENCE OF SEQUENCE { count INTEGER, what UTF8String },
//!     marks SET OF INTEGER,
//!     paid BOOLEAN DEFAULT FALSE,
//!     placed UTCTime,
//!     delivery CHOICE { shop [0] INTEGER, home [1] EXPLICIT UTF8String }
//! }
//! ```

use der_schema::{Alternative, DefaultValue, Kind, Member, Node, Presence, Schema};
use picky_der_core::asn1::Wrapper;

/// The schema of `Order`.
pub fn order() -> Schema {
    Schema {
        nodes: &NODES,
        root: 13,
    }
}

static NODES: [Node; 14] = [
    Node {
        name: None,
        kind: Kind::Integer,
    },
    Node {
        name: None,
        kind: Kind::RestrictedString(0x13),
    },
    Node {
        name: None,
        kind: Kind::ObjectIdentifier,
    },
    Node {
        name: None,
        kind: Kind::Utf8String,
    },
    Node {
        name: None,
        kind: Kind::Boolean,
    },
    Node {
        name: None,
        kind: Kind::UtcTime,
    },
    Node {
        name: None,
        kind: Kind::Sequence(&[
            Member {
                name: "name",
                presence: Presence::Required,
                node: 1,
            },
            Member {
                name: "tax",
                presence: Presence::Optional,
                node: 2,
            },
        ]),
    },
    Node {
        name: None,
        kind: Kind::Sequence(&[
            Member {
                name: "count",
                presence: Presence::Required,
                node: 0,
            },
            Member {
                name: "what",
                presence: Presence::Required,
                node: 3,
            },
        ]),
    },
    Node {
        name: None,
        kind: Kind::SequenceOf(7),
    },
    Node {
        name: None,
        kind: Kind::SetOf(0),
    },
    Node {
        name: None,
        kind: Kind::ContentUnder { tag: 0x80, node: 0 },
    },
    Node {
        name: None,
        kind: Kind::Wrapped {
            wrapper: Wrapper::Explicit(1),
            node: 3,
        },
    },
    Node {
        name: None,
        kind: Kind::Choice(&[
            Alternative {
                name: "shop",
                node: 10,
            },
            Alternative {
                name: "home",
                node: 11,
            },
        ]),
    },
    Node {
        name: Some("Order"),
        kind: Kind::Sequence(&[
            Member {
                name: "number",
                presence: Presence::Required,
                node: 0,
            },
            Member {
                name: "buyer",
                presence: Presence::Required,
                node: 6,
            },
            Member {
                name: "lines",
                presence: Presence::Required,
                node: 8,
            },
            Member {
                name: "marks",
                presence: Presence::Required,
                node: 9,
            },
            Member {
                name: "paid",
                presence: Presence::Default(DefaultValue::False),
                node: 4,
            },
            Member {
                name: "placed",
                presence: Presence::Required,
                node: 5,
            },
            Member {
                name: "delivery",
                presence: Presence::Required,
                node: 12,
            },
        ]),
    },
];
