//! The types of ASN.1 as data: a table of nodes with the names of types, members, alternatives, items and bits.
//!
//! `specs/NotationOf.antt` says which type a table is. Nothing is said of the names: they are what the compiler read.
#![tactic(auto)]

mod access;
mod first_tags;
mod node;

pub use access::node_at;
pub use first_tags::begins;
pub use node::{Alternative, DefaultValue, Item, Kind, Member, Node, Presence, Schema};
