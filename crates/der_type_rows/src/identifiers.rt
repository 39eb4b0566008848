//! Object identifiers, and relative ones.

use crate::outcomes::Shown;
use der_types::{ObjectIdentifier, RelativeOid, names};
use std::alloc::{AllocError, Global};

// Its arcs, and its name if it has one. Its arcs, its content and its text must each give the same object identifier.
impl Shown for ObjectIdentifier {
    fn shown(&self, alloc: Global) -> Result<String, AllocError> {
        let name = names::name_of(self.content()).unwrap_or("-");
        let text = format!(in alloc; "{self}")?;
        let mut arcs = Vec::new(alloc);
        for arc in self.arcs() {
            match arc {
                Ok(arc) => arcs.push(arc)?,
                Err(error) => return format!(in alloc; "{text} {name} {error}"),
            }
        }
        let of_arcs = ObjectIdentifier::from_arcs(alloc, &arcs);
        let of_content = ObjectIdentifier::from_bytes(alloc, self.content());
        let same = match (of_arcs, of_content) {
            (Ok(one), Ok(other)) => one.is(self.content()) && other.is(self.content()),
            _ => false,
        };
        format!(in alloc; "{text} {name} {same}")
    }
}

impl Shown for RelativeOid {
    fn shown(&self, alloc: Global) -> Result<String, AllocError> {
        format!(in alloc; "{self}")
    }
}
