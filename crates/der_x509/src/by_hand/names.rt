//! Aliases under the names that other libraries use.

use crate::{AttributeTypeAndValue, RelativeDistinguishedName};

/// A step of a name (RFC 5280, 4.1.2.4).
pub type RelativeName = RelativeDistinguishedName;

/// An attribute of a name (RFC 5280, 4.1.2.4).
pub type Attribute = AttributeTypeAndValue;
