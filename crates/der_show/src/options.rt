//! What is listed, and how.

/// What is listed of bytes.
#[derive(Debug, Clone, Copy, PartialEq, Eq)]
pub struct ShowOptions {
    /// The offset of the first element. Bytes before it aren't looked at.
    pub start: usize,
    /// Whether the listing leaves out what is inside an OCTET STRING or a BIT STRING.
    pub is_flat: bool,
    /// Whether at most 48 bytes of a value are written.
    pub is_short: bool,
    /// Whether the listing goes on after an element that breaks a rule.
    pub keeps_going: bool,
}

/// Where bytes are from.
#[derive(Debug, Clone, Copy, PartialEq, Eq)]
pub struct Source<'a> {
    /// The name of the file.
    pub file: &'a str,
    /// The number of the block of PEM in it, or `None` if the bytes are the whole file.
    pub block: Option<usize>,
}

/// The form of the lines of a listing.
#[derive(Debug, Clone, Copy, PartialEq, Eq)]
pub enum LineForm<'a> {
    /// Text in columns.
    Text,
    /// The same text for a terminal: grey columns before an element, and red ones before a broken rule.
    Coloured,
    /// JSON: an object for each line, with the source.
    Json(Source<'a>),
}
