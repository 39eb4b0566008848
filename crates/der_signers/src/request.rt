//! What is asked of messages.

use crate::line_ends::LineEnds;

/// What is asked of messages.
#[derive(Debug, Drop)]
pub struct Request {
    /// The content of messages that have none of their own. The content of others is compared with it.
    pub content: Option<Vec<u8>>,
    /// How the lines of each content end.
    pub line_ends: LineEnds,
}
