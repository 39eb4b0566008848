//! What a command prints of a message.

use crate::Status;

/// The form of what is printed.
#[derive(Debug, Clone, Copy, PartialEq, Eq)]
pub enum Format {
    /// Lines of text.
    Text,
    /// Objects of JSON, one a line.
    Json,
}

/// What a command prints of a message, and its status.
#[derive(Debug, Drop)]
pub struct Printed {
    /// The lines, each with the byte 0A at its end.
    pub text: String,
    /// The status for the message.
    pub status: Status,
}
