//! What the programs have in common: what an input is, its blocks of PEM, files, lines and words, text on a line,
//! statuses, arguments, and standard input with its progress.
#![tactic(auto)]

mod arguments;
mod blocks;
mod contents;
mod guess;
mod json;
pub mod laws;
mod line;
mod lines;
mod printed;
mod progress;
mod source;
mod status;
mod text;
mod words;

pub use arguments::report;
pub use blocks::{Block, BlockFault, Blocks};
pub use contents::{Contents, Form, contents_of};
pub use guess::Guess;
pub use json::json_line;
pub use line::Line;
pub use lines::{Answers, answer_lines};
pub use printed::{Format, Printed};
pub use progress::Progress;
pub use source::{read_input, standard_input};
pub use status::Status;
pub use text::{push_bytes, push_quoted, push_text, push_text_or_bytes, shown, text_or_bytes};
pub use words::{after, first_word};
