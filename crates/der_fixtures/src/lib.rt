//! Helpers of tests: bytes as text, and readers and writers that transfer one byte per call or fail.
#![tactic(auto)]

mod hexadecimal;
mod reader;
mod writer;

pub use hexadecimal::{bytes_of, text_of};
pub use reader::{FailingReader, SlowReader};
pub use writer::{FailingWriter, SlowWriter, WriterFault};
