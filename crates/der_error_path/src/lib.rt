//! Where in a message an error is, by the names of its type, and what is wrong there.
//!
//! `path_of_error` says which byte an error names.
#![tactic(auto)]

mod contents;
mod expected;
mod inside;
mod mistakes;
mod passed;
mod path;
mod steps;
mod text;

pub use expected::Part;
pub use path::{ErrorPath, Mistake, path_of_error};
pub use steps::Step;
