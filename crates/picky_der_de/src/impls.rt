//! The built-in types, as they are read.

mod arrays;
mod begins;
mod booleans;
mod contents;
mod lists;
mod wrappers;
