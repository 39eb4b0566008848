//! Where in an encoding a byte is: the elements that have it, each in the one before.
#![tactic(auto)]

mod element;
mod member;
mod numbers;
mod text;

pub use element::{Element, first_element};
pub use member::{Member, content_at, member_at};
pub use numbers::path_at;
pub use text::text_of;
