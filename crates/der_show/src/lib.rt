//! Lists the elements of bytes, and says why bytes aren't DER.
#![tactic(auto)]

mod columns;
mod content;
mod element;
mod ends;
mod entry;
mod entry_line;
mod form;
mod header;
mod json;
mod key_usage;
pub mod laws;
mod listing;
mod members;
mod names;
mod object_identifier;
mod opening;
mod options;
mod outline;
mod reason;
mod rule;
mod step;
mod strings;
mod text;
mod type_name;
mod value;
mod walk;
pub mod written;

pub use content::content_rule;
pub use element::Element;
pub use entry::Entry;
pub use form::form_rule;
pub use header::{Header, header_of};
pub use listing::{Shown, show, show_as};
pub use members::are_in_set_order;
pub use object_identifier::push_object_identifier;
pub use options::{LineForm, ShowOptions, Source};
pub use outline::{Complaint, Front, Outline, complaint_of, front_of, outline_of};
pub use reason::{Cause, Reason, reason_of};
pub use rule::Rule;
pub use walk::{Next, Place, next_element};
