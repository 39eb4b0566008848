//! Messages, read from bytes as types that have words: what comes of it, and what is printed.
#![tactic(auto)]

mod attribute_name;
mod ber_printed;
mod ber_words;
mod certificate;
mod content_types;
mod explanation;
mod fault;
mod from_ber;
mod from_json;
mod in_der;
mod json;
mod kerberos_message;
mod message;
mod message_type;
mod names;
mod outcome;
mod path;
mod place;
mod printed;
mod schema;
mod strings;
mod tabled;
mod verdict;

pub use ber_printed::{BerPrinted, read_ber};
pub use certificate::certificate_line;
pub use explanation::Explanation;
pub use from_ber::{FromBer, message_from_ber};
pub use from_json::{FromJson, message_from_json};
pub use json::{MessageJson, json_of};
pub use kerberos_message::KerberosMessage;
pub use message::{type_of_label, type_of_word, types_of};
use message::{refusal_as, reported};
pub use message_type::{ALL_TYPES, Described, MessageType, TRIED_TYPES, refusal_of};
pub use names::{name_text, push_name};
pub use outcome::{Outcome, Reading, examine};
pub use path::{path_by_numbers, path_of};
pub use place::{block_value, place_name, place_text};
pub use printed::read_message;
pub use tabled::Tabled;
pub use verdict::{Verdict, verdict_of};
