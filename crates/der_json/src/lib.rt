//! Messages in JSON (X.697), by the schemas of their types.
//!
//! `specs/Json.antt` says which JSON a message has.
#![tactic(auto)]

mod contents;
mod decimal;
mod defaults;
mod error;
mod items;
pub mod laws;
mod limits;
mod messages;
mod numbers;
mod octets;
mod part;
mod refusal;
mod same;
mod strings;
mod twice;
mod values;
mod writer;

pub use error::JsonError;
pub use messages::{from_json, from_json_text};
pub use refusal::{FromJsonError, JsonForm, JsonMistake, JsonRefusal, JsonStep};
pub use values::to_json;
