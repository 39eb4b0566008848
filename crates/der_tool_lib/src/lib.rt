//! A tool of lines: each line of the input asks for one thing and gets one line as its answer.
#![tactic(auto)]

mod algorithm_identifier;
mod answer;
mod generated;
mod line;
mod lines;
mod subject_public_key_info;
mod test_struct;
mod value;

pub use algorithm_identifier::AlgorithmIdentifier;
pub use answer::{kind_word, output_of};
pub use line::Request;
pub use lines::run;
pub use subject_public_key_info::SubjectPublicKeyInfo;
pub use test_struct::TestStruct;
pub use value::{ValueType, answer_read};
