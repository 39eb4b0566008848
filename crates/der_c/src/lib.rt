//! What programs in other languages call: DER that is checked, gone over and written. Each function is a thin one over
//! the libraries below.
#![tactic(auto)]

mod ber;
mod check;
mod code;
mod element;
mod elements;
mod front;
mod json;
mod messages;
mod next;
mod order;
mod path;
mod types;
mod writing;
