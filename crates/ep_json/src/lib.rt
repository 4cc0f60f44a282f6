//! JSON texts as values, read over room that is kept from text to text.
#![tactic(auto)]

mod number;
mod refusal;
mod tree;
mod value_reader;

pub use crate::number::parse_number;
pub use crate::value_reader::{LONGEST_KEPT, ValueReader};
