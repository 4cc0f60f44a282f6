//! A record of the history as a line of JSON, and back.
#![tactic(auto)]

mod bytes;
mod cursor;
mod digits;
mod event;
mod fields;
mod guess;
mod guess_answer;
mod guess_call;
mod picks;
mod print;
mod print_answer;
mod print_call;
mod print_socket;
mod print_write;
mod push;
mod read_answer;
mod read_call;
mod read_socket;
mod record;
mod record_reader;
mod words;

pub use crate::record::{print_record, read_record};
pub use crate::record_reader::RecordReader;
