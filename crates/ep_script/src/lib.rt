//! Scripts: lines of text that ask for calls on a kernel, and the lines that tell its answers.
#![tactic(auto)]

mod answer;
mod chunk;
mod emit;
mod fault;
mod gather;
mod held;
mod history_reader;
mod input;
mod keep;
mod law;
mod next_line;
mod past;
mod run;
mod summary;
mod watched;

pub use crate::fault::{HistoryFault, RecordedFault, ScriptFault};
pub use crate::history_reader::HistoryReader;
pub use crate::law::cuts_into_lines;
pub use crate::past::read_history;
pub use crate::run::{run_recorded, run_script};
pub use crate::summary::Summary;
pub use crate::watched::Watched;
pub use ep_text::{Version, parse_limits, print_answer, read_header, read_limits, read_line};
