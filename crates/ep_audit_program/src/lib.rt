//! The program `epaudit` but for its `main`: its command line and its verdict, over any reader and
//! writers.
#![tactic(auto)]

mod command_line;
mod files;
mod judge;
mod program;
mod verdict;

pub use crate::files::Files;
pub use crate::program::{no_words, run_with};
