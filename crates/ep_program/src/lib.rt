//! The program `epsim` but for its `main`: its command line and its runs, over any reader and writers.
#![tactic(auto)]

mod bad_lines;
mod command_line;
mod every_order;
mod explainer;
mod files;
mod makers;
mod program;
mod search;
mod streams;

pub use crate::command_line::{Settings, options};
pub use crate::files::Files;
pub use crate::program::{no_words, run_with, run_with_files};
pub use crate::streams::{FileId, Stream, Streams};
