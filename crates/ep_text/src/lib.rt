//! Lines of text: what a line of a script asks for, and the line that tells an answer.
#![tactic(auto)]

mod bytes;
mod calls;
mod fields;
mod flat;
mod header;
mod key;
mod keys;
mod limits;
mod limits_fault;
mod line;
mod line_reader;
mod masks;
mod nearest;
mod op;
mod plain;
mod print;
mod read;
mod reason;
mod sockets;
mod source;
mod value_kind;

pub use crate::header::read_header;
pub use crate::key::Key;
pub use crate::limits::parse_limits;
pub use crate::limits_fault::{LimitsFault, read_limits};
pub use crate::line::Line;
pub use crate::line_reader::LineReader;
pub use crate::op::{CallOp, Op};
pub use crate::print::{print_answer, push_answer, push_bad, push_header};
pub use crate::read::{explain, read_line};
pub use crate::reason::{Column, Name, Reason};
pub use crate::value_kind::ValueKind;
pub use ep_version::Version;
