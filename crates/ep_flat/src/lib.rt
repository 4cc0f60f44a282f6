//! Calls and answers as structs of numbers, which cross to C.
#![tactic(auto)]

mod answer;
mod event;
mod flat;
mod sockets;

pub use crate::answer::{put_answer, put_bytes, put_given, put_told};
pub use crate::event::{event_of, lacks_room};
pub use crate::flat::{FlatLimits, FlatReply, FlatReport, FlatRequest, FlatWatch};
