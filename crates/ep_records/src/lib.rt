//! The history of a kernel, in few bytes a record.
#![tactic(auto)]

mod beside;
mod common;
mod entry;
mod history;
mod iter;
mod look;
mod many;
mod numbers;
mod pack;
mod parts;
mod said;
mod slot;
mod sockets;
mod swap;
mod taken;
mod unpack;
mod words;

pub use crate::entry::Entry;
pub use crate::history::History;
pub use crate::iter::Iter;
pub use crate::numbers::Numbers;
pub use crate::said::Said;
pub use crate::swap::TooManyEvents;
