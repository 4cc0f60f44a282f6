//! Byte streams in memory: pipes and socket pairs.
#![tactic(auto)]

mod bits;
mod ends;
mod law;
mod pipe;
mod queue;
mod sock_pair;

pub use crate::law::arrivals_are_raised;
pub use crate::pipe::Pipe;
pub use crate::sock_pair::SockPair;
pub use ep_base::{End, Raised};
