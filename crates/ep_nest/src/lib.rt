//! The watch graph: which instances watch which, as epoll_ctl(2) limits it.
#![tactic(auto)]

mod adjacent;
mod depths;
mod descend;
mod graph;
mod link;
mod links;
mod longest;
mod put;
mod reach;
mod traversal;

pub use crate::graph::Graph;
pub use crate::link::Link;
