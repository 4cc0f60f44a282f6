//! A kernel under one lock, which sessions call from threads.
#![tactic(auto)]

pub mod book;
mod shared;

pub use crate::book::{Book, FinishFault, History, Session, laws};
pub use crate::shared::{Shared, WaitCall};
