//! Objects, of which an open file description is one end.
#![tactic(auto)]

mod connections;
mod law;
mod listener;
mod object;
mod object_call;
mod refusal;
mod unconnected;

pub use crate::law::{arrivals_are_raised, objects_keep_laws};
pub use crate::object::Object;
pub use crate::object_call::{NamingCall, ObjectCall};
