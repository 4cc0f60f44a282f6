//! The kernel with ready lists, as functions that C calls. A kernel lies behind a `Handle`, an event is a
//! `FlatRequest` and its answer a `FlatReply`. Each function answers 0 or more, or minus an error number of Linux;
//! -EBADF, and nothing else is done, if the handle has no kernel. None requires anything of its caller, and none
//! waits. Two calls on one handle need a lock of the caller's between them.
#![tactic(auto)]

pub mod asking;
pub mod events;
pub mod keeping;
pub mod records;
mod status;
pub mod watches;
