//! A kernel behind a handle that C can keep: a struct of a number and a pointer, in which contracts see the kernel's
//! value.
#![tactic(auto)]

mod bare;
mod boxed;
mod handle;
mod sending;
mod slot;

pub use crate::boxed::{free_kernel, new_kernel};
pub use crate::handle::Handle;
pub use crate::sending::sent;
pub use crate::slot::Slot;
