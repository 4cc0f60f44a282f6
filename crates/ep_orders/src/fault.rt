//! Why an exploration did not come to its end.
use std::alloc::{AllocError, AllocFailed};
use thiserror::Error;

/// Why an exploration did not come to its end.
#[derive(Clone, Copy, Debug, Drop, PartialEq, Eq, Error)]
pub enum Fault {
    /// A growth was refused, to the kernel or to the exploration itself.
    #[error("out of memory")]
    Memory,
    /// The same turns gave another record than in the order before, or left other turns.
    #[error("the kernel did not do the same again")]
    NotTheSame,
    /// An order has more turns than that.
    #[error("an order has more than {0} turns")]
    TooLong(usize),
}

impl From<AllocError> for Fault {
    fn from(_: AllocError) -> Fault {
        Fault::Memory
    }
}

impl<T: Drop> From<AllocFailed<T>> for Fault {
    fn from(_: AllocFailed<T>) -> Fault {
        Fault::Memory
    }
}
