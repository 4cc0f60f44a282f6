//! The error numbers that a function of this crate answers, as Linux has them.

/// The handle has no kernel.
pub(crate) const EBADF: i32 = 9;

/// There is no memory.
pub(crate) const ENOMEM: i32 = 12;

/// The handle has a kernel already.
pub(crate) const EBUSY: i32 = 16;

/// A limit is out of its range, or there is no such record.
pub(crate) const EINVAL: i32 = 22;

/// There is no such event.
pub(crate) const ENOSYS: i32 = 38;

/// The history is no run of the machine.
pub(crate) const EBADMSG: i32 = 74;

/// The events can be numbered no further.
pub(crate) const EOVERFLOW: i32 = 75;

/// There is too little room for the answer.
pub(crate) const EMSGSIZE: i32 = 90;
