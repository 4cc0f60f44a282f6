//! From the opening of a kernel to its end.
ghost use Rattle.std.specs.Prelude.{◌≡◌};
ghost use Rattle.ep_exports.specs.Keeping.{Closed, Opened, Reserved};

use crate::status::{EBADF, EBUSY, EINVAL, ENOMEM};
use ep_base::Limits;
use ep_calls::Kernel;
use ep_flat::FlatLimits;
use ep_handle::{Handle, free_kernel, new_kernel};
use std::alloc::Global;

/// Puts a kernel in its opening state into an empty handle: process 1, whose descriptors 0, 1 and 2 name one plain
/// file, the clock at 0, and no history. 0, or with nothing changed -EBUSY if the handle has a kernel, -EINVAL
/// if a limit is out of its range, -ENOMEM.
#[unsafe(no_mangle)]
pub extern "C" fn ep_open(alloc: Global, limits: &FlatLimits, handle: &mut Handle) -> i32
    ensures { Opened handle.old.state.kernel limits.now handle.new.state.kernel result }
{
    if handle.is_open() {
        return -EBUSY;
    }
    let Some(limits) = Limits::new(
        limits.descriptors,
        limits.files,
        limits.processes,
        limits.watches,
        limits.pipe_bytes,
        limits.sock_bytes,
    ) else {
        return -EINVAL;
    };
    match new_kernel(alloc, limits) {
        Ok(kernel) => {
            handle.put(kernel);
            0
        }
        Err(_) => -ENOMEM,
    }
}

/// Ends the kernel, and leaves the handle empty. 0, or -EBADF. It takes as long as the kernel has grown.
#[unsafe(no_mangle)]
pub extern "C" fn ep_close(alloc: Global, handle: &mut Handle) -> i32
    ensures { Closed handle.old.state.kernel handle.new.state.kernel result }
{
    match handle.take(alloc) {
        None => -EBADF,
        Some(kernel) => {
            free_kernel(kernel);
            0
        }
    }
}

/// Makes room in the history for so many records more, so that no event asks for memory for its record before they are
/// there. 0, or -EBADF, or -ENOMEM. State and history stay.
#[unsafe(no_mangle)]
pub extern "C" fn ep_reserve(alloc: Global, handle: &mut Handle, additional: usize) -> i32
    ensures { Reserved handle.old.state.kernel additional handle.new.state.kernel result }
{
    match handle.take(alloc) {
        None => -EBADF,
        Some(mut kernel) => {
            let result = match kernel.reserve(additional) {
                Ok(()) => 0,
                Err(_) => -ENOMEM,
            };
            handle.put(kernel);
            result
        }
    }
}
