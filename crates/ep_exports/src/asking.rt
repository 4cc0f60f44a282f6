//! Questions, which change nothing.
ghost use Rattle.std.specs.Prelude.{◌≡◌};
ghost use Rattle.ep_exports.specs.Asking.{AskedFirst, AskedMarked, AskedMoment, AskedNow, AskedParked};

use crate::status::EBADF;
use ep_base::CallerId;
use ep_calls::Kernel;
use ep_handle::Handle;
use std::alloc::Global;

/// The simulated clock, in microseconds: 0 and the moment, or -EBADF.
#[unsafe(no_mangle)]
pub extern "C" fn ep_now(alloc: Global, handle: &mut Handle, moment: &mut u64) -> i32
    ensures { AskedNow handle.old.state.kernel handle.new.state.kernel moment.old moment.new
        result }
{
    match handle.take(alloc) {
        None => -EBADF,
        Some(kernel) => {
            *moment = kernel.now().at();
            handle.put(kernel);
            0
        }
    }
}

/// Whether a caller is parked in a wait: 1 or 0, or -EBADF.
#[unsafe(no_mangle)]
pub extern "C" fn ep_is_parked(alloc: Global, handle: &mut Handle, caller: u32) -> i32
    ensures { AskedParked handle.old.state.kernel caller handle.new.state.kernel result }
{
    match handle.take(alloc) {
        None => -EBADF,
        Some(kernel) => {
            let parked = kernel.is_parked(CallerId(caller));
            handle.put(kernel);
            if parked { 1 } else { 0 }
        }
    }
}

/// Whether a caller is parked and marked: 1 or 0, or -EBADF.
#[unsafe(no_mangle)]
pub extern "C" fn ep_is_marked(alloc: Global, handle: &mut Handle, caller: u32) -> i32
    ensures { AskedMarked handle.old.state.kernel caller handle.new.state.kernel result }
{
    match handle.take(alloc) {
        None => -EBADF,
        Some(kernel) => {
            let marked = kernel.is_marked(CallerId(caller));
            handle.put(kernel);
            if marked { 1 } else { 0 }
        }
    }
}

/// Of the marked callers the one that was parked first: 1 and its number, or 0 if nobody is marked, or -EBADF.
#[unsafe(no_mangle)]
pub extern "C" fn ep_first_marked(alloc: Global, handle: &mut Handle, caller: &mut u32) -> i32
    ensures { AskedFirst handle.old.state.kernel handle.new.state.kernel caller.old caller.new
        result }
{
    match handle.take(alloc) {
        None => -EBADF,
        Some(kernel) => {
            let first = kernel.first_marked();
            handle.put(kernel);
            match first {
                Some(number) => {
                    *caller = number.0;
                    1
                }
                None => 0,
            }
        }
    }
}

/// The first moment after now to which a tick raises a bit or marks a caller: 1 and the moment, or 0 if no tick
/// does, or -EBADF.
#[unsafe(no_mangle)]
pub extern "C" fn ep_next_moment(alloc: Global, handle: &mut Handle, moment: &mut u64) -> i32
    ensures { AskedMoment handle.old.state.kernel handle.new.state.kernel moment.old moment.new
        result }
{
    match handle.take(alloc) {
        None => -EBADF,
        Some(kernel) => {
            let next = kernel.next_moment();
            handle.put(kernel);
            match next {
                Some(then) => {
                    *moment = then.at();
                    1
                }
                None => 0,
            }
        }
    }
}
