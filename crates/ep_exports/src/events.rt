//! One event, and its answer.
ghost use Rattle.std.specs.Prelude.{◌≡◌};
ghost use Rattle.ep_exports.specs.Events.{Called};

use crate::status::{EBADF, EMSGSIZE, ENOMEM, ENOSYS};
use ep_base::CallerId;
use ep_calls::Kernel;
use ep_flat::{FlatReply, FlatReport, FlatRequest, event_of, lacks_room, put_answer};
use ep_handle::Handle;
use std::alloc::Global;

/// Makes one event, a write with the bytes of `given`, and lays out its answer: 0, and `reply` has it. A refusal is
/// an answer, too. The bytes of a read or a peek go to the beginning of `bytes`, and reports to that of `reports`;
/// `reply.result` tells how many.
///
/// With nothing changed: -EBADF, -EMSGSIZE if `bytes` is shorter than what a read or a peek asks for or `reports` than
/// the most reports of a wait, -ENOSYS if the number of the event is none, or that of a word of it, -ENOMEM if there
/// is no memory for the bytes of a write that has some. Of any other event want of memory is the answer ENOMEM. That
/// comes last: if there is room for the record (`ep_reserve`), no refusal of the machine holds, and some events aren't
/// answered so at all.
///
/// A resumption has at most as many reports as its wait asked for, and what doesn't fit is cut: `ep_recorded` has all
/// of them.
#[tactic(auto, using(crate::proofs::Fits::fits))]
#[unsafe(no_mangle)]
pub extern "C" fn ep_call(
    alloc: Global,
    handle: &mut Handle,
    request: &FlatRequest,
    given: &[u8],
    reply: &mut FlatReply,
    bytes: &mut [u8],
    reports: &mut [FlatReport],
) -> i32
    ensures { Called handle.old.state.kernel request.now given.now handle.new.state.kernel
        (record { reply = reply.old; bytes = bytes.old; reports = reports.old })
        (record { reply = reply.new; bytes = bytes.new; reports = reports.new }) result }
{
    match handle.take(alloc) {
        None => -EBADF,
        Some(mut kernel) => {
            let result = if lacks_room(request, bytes.len(), reports.len()) {
                -EMSGSIZE
            } else {
                match event_of(alloc, request, given) {
                    Err(_) => -ENOMEM,
                    Ok(None) => -ENOSYS,
                    Ok(Some(event)) => {
                        let answer = kernel.step(CallerId(request.caller), event);
                        put_answer(&answer, kernel.now().at(), reply, bytes, reports);
                        0
                    }
                }
            };
            handle.put(kernel);
            result
        }
    }
}
