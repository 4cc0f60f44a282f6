//! The description on whose object an event is a call, or the listener of an accept.
ghost use Rattle.std.specs.Prelude.{◌≡◌, IfSome, IsSome};
ghost use Rattle.ep_alarms.specs.Called.{IsCalled, descriptor_in};
ghost use Rattle.ep_table.specs.Value.{number_under};

use ep_base::{Call, DescId, Event, Fd};
use ep_calls::Parts;

/// The descriptor on whose object a call is, or whose listener accepts. `None` of any other call.
#[inline(always)]
fn called_descriptor(call: &Call) -> Option<Fd>
    ensures { result ≡ descriptor_in call.now }
{
    match *call {
        Call::Read { fd, .. }
        | Call::Write { fd, .. }
        | Call::Peek { fd, .. }
        | Call::Shutdown { fd, .. }
        | Call::TakeError { fd }
        | Call::SocketName { fd, .. }
        | Call::Bind { fd, .. }
        | Call::Listen { fd, .. }
        | Call::Connect { fd, .. }
        | Call::SetTime { fd, .. }
        | Call::GetTime { fd }
        | Call::Accept { fd, .. } => Some(fd),
        _ => None,
    }
}

/// The description on whose object an event is a call, or of the listener of an accept. `None` if it is no such call,
/// or its descriptor names nothing.
pub fn find_called(parts: &Parts, event: &Event) -> Option<DescId>
    ensures called { IsCalled parts.now.tables event.now result }
    ensures live { IfSome result (λ desc. IsSome (number_under parts.now.tables desc)) }
{
    let Event::Call { pid, call } = event else {
        return None;
    };
    let fd = called_descriptor(call)?;
    parts.tables.lookup(*pid, fd)
}
