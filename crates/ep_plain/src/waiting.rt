//! Which events make a report.
ghost use Rattle.std.specs.Prelude.{◌≡◌, MatchOption};
ghost use Rattle.ep_base.specs.declared.call.Event.TheVariants.{Call as CallOf, Resume};
ghost use Rattle.ep_plain.specs.These.{AsksFor, IsNoWait, IsWait};

use ep_base::{Call, CallerId, DescId, Event, Pid};
use ep_calls::{Parts, Wait, find_instance};
use ep_park::Waiter;

/// A wait that makes a report, of nothing where nothing is reportable.
#[derive(Clone, Copy)]
pub enum Waiting {
    /// A call that waits at an instance.
    Call { args: Wait, instance: DescId },
    /// The resumption of a caller that is parked and marked.
    Parked { waiter: Waiter },
}

/// The wait of a call, and the instance that is waited for; none where it is another call, or refused.
fn find_call(parts: &Parts, pid: Pid, call: &Call) -> Option<(Wait, DescId)>
    ensures { MatchOption result (IsNoWait parts.now pid.0 call.now)
        (λ x. (x.0.pid ≡ pid) × IsWait parts.now call.now x.0 x.1) }
{
    let Call::EpollWait { epfd, max, timeout } = *call else {
        return None;
    };
    let args = Wait {
        pid,
        epfd,
        max,
        timeout,
        kept: false,
    };
    // A copy, since the prover takes what is passed on as moved.
    let asked = args;
    match find_instance(&parts.tables, asked) {
        Ok(instance) => Some((args, instance)),
        Err(_) => None,
    }
}

/// The wait of a call of a process; none where it is another call, or refused.
fn find_calling(
    parts: &Parts,
    caller: CallerId,
    event: &Event,
    pid: Pid,
    call: &Call,
) -> Option<Waiting>
    requires { event.now ≡ CallOf pid call.now }
    ensures { AsksFor parts.now caller.0 event.now result }
{
    if !parts.tables.has_process(pid) {
        return None;
    }
    if parts.waiters.is_parked(caller) {
        return None;
    }
    match find_call(parts, pid, call) {
        Some((args, instance)) => Some(Waiting::Call { args, instance }),
        None => None,
    }
}

/// The wait of a parked caller that resumes; none where it is not parked, or not marked.
fn find_parked(parts: &Parts, caller: CallerId) -> Option<Waiting>
    ensures { AsksFor parts.now caller.0 Resume result }
{
    let Some(waiter) = parts.waiters.waiter(caller) else {
        return None;
    };
    if !waiter.marked {
        return None;
    }
    Some(Waiting::Parked { waiter })
}

/// The wait of an event, where it makes a report.
pub fn find_waiting(parts: &Parts, caller: CallerId, event: &Event) -> Option<Waiting>
    ensures { AsksFor parts.now caller.0 event.now result }
{
    match event {
        Event::Call { pid, call } => find_calling(parts, caller, event, *pid, call),
        Event::Resume => find_parked(parts, caller),
        Event::Tick { .. } => None,
    }
}
