//! One event.
ghost use Rattle.std.specs.Prelude.{◌≡◌, ◌<◌, IfOk, IsOk, OnErr, false, is_some, true};
ghost use Rattle.std.specs.List.{list_any};
ghost use Rattle.ep_alarms.specs.Changes.{CallsTables, MayCreate, MovesClock, TouchesTables};
ghost use Rattle.ep_base.specs.declared.call.Event.TheVariants.{Call as CallOf};
ghost use Rattle.ep_machine.specs.Files.{table_of};
ghost use Rattle.ep_park.specs.Waiters.{is_caller};
ghost use Rattle.ep_calls.specs.Clock.{ClockStays};
ghost use Rattle.ep_calls.specs.Does.{DoesCall, DoesEvent};
ghost use Rattle.ep_calls.specs.Kept.{KeepsCall, KeepsEvent};
ghost use Rattle.ep_calls.specs.Last.{NothingRefuses, NothingRefusesCall};
ghost use Rattle.ep_calls.specs.Spared.{IsSpared, TakesNoMemory};
ghost use Rattle.ep_calls.specs.TableCall.{MakesTimer};
ghost use Rattle.ep_plain.specs.Dating.{Grows};
ghost use Rattle.ep_plain.specs.Exact.{Follows, IsExact};

use crate::control::epoll_ctl;
use crate::dating::Dating;
use crate::wait::{epoll_wait, resume};
use ep_base::{Call, Errno, Event, Pid};
use ep_calls::{Control, Outcome, Parts, Request, Wait, is_parked};
use std::alloc::AllocError;

/// A call of a process that is there. An `Err` is want of memory, or of room for what it would add. It leaves the
/// parts, and comes only if nothing refuses the call.
#[inline(always)]
fn make_call(
    parts: &mut Parts,
    request: Request,
    pid: Pid,
    call: &Call,
    dating: &mut Dating,
) -> Result<Outcome, AllocError>
    requires free { list_any (is_caller request.caller.0) parts.old.parked ≡ false }
    requires process { is_some (table_of parts.old.tables.files pid.0) ≡ true }
    requires step { 0 < request.step }
    requires exact { IsExact request.step parts.old dating.old }
    ensures ok { IfOk result
        (λ outcome. DoesCall request.step request.caller.0 pid.0 call.now outcome parts.old
        parts.new) }
    ensures tables { IfOk result
        (λ outcome. CallsTables pid.0 call.now outcome.answer parts.old parts.new) }
    ensures clock { IfOk result
        (λ outcome. ClockStays outcome.raising parts.old.clock parts.new.clock) }
    ensures timers { request.has_room ≡ false → MakesTimer call.now
        → parts.new.tables ≡ parts.old.tables }
    ensures follows { IfOk result
        (λ outcome. Follows request.step (CallOf pid call.now) outcome.answer outcome.picked
        parts.old dating.old parts.new dating.new) }
    ensures kept { IfOk result (λ outcome. KeepsCall call.now request.kept outcome) }
    ensures spared { TakesNoMemory parts.old.tables.files pid.0 call.now → IsOk result }
    ensures last { OnErr result (NothingRefusesCall parts.old pid.0 call.now) }
    ensures err { OnErr result (parts.new ≡ parts.old) }
    ensures grows { OnErr result (Grows dating.old dating.new) }
{
    match *call {
        Call::EpollCtl {
            epfd,
            op,
            fd,
            mask,
            tag,
        } => {
            let args = Control {
                epfd,
                op,
                fd,
                mask,
                tag,
            };
            epoll_ctl(parts, dating, pid, args)
        }
        Call::EpollWait { epfd, max, timeout } => {
            let args = Wait {
                pid,
                epfd,
                max,
                timeout,
                kept: request.kept,
            };
            epoll_wait(parts, request, args, dating)
        }
        _ => parts.file_call(pid, call, request.kept, request.has_room),
    }
}

/// One event: its refusal, ESRCH first for a call, or its change. An `Err` is want of memory, or of room for what it
/// would add. It leaves the parts. It comes of no event that `IsSpared` names, and only if nothing refuses the event.
#[inline(always)]
pub fn act(
    parts: &mut Parts,
    request: Request,
    event: &Event,
    dating: &mut Dating,
) -> Result<Outcome, AllocError>
    requires step { 0 < request.step }
    requires exact { IsExact request.step parts.old dating.old }
    ensures ok { IfOk result
        (λ outcome. DoesEvent request.step request.caller.0 event.now outcome parts.old
        parts.new) }
    ensures tables { IfOk result
        (λ outcome. TouchesTables event.now outcome.answer parts.old parts.new) }
    ensures clock { IfOk result
        (λ outcome. MovesClock event.now outcome.raising parts.old.clock parts.new.clock) }
    ensures timers { request.has_room ≡ false → MayCreate event.now
        → parts.new.tables ≡ parts.old.tables }
    ensures follows { IfOk result
        (λ outcome. Follows request.step event.now outcome.answer outcome.picked parts.old
        dating.old parts.new dating.new) }
    ensures kept { IfOk result (λ outcome. KeepsEvent event.now request.kept outcome) }
    ensures spared { IsSpared parts.old.tables.files event.now → IsOk result }
    ensures last { OnErr result (NothingRefuses parts.old request.caller.0 event.now) }
    ensures err { OnErr result (parts.new ≡ parts.old) }
    ensures grows { OnErr result (Grows dating.old dating.new) }
{
    match event {
        Event::Call { pid, call } => {
            if !parts.tables.has_process(*pid) {
                return Ok(Outcome::refused(Errno::Esrch));
            }
            if is_parked(&parts.waiters, request.caller) {
                return Ok(Outcome::refused(Errno::Ebusy));
            }
            make_call(parts, request, *pid, call, dating)
        }
        Event::Resume => resume(parts, request, dating),
        Event::Tick { n } => Ok(parts.tick(*n)),
    }
}
