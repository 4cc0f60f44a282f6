//! One event, with the ready lists.
ghost use Rattle.std.specs.Prelude.{◌≡◌, IfOk, IsOk, OnErr, false, is_some, true};
ghost use Rattle.std.specs.List.{list_any};
ghost use Rattle.ep_base.specs.declared.call.Event.TheVariants.{Call as CallOf};
ghost use Rattle.ep_calls.specs.Kept.{KeepsCall, KeepsEvent};
ghost use Rattle.ep_calls.specs.Last.{NothingRefuses, NothingRefusesCall};
ghost use Rattle.ep_calls.specs.Spared.{IsSpared, TakesNoMemory};
ghost use Rattle.ep_calls.specs.TableCall.{MakesTimer};
ghost use Rattle.ep_kernel.specs.Event.{CallMoves, LeavesBeside, StaysBeside, TurnsInOrder};
ghost use Rattle.ep_kernel.specs.Stands.{StandsBeside};
ghost use Rattle.ep_alarms.specs.Changes.{MayCreate, MovesClock, TouchesTables};
ghost use Rattle.ep_kernel.specs.Wait.{DoesCallFairly, DoesEventFairly};
ghost use Rattle.ep_machine.specs.Files.{table_of};
ghost use Rattle.ep_park.specs.Waiters.{is_caller};

use crate::beside::Beside;
use crate::control::epoll_ctl;
use crate::wait::{epoll_wait, resume};
use ep_base::{Call, Errno, Event, Pid};
use ep_calls::{Control, Outcome, Parts, Request, Wait, is_parked};
use std::alloc::AllocError;

/// A call of a process that is there.
/// A refusal and an `Err`, which is want of memory, leave the parts and the lists. An `Err` comes only if nothing
/// refuses the call, and of none that `TakesNoMemory` names.
fn make_call(
    parts: &mut Parts,
    beside: &mut Beside,
    request: Request,
    pid: Pid,
    call: &Call,
) -> Result<Outcome, AllocError>
    requires free { list_any (is_caller request.caller.0) parts.old.parked ≡ false }
    requires process { is_some (table_of parts.old.tables.files pid.0) ≡ true }
    requires stands { StandsBeside parts.old beside.old }
    ensures ok { IfOk result
        (λ outcome. DoesCallFairly beside.old.lists request.step request.caller.0 pid.0 call.now
        outcome parts.old parts.new) }
    ensures moves { IfOk result
        (λ outcome. CallMoves pid.0 call.now outcome parts.old parts.new) }
    ensures kept { IfOk result (λ outcome. KeepsCall call.now request.kept outcome) }
    ensures lists { IfOk result
        (λ outcome. TurnsInOrder request.step request.caller.0 (CallOf pid call.now) outcome
        parts.old beside.old.lists parts.new beside.new.lists) }
    ensures goes { LeavesBeside (CallOf pid call.now) parts.old beside.old parts.new beside.new }
    ensures room { request.has_room ≡ false → MakesTimer call.now
        → parts.new.tables ≡ parts.old.tables }
    ensures spared { TakesNoMemory parts.old.tables.files pid.0 call.now → IsOk result }
    ensures last { OnErr result (NothingRefusesCall parts.old pid.0 call.now) }
    ensures err { OnErr result (StaysBeside parts.old beside.old parts.new beside.new) }
{
    match *call {
        Call::EpollCtl {
            epfd,
            op,
            fd,
            mask,
            tag,
        } => {
            let args = Control {
                epfd,
                op,
                fd,
                mask,
                tag,
            };
            epoll_ctl(parts, beside, pid, args)
        }
        Call::EpollWait { epfd, max, timeout } => {
            let args = Wait {
                pid,
                epfd,
                max,
                timeout,
                kept: request.kept,
            };
            epoll_wait(parts, beside, request.step, request.caller, args)
        }
        _ => parts.file_call(pid, call, request.kept, request.has_room),
    }
}

/// One event: its refusal, ESRCH first for a call, or its change, and what that does to the ready lists before anything
/// climbs.
/// A refusal and an `Err`, which is want of memory, leave the parts and the lists. An `Err` comes only if nothing
/// refuses the event, and of none that `IsSpared` names.
pub fn act(
    parts: &mut Parts,
    beside: &mut Beside,
    request: Request,
    event: &Event,
) -> Result<Outcome, AllocError>
    requires stands { StandsBeside parts.old beside.old }
    ensures ok { IfOk result
        (λ outcome. DoesEventFairly beside.old.lists request.step request.caller.0 event.now outcome
        parts.old parts.new) }
    ensures tables { IfOk result
        (λ outcome. TouchesTables event.now outcome.answer parts.old parts.new) }
    ensures clock { IfOk result
        (λ outcome. MovesClock event.now outcome.raising parts.old.clock parts.new.clock) }
    ensures kept { IfOk result (λ outcome. KeepsEvent event.now request.kept outcome) }
    ensures lists { IfOk result
        (λ outcome. TurnsInOrder request.step request.caller.0 event.now outcome parts.old
        beside.old.lists parts.new beside.new.lists) }
    ensures goes { LeavesBeside event.now parts.old beside.old parts.new beside.new }
    ensures room { request.has_room ≡ false → MayCreate event.now
        → parts.new.tables ≡ parts.old.tables }
    ensures spared { IsSpared parts.old.tables.files event.now → IsOk result }
    ensures last { OnErr result (NothingRefuses parts.old request.caller.0 event.now) }
    ensures err { OnErr result (StaysBeside parts.old beside.old parts.new beside.new) }
{
    match event {
        Event::Call { pid, call } => {
            if !parts.tables.has_process(*pid) {
                return Ok(Outcome::refused(Errno::Esrch));
            }
            if is_parked(&parts.waiters, request.caller) {
                return Ok(Outcome::refused(Errno::Ebusy));
            }
            make_call(parts, beside, request, *pid, call)
        }
        Event::Resume => resume(parts, beside, request.step, request.caller, request.kept),
        Event::Tick { n } => Ok(parts.tick(*n)),
    }
}
