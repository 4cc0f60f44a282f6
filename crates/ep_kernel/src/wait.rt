//! Waits along ready lists: epoll_wait, and a parked caller that asks whether it may go on.
ghost use Rattle.std.specs.Prelude.{◌≡◌, IfOk, OnErr, false, true};
ghost use Rattle.std.specs.List.{list_any};
ghost use Rattle.ep_base.specs.declared.call.Event.TheVariants.{Call as CallOf, Resume};
ghost use Rattle.ep_calls.specs.Kept.{IsKept};
ghost use Rattle.ep_calls.specs.Last.{NothingRefuses, NothingRefusesCall};
ghost use Rattle.ep_calls.specs.Wait.{wait_call};
ghost use Rattle.ep_kernel.specs.Event.{LeavesBeside, StaysBeside, TurnsInOrder};
ghost use Rattle.ep_kernel.specs.Stands.{StandsBeside};
ghost use Rattle.ep_alarms.specs.Changes.{LeavesFiles};
ghost use Rattle.ep_kernel.specs.Wait.{DoesCallFairly, DoesEventFairly};
ghost use Rattle.ep_machine.specs.Waits.{is_positive};
ghost use Rattle.ep_machine.specs.Watches.{number_in};
ghost use Rattle.ep_park.specs.Waiters.{is_caller};

use crate::beside::Beside;
use crate::choose::choose;
use crate::take::take;
use ep_base::{Answer, CallerId, Errno, EventNumber};
use ep_calls::{Outcome, Parts, Raising, Wait, find_instance};
use std::alloc::AllocError;

/// How many reports are asked for.
fn most(max: i32) -> usize
    requires { is_positive max ≡ true }
    ensures { result ≡ number_in max }
{
    max as usize
}

/// epoll_wait(2): at most `max` reports of what is reportable at an instance now, in the order of its ready list.
/// If nothing is, no report with a timeout of 0, and else the caller is parked until it is marked: for the timeout at
/// most, and without end if that is negative. Refused with EINVAL for a `max` below 1 or no instance, and with EBADF
/// if `epfd` names nothing. A refusal and an `Err`, which is want of memory, leave the parts and the lists. An `Err`
/// comes only if nothing refuses the call.
pub fn epoll_wait(
    parts: &mut Parts,
    beside: &mut Beside,
    step: EventNumber,
    caller: CallerId,
    args: Wait,
) -> Result<Outcome, AllocError>
    requires free { list_any (is_caller caller.0) parts.old.parked ≡ false }
    requires stands { StandsBeside parts.old beside.old }
    ensures ok { IfOk result
        (λ outcome. DoesCallFairly beside.old.lists step caller.0 args.pid.0 (wait_call args)
        outcome parts.old parts.new) }
    ensures leaves { IfOk result (λ outcome. LeavesFiles outcome.raising parts.old parts.new) }
    ensures kept { IfOk result (λ outcome. IsKept args.kept outcome) }
    ensures lists { IfOk result
        (λ outcome. TurnsInOrder step caller.0 (CallOf args.pid (wait_call args)) outcome parts.old
        beside.old.lists parts.new beside.new.lists) }
    ensures goes { LeavesBeside (CallOf args.pid (wait_call args)) parts.old beside.old parts.new
        beside.new }
    ensures last { OnErr result (NothingRefusesCall parts.old args.pid.0 (wait_call args)) }
    ensures err { OnErr result (StaysBeside parts.old beside.old parts.new beside.new) }
{
    // A copy, since the prover takes what is passed on as moved.
    let wanted = args;
    let instance = match find_instance(&parts.tables, wanted) {
        Ok(instance) => instance,
        Err(errno) => return Ok(Outcome::refused(errno)),
    };
    parts.known();
    parts.interest.known();
    beside.lists.known();
    let walked = choose(
        parts,
        &beside.lists,
        &mut beside.asked,
        &mut beside.chosen,
        instance,
        most(args.max),
    )?;
    let outcome = parts.wait_with(step, caller, args, instance, &beside.chosen)?;
    take(&parts.interest, &mut beside.lists, instance, walked, step);
    Ok(outcome)
}

/// A parked caller asks whether it may go on: EINVAL where it is not parked, `Still` where it isn't marked. A marked
/// one gets at most as many reports as it asked for, in the order of the ready list, and is no longer parked; where
/// nothing is reportable, it gets none at its deadline, and before that loses its mark and stays parked. `kept`: a
/// second record of it is asked for. A refusal and an `Err`, which is want of memory, leave the parts and the lists.
/// An `Err` comes only if nothing refuses it.
pub fn resume(
    parts: &mut Parts,
    beside: &mut Beside,
    step: EventNumber,
    caller: CallerId,
    kept: bool,
) -> Result<Outcome, AllocError>
    requires stands { StandsBeside parts.old beside.old }
    ensures ok { IfOk result
        (λ outcome. DoesEventFairly beside.old.lists step caller.0 Resume outcome parts.old
        parts.new) }
    ensures leaves { IfOk result (λ outcome. LeavesFiles outcome.raising parts.old parts.new) }
    ensures kept { IfOk result (λ outcome. IsKept kept outcome) }
    ensures lists { IfOk result
        (λ outcome. TurnsInOrder step caller.0 Resume outcome parts.old beside.old.lists parts.new
        beside.new.lists) }
    ensures goes { LeavesBeside Resume parts.old beside.old parts.new beside.new }
    ensures last { OnErr result (NothingRefuses parts.old caller.0 Resume) }
    ensures err { OnErr result (StaysBeside parts.old beside.old parts.new beside.new) }
{
    let Some(waiter) = parts.waiters.waiter(caller) else {
        return Ok(Outcome::refused(Errno::Einval));
    };
    if !waiter.marked {
        return Ok(Outcome::settled(Answer::Still, Raising::Nowhere));
    }
    parts.known();
    parts.interest.known();
    beside.lists.known();
    let walked = choose(
        parts,
        &beside.lists,
        &mut beside.asked,
        &mut beside.chosen,
        waiter.instance,
        most(waiter.max),
    )?;
    let outcome = parts.resume_with(step, caller, waiter, &beside.chosen, kept)?;
    take(
        &parts.interest,
        &mut beside.lists,
        waiter.instance,
        walked,
        step,
    );
    Ok(outcome)
}
