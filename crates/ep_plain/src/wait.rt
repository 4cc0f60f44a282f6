//! Waits that scan: epoll_wait, and a parked caller that asks whether it may go on.
ghost use Rattle.std.specs.Prelude.{◌≡◌, IfOk, OnErr, false, map};
ghost use Rattle.std.specs.List.{list_any};
ghost use Rattle.ep_base.specs.declared.call.Event.TheVariants.{Resume};
ghost use Rattle.ep_park.specs.Waiters.{is_caller};
ghost use Rattle.ep_alarms.specs.Changes.{LeavesFiles};
ghost use Rattle.ep_calls.specs.Does.{DoesCall, DoesEvent};
ghost use Rattle.ep_calls.specs.Kept.{IsKept};
ghost use Rattle.ep_calls.specs.Last.{NothingRefuses, NothingRefusesCall};
ghost use Rattle.ep_calls.specs.Wait.{wait_call};
ghost use Rattle.ep_calls.specs.Wait.{with_report};
ghost use Rattle.ep_plain.specs.Exact.{IsExact};

use crate::choose::choose;
use crate::dating::Dating;
use ep_base::{Answer, Errno};
use ep_calls::{Outcome, Parts, Raising, Request, Wait, find_instance};
use std::alloc::AllocError;

/// epoll_wait(2): at most `max` reports of what is reportable at an instance now, the longest unreported first. If
/// nothing is, no report with a timeout of 0, and else the caller is parked until it is marked: for the timeout at
/// most, and without end if that is negative. Refused with EINVAL for a `max` below 1 or no instance, and with EBADF
/// if `epfd` names nothing. A refusal and an `Err`, which is want of memory, leave the parts. An `Err` comes only if
/// nothing refuses the call.
pub fn epoll_wait(
    parts: &mut Parts,
    request: Request,
    args: Wait,
    dating: &Dating,
) -> Result<Outcome, AllocError>
    requires free { list_any (is_caller request.caller.0) parts.old.parked ≡ false }
    requires exact { IsExact request.step parts.old dating.now }
    ensures ok { IfOk result
        (λ outcome. DoesCall request.step request.caller.0 args.pid.0 (wait_call args) outcome
        parts.old parts.new) }
    ensures leaves { IfOk result (λ outcome. LeavesFiles outcome.raising parts.old parts.new) }
    ensures ids { parts.new.interest.keys ≡ parts.old.interest.keys }
    ensures entries { IfOk result
        (λ outcome. parts.new.interest.entries
        ≡ map (with_report request.step outcome.picked) parts.old.interest.entries) }
    ensures kept { IfOk result (λ outcome. IsKept args.kept outcome) }
    ensures last { OnErr result (NothingRefusesCall parts.old args.pid.0 (wait_call args)) }
    ensures err { OnErr result (parts.new ≡ parts.old) }
{
    // A copy, since the prover takes what is passed on as moved.
    let asked = args;
    let instance = match find_instance(&parts.tables, asked) {
        Ok(instance) => instance,
        Err(errno) => return Ok(Outcome::refused(errno)),
    };
    parts.tables.known();
    let chosen = choose(parts, &dating.dates, instance, args.max)?;
    parts.wait_with(request.step, request.caller, args, instance, &chosen)
}

/// A parked caller asks whether it may go on: EINVAL if it is not parked, `Still` if it isn't marked. A marked
/// one gets at most as many reports as it asked for and is no longer parked; if nothing is reportable, it gets
/// none at its deadline, and before that loses its mark and stays parked. A refusal and an `Err`, which is want of
/// memory, leave the parts. An `Err` comes only of a caller that is parked.
pub fn resume(parts: &mut Parts, request: Request, dating: &Dating) -> Result<Outcome, AllocError>
    requires exact { IsExact request.step parts.old dating.now }
    ensures ok { IfOk result
        (λ outcome. DoesEvent request.step request.caller.0 Resume outcome parts.old parts.new) }
    ensures leaves { IfOk result (λ outcome. LeavesFiles outcome.raising parts.old parts.new) }
    ensures ids { parts.new.interest.keys ≡ parts.old.interest.keys }
    ensures entries { IfOk result
        (λ outcome. parts.new.interest.entries
        ≡ map (with_report request.step outcome.picked) parts.old.interest.entries) }
    ensures kept { IfOk result (λ outcome. IsKept request.kept outcome) }
    ensures last { OnErr result (NothingRefuses parts.old request.caller.0 Resume) }
    ensures err { OnErr result (parts.new ≡ parts.old) }
{
    let Some(waiter) = parts.waiters.waiter(request.caller) else {
        return Ok(Outcome::refused(Errno::Einval));
    };
    if !waiter.marked {
        return Ok(Outcome::settled(Answer::Still, Raising::Nowhere));
    }
    parts.tables.known();
    let chosen = choose(parts, &dating.dates, waiter.instance, waiter.max)?;
    parts.resume_with(request.step, request.caller, waiter, &chosen, request.kept)
}
