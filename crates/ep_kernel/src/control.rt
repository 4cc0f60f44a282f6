//! epoll_ctl: the places that come and go with registrations.
ghost use Rattle.std.specs.Prelude.{◌≡◌, ◌≢◌, [], ℕ, IfOk, IsOk, IsSome, None, OnErr, false};
ghost use Rattle.ep_base.specs.declared.call.Event.TheVariants.{Call as CallOf};
ghost use Rattle.ep_calls.specs.Control.{IsPlan, TellsBelow, control_call};
ghost use Rattle.ep_calls.specs.Does.{DoesCall};
ghost use Rattle.ep_calls.specs.Last.{NothingRefusesCall};
ghost use Rattle.ep_calls.specs.declared.control.Operation.TheVariants.{Add};
ghost use Rattle.ep_kernel.specs.Event.{LeavesBeside, StaysBeside};
ghost use Rattle.ep_kernel.specs.Listed.{HopesFor};
ghost use Rattle.ep_kernel.specs.Stands.{StandsBeside};
ghost use Rattle.ep_alarms.specs.Changes.{LeavesFiles};
ghost use Rattle.ep_kernel.specs.Turns.{Turns};
ghost use Rattle.ep_machine.specs.Watches.{is_add};
ghost use Rattle.ep_table.specs.Value.{number_under as desc_number};

use crate::asked::Asked;
use crate::beside::Beside;
use crate::readiness::is_ready;
use ep_base::{DescId, Pid};
use ep_calls::{Control, Operation, Outcome, Parts, Plan};
use ep_choice::note_deleted;
use std::alloc::AllocError;

/// Whether the instance that an ADD or a MOD is about is ready; `false` for what is no instance. DEL asks nothing.
/// Only the hopes of the instance and of those below are looked at, as `is_ready` says.
fn is_below_ready(parts: &Parts, asked: &mut Asked, operation: Operation, desc: DescId) -> bool
    requires live { IsSome (desc_number parts.now.tables desc) }
    requires hopes { HopesFor parts.now asked.old.hopes }
    ensures below { TellsBelow operation result parts.now desc }
    ensures hopes { HopesFor parts.now asked.new.hopes }
{
    if let Operation::Delete = operation {
        return false;
    }
    parts.known();
    if !parts.tables.object(desc).is_instance() {
        return false;
    }
    asked.forget();
    is_ready(parts, asked, desc)
}

/// The call on a registration that is there. If a DEL takes away what may have guarded its instance, that is noted as
/// one that lost a registration.
fn alter(
    parts: &mut Parts,
    beside: &mut Beside,
    pid: Pid,
    args: Control,
    plan: Plan,
) -> Result<Outcome, AllocError>
    requires plan { IsPlan parts.old pid.0 args plan }
    requires below { TellsBelow plan.operation plan.below parts.old plan.named.desc }
    requires found { IsSome plan.found }
    requires stands { StandsBeside parts.old beside.old }
    ensures ok { IfOk result
        (λ outcome. (n caller : ℕ)
        → DoesCall n caller pid.0 (control_call args) outcome parts.old parts.new) }
    ensures leaves { IfOk result (λ outcome. LeavesFiles outcome.raising parts.old parts.new) }
    ensures last { OnErr result (NothingRefusesCall parts.old pid.0 (control_call args)) }
    ensures turns { IfOk result
        (λ outcome. Turns (CallOf pid (control_call args)) outcome.picked parts.old beside.old.lists
        parts.new beside.new.lists) }
    ensures spared { plan.operation ≢ Add → IsOk result }
    ensures goes { LeavesBeside (CallOf pid (control_call args)) parts.old beside.old parts.new
        beside.new }
    ensures err { OnErr result (StaysBeside parts.old beside.old parts.new beside.new) }
{
    let Some(id) = plan.found else {
        unreachable!();
    };
    parts.known();
    parts.interest.known();
    note_deleted(parts, &mut beside.choice.lost, plan);
    let outcome = parts.control(pid, args, plan)?;
    parts.known();
    parts.interest.known();
    beside.settle(&parts.interest, id, outcome.raising);
    Ok(outcome)
}

/// An ADD for which there is no room: the refusal that comes first, or an `Err`, which is want of that room and comes
/// only if nothing refuses the call. Either leaves the parts.
fn refuse(parts: &mut Parts, pid: Pid, args: Control, mut plan: Plan) -> Result<Outcome, AllocError>
    requires plan { IsPlan parts.old pid.0 args plan }
    requires below { TellsBelow plan.operation plan.below parts.old plan.named.desc }
    requires adds { plan.operation ≡ Add }
    ensures ok { IfOk result
        (λ outcome. (n caller : ℕ)
        → DoesCall n caller pid.0 (control_call args) outcome parts.old parts.new) }
    ensures leaves { IfOk result (λ outcome. LeavesFiles outcome.raising parts.old parts.new) }
    ensures picked { IfOk result (λ outcome. outcome.picked ≡ []) }
    ensures last { OnErr result (NothingRefusesCall parts.old pid.0 (control_call args)) }
    ensures stays { parts.new ≡ parts.old }
{
    plan.has_room = false;
    parts.control(pid, args, plan)
}

/// Adds a registration that is not there, with its places, and makes room for what is noted of it. An `Err` is want of
/// memory and leaves the parts and the lists. It comes only if nothing refuses the call.
fn add(
    parts: &mut Parts,
    beside: &mut Beside,
    pid: Pid,
    args: Control,
    plan: Plan,
) -> Result<Outcome, AllocError>
    requires plan { IsPlan parts.old pid.0 args plan }
    requires below { TellsBelow plan.operation plan.below parts.old plan.named.desc }
    requires adds { plan.operation ≡ Add }
    requires found { plan.found ≡ None }
    requires stands { StandsBeside parts.old beside.old }
    ensures ok { IfOk result
        (λ outcome. (n caller : ℕ)
        → DoesCall n caller pid.0 (control_call args) outcome parts.old parts.new) }
    ensures leaves { IfOk result (λ outcome. LeavesFiles outcome.raising parts.old parts.new) }
    ensures last { OnErr result (NothingRefusesCall parts.old pid.0 (control_call args)) }
    ensures turns { IfOk result
        (λ outcome. Turns (CallOf pid (control_call args)) outcome.picked parts.old beside.old.lists
        parts.new beside.new.lists) }
    ensures goes { LeavesBeside (CallOf pid (control_call args)) parts.old beside.old parts.new
        beside.new }
    ensures err { OnErr result (StaysBeside parts.old beside.old parts.new beside.new) }
{
    parts.known();
    parts.interest.known();
    beside.lists.known();
    let id = parts.interest.next_key();
    beside.asked.hopes.known();
    if !beside.make(plan.named, args.mask, id) {
        let refused = refuse(parts, pid, args, plan)?;
        return Ok(refused);
    }
    let outcome = match parts.control(pid, args, plan) {
        Ok(outcome) => outcome,
        Err(error) => {
            beside.unmake(id);
            return Err(error);
        }
    };
    parts.known();
    parts.interest.known();
    beside.settle(&parts.interest, id, outcome.raising);
    Ok(outcome)
}

/// The call where its registration is not there: ADD adds it, and the others are refused.
fn enter(
    parts: &mut Parts,
    beside: &mut Beside,
    pid: Pid,
    args: Control,
    plan: Plan,
) -> Result<Outcome, AllocError>
    requires plan { IsPlan parts.old pid.0 args plan }
    requires below { TellsBelow plan.operation plan.below parts.old plan.named.desc }
    requires found { plan.found ≡ None }
    requires stands { StandsBeside parts.old beside.old }
    ensures ok { IfOk result
        (λ outcome. (n caller : ℕ)
        → DoesCall n caller pid.0 (control_call args) outcome parts.old parts.new) }
    ensures leaves { IfOk result (λ outcome. LeavesFiles outcome.raising parts.old parts.new) }
    ensures last { OnErr result (NothingRefusesCall parts.old pid.0 (control_call args)) }
    ensures turns { IfOk result
        (λ outcome. Turns (CallOf pid (control_call args)) outcome.picked parts.old beside.old.lists
        parts.new beside.new.lists) }
    ensures spared { plan.operation ≢ Add → IsOk result }
    ensures goes { LeavesBeside (CallOf pid (control_call args)) parts.old beside.old parts.new
        beside.new }
    ensures err { OnErr result (StaysBeside parts.old beside.old parts.new beside.new) }
{
    match plan.operation {
        Operation::Add => add(parts, beside, pid, args, plan),
        Operation::Delete => parts.control(pid, args, plan),
        Operation::Modify => parts.control(pid, args, plan),
    }
}

/// epoll_ctl(2), as `Parts::plan` and `Parts::control` do it, with the ready lists: a registration that is added gets a
/// place, and one that is deleted loses it; what is added or modified and reportable comes to the end of its list. The
/// same goes for the hopes. Of the instances below its target only the hopes are looked at, as `is_ready` says. If a
/// DEL takes away what may have guarded its instance, that is noted as one that lost a registration. A refusal leaves
/// the parts and the lists, and so does an `Err`. That is want of memory, and comes only of an ADD that nothing
/// refuses.
pub fn epoll_ctl(
    parts: &mut Parts,
    beside: &mut Beside,
    pid: Pid,
    args: Control,
) -> Result<Outcome, AllocError>
    requires stands { StandsBeside parts.old beside.old }
    ensures ok { IfOk result
        (λ outcome. (n caller : ℕ)
        → DoesCall n caller pid.0 (control_call args) outcome parts.old parts.new) }
    ensures leaves { IfOk result (λ outcome. LeavesFiles outcome.raising parts.old parts.new) }
    ensures last { OnErr result (NothingRefusesCall parts.old pid.0 (control_call args)) }
    ensures turns { IfOk result
        (λ outcome. Turns (CallOf pid (control_call args)) outcome.picked parts.old beside.old.lists
        parts.new beside.new.lists) }
    ensures spared { is_add args.op ≡ false → IsOk result }
    ensures goes { LeavesBeside (CallOf pid (control_call args)) parts.old beside.old parts.new
        beside.new }
    ensures err { OnErr result (StaysBeside parts.old beside.old parts.new beside.new) }
{
    let mut plan = match parts.plan(pid, args) {
        Ok(plan) => plan,
        Err(refused) => return Ok(refused),
    };
    plan.below = is_below_ready(parts, &mut beside.asked, plan.operation, plan.named.desc);
    match plan.found {
        Some(_) => alter(parts, beside, pid, args, plan),
        None => enter(parts, beside, pid, args, plan),
    }
}
