//! epoll_ctl, with the dates.
ghost use Rattle.std.specs.Prelude.{◌≡◌, ◌<◌, ◌+◌, IfOk, IfSome, IsOk, None, OnErr, false, true, ℕ, ℤ};
ghost use Rattle.ep_base.specs.declared.call.Event.TheVariants.{Call as CallOf};
ghost use Rattle.ep_machine.specs.Watches.{is_add};
ghost use Rattle.ep_calls.specs.Clock.{ClockStays};
ghost use Rattle.ep_calls.specs.Control.{control_call};
ghost use Rattle.ep_calls.specs.Does.{DoesCall};
ghost use Rattle.ep_calls.specs.Last.{NothingRefusesCall};
ghost use Rattle.ep_calls.specs.declared.control.Operation.TheVariants.{Add};
ghost use Rattle.ep_plain.specs.Control.{IsInRow, deleted_in, key_of, without_deleted};
ghost use Rattle.ep_plain.specs.Dating.{Grows, HasRoomFor};
ghost use Rattle.ep_plain.specs.Exact.{Follows, IsExact};

use crate::dating::Dating;
use crate::settle::know;
use ep_base::{EntryId, EntryNumber, Mask, Pid};
use ep_calls::{Control, Named, Operation, Outcome, Parts, Plan};
use ep_choice::note_deleted;
use ep_dates::Dates;
use ep_interest::Entry;
use std::alloc::AllocError;

/// Makes room for what is kept of the registration that is added next, and answers whether there is. `false` is want of
/// memory. No date changes.
fn make_next_room(parts: &Parts, dating: &mut Dating, named: Named, mask: Mask) -> bool
    ensures grows { Grows dating.old dating.new }
    ensures altered { dating.new.altered ≡ dating.old.altered }
    ensures room { result ≡ true
        → HasRoomFor dating.new (parts.now.interest.added + 1) named mask parts.now.interest.next }
{
    let Some(number) = parts.interest.added().checked_add(1) else {
        return false;
    };
    dating.make_room(named, mask, parts.interest.next_key(), EntryNumber(number))
}

/// Makes room for what is kept of what a call adds, and answers whether there is; `true` if it adds nothing. `false` is
/// want of memory. No date changes.
fn make_room(parts: &Parts, dating: &mut Dating, plan: Plan, mask: Mask) -> bool
    ensures grows { Grows dating.old dating.new }
    ensures altered { dating.new.altered ≡ dating.old.altered }
    ensures room { plan.operation ≡ Add → plan.found ≡ None → result ≡ true
        → HasRoomFor dating.new (parts.now.interest.added + 1) plan.named mask
        parts.now.interest.next }
{
    match (plan.operation, plan.found) {
        (Operation::Add, None) => make_next_room(parts, dating, plan.named, mask),
        _ => true,
    }
}

/// The key of the registration that a call is about: that of the one that is there, or of the one that is added next.
fn key_of(parts: &Parts, plan: Plan) -> EntryId
    ensures { result ≡ key_of parts.now.interest plan.found }
{
    match plan.found {
        Some(id) => id,
        None => parts.interest.next_key(),
    }
}

/// The registration that a DEL is about, with its key.
fn find_deleted(parts: &Parts, plan: Plan) -> Option<(EntryId, Entry)>
    ensures { result ≡ deleted_in plan.operation plan.found parts.now.interest }
{
    let Operation::Delete = plan.operation else {
        return None;
    };
    let id = plan.found?;
    let entry = parts.interest.get(id)?;
    Some((id, *entry))
}

/// Takes the date away of the registration that was deleted, if it had one.
fn drop_deleted(deleted: Option<(EntryId, Entry)>, dates: &mut Dates)
    requires { IfSome deleted (λ w. IsInRow dates.old w.0 w.1) }
    ensures { dates.new ≡ without_deleted deleted dates.old }
{
    let Some((id, entry)) = deleted else {
        return;
    };
    if dates.is_dated(entry.number) {
        dates.end(id, &entry);
    }
}

/// epoll_ctl(2), as `Parts::plan` and `Parts::control` do it, with the dates: a registration that is added gets a
/// place, and one that is deleted loses its date. Of the instance that it watches only the dates are asked whether it
/// is ready. What it is about is noted as altered. A refusal leaves the parts, and so does an `Err`, with no date
/// changed. That is want of memory, and comes only of an ADD that nothing refuses.
pub fn epoll_ctl(
    parts: &mut Parts,
    dating: &mut Dating,
    pid: Pid,
    args: Control,
) -> Result<Outcome, AllocError>
    requires exact { (n : ℕ) × IsExact n parts.old dating.old }
    ensures ok { IfOk result
        (λ outcome. (n caller : ℕ)
        → DoesCall n caller pid.0 (control_call args) outcome parts.old parts.new) }
    ensures follows { IfOk result
        (λ outcome. (n : ℕ) → 0 < n → IsExact n parts.old dating.old
        → Follows n (CallOf pid (control_call args)) outcome.answer outcome.picked parts.old
        dating.old parts.new dating.new) }
    ensures tables { parts.new.tables ≡ parts.old.tables }
    ensures clock { IfOk result
        (λ outcome. ClockStays outcome.raising parts.old.clock parts.new.clock) }
    ensures last { OnErr result (NothingRefusesCall parts.old pid.0 (control_call args)) }
    ensures spared { is_add args.op ≡ false → IsOk result }
    ensures err { OnErr result (parts.new ≡ parts.old) }
    ensures grows { OnErr result (Grows dating.old dating.new) }
{
    know(parts);
    let mut plan = match parts.plan(pid, args) {
        Ok(plan) => plan,
        Err(refused) => return Ok(refused),
    };
    dating.altered = Some(key_of(parts, plan));
    plan.below = dating.dates.is_ready(plan.named.desc);
    plan.has_room = make_room(parts, dating, plan, args.mask);
    note_deleted(parts, &mut dating.choice.lost, plan);
    let deleted = find_deleted(parts, plan);
    let outcome = parts.control(pid, args, plan)?;
    know(parts);
    drop_deleted(deleted, &mut dating.dates);
    Ok(outcome)
}
