//! Waits that report given registrations.
ghost use Rattle.std.specs.List.{find, list_any};
ghost use Rattle.std.specs.Prelude.{◌≡◌, ◌<◌, [], IfNone, IfOk, IsOk, IsSome, OnErr, None, Some, false, map, option_copied, true, ℕ};
ghost use Rattle.ep_alarms.specs.Changes.{LeavesFiles, MayCreate, MovesClock, TouchesTables};
ghost use Rattle.ep_base.specs.declared.call.Event.TheVariants.{Resume};
ghost use Rattle.ep_law.specs.Sound.{Sound};
ghost use Rattle.ep_machine.specs.Report.{is_pick as is_report};
ghost use Rattle.ep_machine.specs.Waits.{is_positive};
ghost use Rattle.ep_machine.specs.Watches.{number_in};
ghost use Rattle.ep_table.specs.Value.{number_under};
ghost use Rattle.ep_park.specs.Waiters.{is_caller, parked};
ghost use Rattle.ep_calls.specs.Does.{DoesCallIf, DoesEventIf};
ghost use Rattle.ep_calls.specs.Kept.{KeepsEvent};
ghost use Rattle.ep_calls.specs.Last.{NothingRefuses, NothingRefusesCall};
ghost use Rattle.ep_calls.specs.Spared.{IsSpared};
ghost use Rattle.ep_calls.specs.Stands.{number_at};
ghost use Rattle.ep_calls.specs.Wait.{Waits, wait_call, with_report};
ghost use Rattle.ep_dates.specs.Order.{AreInTurn};
ghost use Rattle.ep_plain.specs.Dating.{Fits, Grows};
ghost use Rattle.ep_plain.specs.Exact.{Follows, IsExact};
ghost use Rattle.ep_plain.specs.Since.{IsDated};
ghost use Rattle.ep_plain.specs.These.{ForEach, MayGo, MayPick, MayReport, PicksThese, ReportsThese, WherePicked, goes_with};

use crate::act::act;
use crate::choose::most;
use crate::dating::Dating;
use crate::take::take;
use crate::waiting::{Waiting, find_waiting};
use ep_base::{CallerId, DescId, EntryNumber, Event};
use ep_calls::{Outcome, Parts, Request, Wait};
use ep_dates::is_pick;
use ep_park::Waiter;
use std::alloc::AllocError;

/// A call that waits, not refused, and reports what it is given. An `Err` is want of memory and leaves the parts.
fn wait_these(
    parts: &mut Parts,
    request: Request,
    args: Wait,
    instance: DescId,
    dating: &Dating,
    picks: &[EntryNumber],
) -> Result<Outcome, AllocError>
    requires free { list_any (is_caller request.caller.0) parts.old.parked ≡ false }
    requires waits { Waits parts.old.tables args instance }
    requires exact { IsExact request.step parts.old dating.now }
    ensures ok { IfOk result
        (λ outcome. DoesCallIf (MayPick parts.old instance (number_in args.max) picks.now)
        request.step request.caller.0 args.pid.0 (wait_call args) outcome parts.old parts.new) }
    ensures leaves { IfOk result (λ outcome. LeavesFiles outcome.raising parts.old parts.new) }
    ensures ids { parts.new.interest.keys ≡ parts.old.interest.keys }
    ensures entries { IfOk result
        (λ outcome. parts.new.interest.entries
        ≡ map (with_report request.step outcome.picked) parts.old.interest.entries) }
    ensures picked { IfOk result
        (λ outcome. WherePicked parts.old instance (number_in args.max) picks.now
        (outcome.picked ≡ picks.now)) }
    ensures last { OnErr result (NothingRefusesCall parts.old args.pid.0 (wait_call args)) }
    ensures err { OnErr result (parts.new ≡ parts.old) }
{
    parts.tables.known();
    let chosen = take(parts, &dating.dates, instance, picks)?;
    parts.wait_with(request.step, request.caller, args, instance, &chosen)
}

/// The resumption of a marked caller that reports what it is given. An `Err` is want of memory and leaves the parts.
fn resume_these(
    parts: &mut Parts,
    request: Request,
    waiter: Waiter,
    dating: &Dating,
    picks: &[EntryNumber],
) -> Result<Outcome, AllocError>
    requires parked { find (is_caller request.caller.0) parts.old.parked
        ≡ Some (parked request.caller.0 waiter) }
    requires marked { waiter.marked ≡ true }
    requires exact { IsExact request.step parts.old dating.now }
    ensures ok { IfOk result
        (λ outcome. DoesEventIf (MayPick parts.old waiter.instance (number_in waiter.max) picks.now)
        request.step request.caller.0 Resume outcome parts.old parts.new) }
    ensures leaves { IfOk result (λ outcome. LeavesFiles outcome.raising parts.old parts.new) }
    ensures ids { parts.new.interest.keys ≡ parts.old.interest.keys }
    ensures entries { IfOk result
        (λ outcome. parts.new.interest.entries
        ≡ map (with_report request.step outcome.picked) parts.old.interest.entries) }
    ensures picked { IfOk result
        (λ outcome. WherePicked parts.old waiter.instance (number_in waiter.max) picks.now
        (outcome.picked ≡ picks.now)) }
    ensures last { OnErr result (NothingRefuses parts.old request.caller.0 Resume) }
    ensures err { OnErr result (parts.new ≡ parts.old) }
{
    parts.tables.known();
    let chosen = take(parts, &dating.dates, waiter.instance, picks)?;
    parts.resume_with(request.step, request.caller, waiter, &chosen, request.kept)
}

/// One event whose report is of these registrations, in this order. An `Err` is want of memory, or of room for what it
/// would add. It leaves the parts, and comes only if nothing refuses the event.
fn act_these(
    parts: &mut Parts,
    request: Request,
    event: &Event,
    dating: &mut Dating,
    picks: &[EntryNumber],
) -> Result<Outcome, AllocError>
    requires step { 0 < request.step }
    requires exact { IsExact request.step parts.old dating.old }
    ensures ok { IfOk result
        (λ outcome. DoesEventIf (MayGo parts.old request.caller.0 event.now picks.now) request.step
        request.caller.0 event.now outcome parts.old parts.new) }
    ensures tables { IfOk result
        (λ outcome. TouchesTables event.now outcome.answer parts.old parts.new) }
    ensures clock { IfOk result
        (λ outcome. MovesClock event.now outcome.raising parts.old.clock parts.new.clock) }
    ensures timers { request.has_room ≡ false → MayCreate event.now
        → parts.new.tables ≡ parts.old.tables }
    ensures follows { IfOk result
        (λ outcome. Follows request.step event.now outcome.answer outcome.picked parts.old dating.old
        parts.new dating.new) }
    ensures picked { IfOk result
        (λ outcome. PicksThese request.step parts.old request.caller.0 event.now picks.now
        outcome.picked) }
    ensures last { OnErr result (NothingRefuses parts.old request.caller.0 event.now) }
    ensures err { OnErr result (parts.new ≡ parts.old) }
    ensures grows { OnErr result (Grows dating.old dating.new) }
{
    match find_waiting(parts, request.caller, event) {
        Some(Waiting::Call { args, instance }) => {
            wait_these(parts, request, args, instance, dating, picks)
        }
        Some(Waiting::Parked { waiter }) => resume_these(parts, request, waiter, dating, picks),
        None => act(parts, request, event, dating),
    }
}

/// One event whose report is of these registrations, in this order, and of the longest unreported where none are given:
/// then it may ask for what a second record of it is made of. An `Err` is want of memory, or of room for what it would
/// add. It leaves the parts, and comes only if nothing refuses the event. Where none are given, it comes of no event
/// that `IsSpared` names.
#[inline(always)]
pub fn act_with(
    parts: &mut Parts,
    request: Request,
    event: &Event,
    dating: &mut Dating,
    picks: Option<&[EntryNumber]>,
) -> Result<Outcome, AllocError>
    requires step { 0 < request.step }
    requires exact { IsExact request.step parts.old dating.old }
    ensures ok { IfOk result
        (λ outcome. DoesEventIf
        (MayReport parts.old request.caller.0 event.now (option_copied picks.entry)) request.step
        request.caller.0 event.now outcome parts.old parts.new) }
    ensures tables { IfOk result
        (λ outcome. TouchesTables event.now outcome.answer parts.old parts.new) }
    ensures clock { IfOk result
        (λ outcome. MovesClock event.now outcome.raising parts.old.clock parts.new.clock) }
    ensures timers { request.has_room ≡ false → MayCreate event.now
        → parts.new.tables ≡ parts.old.tables }
    ensures follows { IfOk result
        (λ outcome. Follows request.step event.now outcome.answer outcome.picked parts.old dating.old
        parts.new dating.new) }
    ensures picked { IfOk result
        (λ outcome. ReportsThese request.step parts.old request.caller.0 event.now
        (option_copied picks.entry) outcome.picked) }
    ensures kept { IfOk result
        (λ outcome. IfNone (option_copied picks.entry) (KeepsEvent event.now request.kept outcome)) }
    ensures spared { option_copied picks.entry ≡ None → IsSpared parts.old.tables.files event.now
        → IsOk result }
    ensures last { OnErr result (NothingRefuses parts.old request.caller.0 event.now) }
    ensures err { OnErr result (parts.new ≡ parts.old) }
    ensures grows { OnErr result (Grows dating.old dating.new) }
{
    match picks {
        None => act(parts, request, event, dating),
        Some(picks) => act_these(parts, request, event, dating, picks),
    }
}

/// Whether the machine may report these registrations in this order at an instance, at most `max` of them, by the
/// dates. It takes no memory, and the time grows with how many are given. No flag is set before and afterwards.
fn may_pick(
    parts: &Parts,
    dating: &mut Dating,
    instance: DescId,
    max: i32,
    picks: &[EntryNumber],
) -> bool
    requires lives { IsSome (number_under parts.now.tables instance) }
    requires positive { is_positive max ≡ true }
    requires fits { Fits parts.now.interest dating.old }
    requires order { (m : ℕ) × AreInTurn m parts.now.interest dating.old.dates }
    ensures picks { ForEach parts.now
        (λ s. IsDated s dating.old.dates.since
        → result ≡ is_report s (number_at parts.now.tables.keys instance) (number_in max) picks.now) }
    ensures others { dating.new ≡ record dating.old { flags = dating.new.flags } }
    ensures unflagged { dating.new.flags.reached ≡ [] }
    ensures room { dating.new.flags.room ≡ dating.old.flags.room }
{
    parts.known();
    parts.interest.known();
    dating.dates.known();
    is_pick(
        &parts.interest,
        &dating.dates,
        &mut dating.flags,
        instance,
        most(max),
        picks,
    )
}

/// Whether the machine has a step that reports these registrations in this order, by the dates. It takes no memory, and
/// the time grows with how many are given. No flag is set before and afterwards.
pub fn allows(
    parts: &Parts,
    dating: &mut Dating,
    caller: CallerId,
    event: &Event,
    picks: &[EntryNumber],
) -> bool
    requires fits { Fits parts.now.interest dating.old }
    requires order { (m : ℕ) × AreInTurn m parts.now.interest dating.old.dates }
    ensures goes { ForEach parts.now
        (λ s. IsDated s dating.old.dates.since
        → result ≡ goes_with parts.now.tables.limits caller.0 event.now picks.now s) }
    ensures others { dating.new ≡ record dating.old { flags = dating.new.flags } }
    ensures unflagged { dating.new.flags.reached ≡ [] }
    ensures room { dating.new.flags.room ≡ dating.old.flags.room }
{
    parts.known();
    match find_waiting(parts, caller, event) {
        Some(Waiting::Call { args, instance }) => {
            may_pick(parts, dating, instance, args.max, picks)
        }
        Some(Waiting::Parked { waiter }) => {
            may_pick(parts, dating, waiter.instance, waiter.max, picks)
        }
        None => picks.is_empty(),
    }
}
