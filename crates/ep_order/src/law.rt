//! The laws. Each is the contract of a function that does nothing.
ghost use Rattle.ep_order.specs.Ending.{CallEndsHereOnly, ClockEndsNothing, CloseEndsNothing, UntouchedStayReportable};
ghost use Rattle.ep_order.specs.Event.{BeginningKeepsTurns, DeadListsAreEmpty, ListsGoOn};
ghost use Rattle.ep_order.specs.Mark.{LeavesByResuming, LosesGuard, MarkedAreLookedAt, UnmarkedAreReached};
ghost use Rattle.ep_order.specs.Mark.{UnmarkedAreWoken};
ghost use Rattle.ep_order.specs.Order.{FirstAreFair, StaysComplete, StaysFair};
ghost use Rattle.ep_order.specs.Pick.{FirstArePick};
ghost use Rattle.ep_order.specs.Reach.{AboveIsAbove, GuardedIsAbove, ReachedIsAbove};
ghost use Rattle.ep_order.specs.Step.{StepAddsOne, StepKeepsTurns};

/// A list stays in a fair order over an event, where what stays keeps its order and what comes, comes behind. Does
/// nothing.
pub fn stays_fair()
    ensures law { StaysFair }
{}

/// A list that has each reportable registration has each after an event, too, where those that come to be reportable
/// come to it. Does nothing.
pub fn stays_complete()
    ensures law { StaysComplete }
{}

/// The first reportable registrations of a list in a fair order were not reported since any other came to be
/// reportable. Does nothing.
pub fn first_are_fair()
    ensures law { FirstAreFair }
{}

/// The first reportable registrations of a complete list in a fair order are a pick of the machine. Does nothing.
pub fn first_are_pick()
    ensures law { FirstArePick }
{}

/// What a step leaves of the events by which registrations are reported in turn. Does nothing.
pub fn step_keeps_turns()
    ensures law { StepKeepsTurns }
{}

/// A step adds one registration, or none. Does nothing.
pub fn step_adds_one()
    ensures law { StepAddsOne }
{}

/// What an event reaches are the instances at which something is passed on, and those above them. Does nothing.
pub fn reached_is_above()
    ensures law { ReachedIsAbove }
{}

/// The instances above one, by registrations that let IN climb, are those to which chains of such links lead. Does
/// nothing.
pub fn above_is_above()
    ensures law { AboveIsAbove }
{}

/// The guarded instances are those that have an exclusive registration in them or beneath them. Does nothing.
pub fn guarded_is_above()
    ensures law { GuardedIsAbove }
{}

/// An instance that is ready and unguarded after an event and has waiters, none of them marked before marks are set, is
/// woken by the event, or was guarded before it. So no other instance needs a look when marks are set. Does nothing.
pub fn unmarked_are_woken()
    ensures law { UnmarkedAreWoken }
{
    ep_object::arrivals_are_raised();
}

/// An instance that was unguarded before an event and is ready after it, with waiters, none of them marked before marks
/// are set, is reached from below, or the event raised IN at it, or resumed a caller that left it. Does nothing.
pub fn unmarked_are_reached()
    ensures law { UnmarkedAreReached }
{
    ep_object::arrivals_are_raised();
}

/// Whoever is to be marked at the end of an event waits at an instance that it wakes, or at one that was guarded before
/// it and has lost a guard. So no other instance needs a look. Does nothing.
pub fn marked_are_looked_at()
    ensures law { MarkedAreLookedAt }
{
    ep_object::arrivals_are_raised();
}

/// A caller leaves an instance exactly if the event resumes one that waits there, and it is parked no more. Does
/// nothing.
pub fn leaves_by_resuming()
    ensures law { LeavesByResuming }
{}

/// An instance that an event leaves unguarded has lost a registration that was exclusive or on an instance, or is
/// above one that has. Does nothing.
pub fn loses_guard()
    ensures law { LosesGuard }
{}

/// That an event begins changes no turn, and a refused event does nothing else. Does nothing.
pub fn beginning_keeps_turns()
    ensures law { BeginningKeepsTurns }
{}

/// A complete list in a fair order is one after each event that is not refused, where it goes on as `Relists` says.
/// Does nothing.
pub fn lists_go_on()
    ensures law { ListsGoOn }
{
    ep_object::arrivals_are_raised();
}

/// Nothing is reportable at an instance that does not live. So an empty list is complete where an event makes the
/// instance. Does nothing.
pub fn dead_lists_are_empty()
    ensures law { DeadListsAreEmpty }
{}

/// A bit ends only at the end of an object on which a call is made: a call on one end ends no bit at the other, a close
/// ends none at either, and none ends as the clock goes on. Does nothing.
pub fn bits_end_where_called()
    ensures call { CallEndsHereOnly }
    ensures close { CloseEndsNothing }
    ensures clock { ClockEndsNothing }
{}

/// A registration that is reportable before an event is so after it, if it is still there and the event doesn't touch
/// it: the event neither reports, adds or modifies it, nor is a call on what it watches. If it watches an instance,
/// that has to be ready at the end. Which instances were said to be ready before plays no part. It rests on the law
/// that each description has an end of its own. Does nothing.
pub fn untouched_stay_reportable()
    ensures law { UntouchedStayReportable }
{
    ep_object::arrivals_are_raised();
    ep_law::laws::ends_are_apart();
}
