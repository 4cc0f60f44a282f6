//! Each law is the contract of a function that does nothing, so that it is proved.
ghost use Rattle.ep_law.specs.Narrow.{ChangesAreRegular, RunsAreRegular, WokenIsNarrowed};
ghost use Rattle.ep_law.specs.Laws.{BeginningsAreSpread, DeathsInAnyOrder, Determined, EachSound};
ghost use Rattle.ep_law.specs.Laws.{EndsAreApart, ExclusiveTargets, FairRounds, GraphStaysLegal, NamedLives};
ghost use Rattle.ep_law.specs.Laws.{ReadyEquation, ReadyMarked, RefusalChangesNothing, ReportablesAreSpread};
ghost use Rattle.ep_law.specs.Laws.{SpreadEquation, SpreadLeast, UnguardedSpread, WokenMarked};

/// An instance is ready exactly where one of its registrations is reportable: five levels are enough
/// where the graph of instances is legal.
pub fn ready_equation()
    ensures law { ReadyEquation }
{}

/// What an event raises climbs through every armed registration that asks for it, where the graph is legal.
pub fn spread_equation()
    ensures law { SpreadEquation }
{}

/// The spread is within each family of sets that has what was raised and is closed under climbing.
pub fn spread_least()
    ensures law { SpreadLeast }
{}

/// A refusal changes the number of events alone.
pub fn refusal_changes_nothing()
    ensures law { RefusalChangesNothing }
{}

/// A run leads to one state.
pub fn determined()
    ensures law { Determined }
{}

/// In each state of a run the numbers of registrations are apart, from 1 to the number that was added,
/// and each registration was last reported no later than the event since which it is reportable.
pub fn each_sound()
    ensures law { EachSound }
{}

/// While a registration stays reportable and unreported, no other registration of its instance is reported twice.
pub fn fair_rounds()
    ensures law { FairRounds }
{}

/// close(2) and exit(2): the order in which descriptions die plays no part in what is left.
pub fn deaths_in_any_order()
    ensures law { DeathsInAnyOrder }
{}

/// A description dies where the last descriptor that names it is closed and no parked waiter holds it, and only then.
pub fn named_lives()
    ensures law { NamedLives }
{}

/// In each state of a run an unguarded ready instance with waiters has a marked one.
pub fn ready_waiters_are_marked()
    ensures law { ReadyMarked }
{}

/// An unguarded instance that the spread of an event reaches is woken: the spread reaches it with exclusive
/// registrations left out.
pub fn unguarded_are_reached_plainly()
    ensures law { UnguardedSpread }
{}

/// At the end of an event a ready instance with waiters that the event wakes has a marked one, guarded or not.
pub fn woken_waiters_are_marked()
    ensures law { WokenMarked }
{}

/// What an event wakes is what its spread reaches if only the chosen ones of the exclusive registrations pass on,
/// and the instance of a waiter that left. So one walk finds it.
pub fn woken_are_reached_narrowly()
    ensures law { WokenIsNarrowed }
{}

/// Each state of a run is regular, and so is the one to which an event leads, before it sets marks.
pub fn runs_are_regular()
    ensures runs { RunsAreRegular }
    ensures changes { ChangesAreRegular }
{}

/// In each state of a run no exclusive registration is on an instance, and each is armed.
pub fn exclusive_ones_are_apart()
    ensures law { ExclusiveTargets }
{}

/// In each state of a run no chain has more than five instances, each watching the next, and none is a loop.
pub fn graph_stays_legal()
    ensures law { GraphStaysLegal }
{}

/// In each state of a run each description has an end of an object of its own. It rests on the law of objects.
pub fn ends_are_apart()
    ensures law { EndsAreApart }
{
    ep_object::arrivals_are_raised();
}

/// A bit that begins to hold at a description which lives before and after an event is in the
/// event's spread, at instances too. It rests on the law of objects.
pub fn beginnings_are_spread()
    ensures law { BeginningsAreSpread }
{
    ep_object::arrivals_are_raised();
}

/// A registration that is reportable after an event was so once the event had changed it, or passes on
/// something of the event's spread; where it was there before the event, it was reportable then, or
/// passes on something. It rests on the law of objects.
pub fn reportables_are_spread()
    ensures law { ReportablesAreSpread }
{
    ep_object::arrivals_are_raised();
}
