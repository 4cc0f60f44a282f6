//! The end of an event, with the ready lists and the hopes.
ghost use Rattle.std.specs.Prelude.{◌≡◌, ◌<◌, []};
ghost use Rattle.ep_alarms.specs.Alarms.{AreSet};
ghost use Rattle.ep_alarms.specs.Changes.{AreSetSince};
ghost use Rattle.ep_calls.specs.Ends.{RestsBy};
ghost use Rattle.ep_calls.specs.Parts.{AreCoherent};
ghost use Rattle.ep_calls.specs.Raising.{IsRaising};
ghost use Rattle.ep_choice.specs.Lost.{NotesLost};
ghost use Rattle.ep_choice.specs.Marking.{AreLookedAt, Fits, gets_mark_key};
ghost use Rattle.ep_climb.specs.Reach.{AreReached};
ghost use Rattle.ep_interest.specs.Registrations.{IsSound};
ghost use Rattle.ep_kernel.specs.Listed.{HopesFor};
ghost use Rattle.ep_kernel.specs.Running.{SpreadsWith};
ghost use Rattle.ep_kernel.specs.Stands.{FitsBeside, HasRoom};
ghost use Rattle.ep_table.specs.Value.{Sound};

use crate::beside::Beside;
use crate::climb::climb;
use crate::mark::mark_by_hopes;
use crate::places::drop_dying;
use ep_alarms::{Alarms, burial_leaves_alarms};
use ep_base::{DescId, EventNumber};
use ep_calls::{Parts, Raising};
use ep_choice::note_dying;

/// Does nothing. What holds of the parts between calls, with their registrations; a fact for proofs.
pub fn know(parts: &Parts)
    ensures coherent { AreCoherent parts.now }
    ensures tables { Sound parts.now.tables }
    ensures interest { IsSound parts.now.interest }
{
    parts.known();
    parts.interest.known();
}

/// Notes what an event raised, takes the dead away with their places and moments, puts what passes something on at the
/// end of its list and among the hopes, and lets what was raised climb. The instances that IN reached are noted, and
/// those that lost a registration that may have guarded them. Marks are still to be set, and what was passed on is
/// still to be forgotten.
#[inline(always)]
pub fn spread(
    parts: &mut Parts,
    beside: &mut Beside,
    alarms: &mut Alarms,
    step: EventNumber,
    raising: Raising,
)
    requires step { 0 < step }
    requires raises { IsRaising raising parts.old.tables }
    requires fits { FitsBeside parts.old beside.old }
    requires set { AreSetSince raising parts.old.tables parts.old.clock alarms.old }
    ensures spreads { SpreadsWith step raising parts.old beside.old parts.new beside.new }
    ensures room { HasRoom parts.new.interest beside.new }
    ensures lost { NotesLost parts.old parts.new beside.old.choice.lost.reached
        beside.new.choice.lost.reached }
    ensures set { AreSet parts.new.tables parts.new.clock alarms.new }
{
    know(parts);
    alarms.raise(parts, step, raising);
    know(parts);
    drop_dying(parts, beside);
    note_dying(parts, &mut beside.choice.lost);
    burial_leaves_alarms();
    alarms.drop_dying(&parts.tables);
    parts.bury(step);
    know(parts);
    climb(parts, beside, step);
    know(parts);
}

/// Sets marks, and forgets what was passed on in an event, and what was lost. All that is reportable stays among the
/// hopes, and the lists stay.
#[inline(always)]
pub fn rest(parts: &mut Parts, beside: &mut Beside, attend: Option<DescId>, step: EventNumber)
    requires step { 0 < step }
    requires hopes { HopesFor parts.old beside.old.asked.hopes }
    requires fits { Fits parts.old beside.old.reached beside.old.choice }
    requires reached { AreReached step parts.old.tables parts.old.interest
        beside.old.reached.reached }
    requires looked { AreLookedAt step parts.old beside.old.choice.lost.reached attend }
    ensures rests { RestsBy (gets_mark_key step parts.old attend) parts.old parts.new }
    ensures hopes { HopesFor parts.new beside.new.asked.hopes }
    ensures fits { Fits parts.new beside.new.reached beside.new.choice }
    ensures unlost { beside.new.choice.lost.reached ≡ [] }
    ensures lists { beside.new.lists ≡ beside.old.lists }
{
    mark_by_hopes(parts, beside, attend, step);
    parts.forget_passed();
}
