//! The end of an event.
ghost use Rattle.std.specs.Prelude.{◌≡◌, ◌<◌, []};
ghost use Rattle.ep_alarms.specs.Alarms.{AreSet};
ghost use Rattle.ep_alarms.specs.Changes.{AreSetSince};
ghost use Rattle.ep_calls.specs.Burial.{Burial};
ghost use Rattle.ep_calls.specs.Ends.{RestsBy};
ghost use Rattle.ep_calls.specs.Ids.{KeepsIds};
ghost use Rattle.ep_calls.specs.Parts.{AreCoherent};
ghost use Rattle.ep_calls.specs.Raising.{IsRaising};
ghost use Rattle.ep_choice.specs.Choose.{HaveInstances};
ghost use Rattle.ep_choice.specs.Lost.{NotesLost};
ghost use Rattle.ep_choice.specs.Marking.{AreLookedAt, gets_mark_key};
ghost use Rattle.ep_climb.specs.Reach.{AreReached};
ghost use Rattle.ep_interest.specs.Registrations.{IsSound};
ghost use Rattle.ep_plain.specs.Dating.{Fits};
ghost use Rattle.ep_plain.specs.Exact.{TellsReady};
ghost use Rattle.ep_plain.specs.Loses.{Loses};
ghost use Rattle.ep_plain.specs.Spread.{SpreadsTo};
ghost use Rattle.ep_table.specs.Value.{Sound as SoundTables};

use crate::by_dates::ByDates;
use crate::dating::Dating;
use ep_alarms::{Alarms, burial_leaves_alarms};
use ep_base::{DescId, EventNumber};
use ep_calls::{Parts, Raising};
use ep_choice::{mark_woken, note_dying};
use ep_climb::climb;
use ep_dates::drop_dying;

/// Does nothing. What holds of the parts between calls, with their registrations; a fact for proofs.
pub fn know(parts: &Parts)
    ensures coherent { AreCoherent parts.now }
    ensures tables { SoundTables parts.now.tables }
    ensures interest { IsSound parts.now.interest }
{
    parts.known();
    parts.interest.known();
}

/// Takes the dead away, with the dates of their registrations and of those on them. The instances that lost the last
/// of their reportable registrations in this event are `gone` then, and those that lost one that may have guarded them
/// are noted as `lost`.
fn bury(parts: &mut Parts, dating: &mut Dating, step: EventNumber)
    requires fits { Fits parts.old.interest dating.old }
    ensures burial { Burial step parts.old.tables parts.old.interest parts.new.tables
        parts.new.interest }
    ensures ids { KeepsIds parts.old.interest parts.new.interest }
    ensures parked { parts.new.parked ≡ parts.old.parked }
    ensures clock { parts.new.clock ≡ parts.old.clock }
    ensures loses { Loses parts.old.interest parts.new.interest dating.old.dates
        (record dating.new.dates { turned = dating.new.gone }) }
    ensures fits { Fits parts.new.interest dating.new }
    ensures altered { dating.new.altered ≡ dating.old.altered }
    ensures lost { NotesLost parts.old parts.new dating.old.choice.lost.reached
        dating.new.choice.lost.reached }
{
    know(parts);
    drop_dying(parts, &mut dating.dates);
    note_dying(parts, &mut dating.choice.lost);
    parts.bury(step);
    know(parts);
    dating.dates.hand_over(&mut dating.gone);
}

/// Notes what an event raised, takes the dead away with their dates and moments, and lets what was raised climb through
/// instances. Marks are still to be set, and what was passed on is still to be forgotten.
pub fn spread(
    parts: &mut Parts,
    dating: &mut Dating,
    alarms: &mut Alarms,
    step: EventNumber,
    raising: Raising,
)
    requires step { 0 < step }
    requires raises { IsRaising raising parts.old.tables }
    requires set { AreSetSince raising parts.old.tables parts.old.clock alarms.old }
    requires fits { Fits parts.old.interest dating.old }
    ensures spreads { SpreadsTo step raising parts.old dating.old parts.new dating.new }
    ensures set { AreSet parts.new.tables parts.new.clock alarms.new }
{
    know(parts);
    alarms.raise(parts, step, raising);
    know(parts);
    burial_leaves_alarms();
    alarms.drop_dying(&parts.tables);
    bury(parts, dating, step);
    know(parts);
    climb(parts, &mut dating.reached, step);
    know(parts);
}

/// Sets marks by the dates of the registrations, and forgets what was passed on in an event, and what was lost.
pub fn rest(parts: &mut Parts, dating: &mut Dating, attend: Option<DescId>, step: EventNumber)
    requires step { 0 < step }
    requires ready { TellsReady parts.old dating.old.dates }
    requires instances { HaveInstances parts.old }
    requires fits { Fits parts.old.interest dating.old }
    requires reached { AreReached step parts.old.tables parts.old.interest
        dating.old.reached.reached }
    requires looked { AreLookedAt step parts.old dating.old.choice.lost.reached attend }
    ensures rests { RestsBy (gets_mark_key step parts.old attend) parts.old parts.new }
    ensures fits { Fits parts.new.interest dating.new }
    ensures unlost { dating.new.choice.lost.reached ≡ [] }
    ensures dates { dating.new.dates ≡ dating.old.dates }
    ensures altered { dating.new.altered ≡ dating.old.altered }
{
    let mut by_dates = ByDates {
        dates: &dating.dates,
    };
    mark_woken(
        parts,
        &mut by_dates,
        &mut dating.reached,
        &mut dating.choice,
        attend,
        step,
    );
    parts.forget_passed();
}
