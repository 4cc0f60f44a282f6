//! What an event raised climbs through instances, and comes to lists and hopes on its way.
ghost use Rattle.std.specs.Prelude.{◌≡◌, ◌<◌};
ghost use Rattle.ep_calls.specs.Climb.{Rises};
ghost use Rattle.ep_climb.specs.Reach.{AreRoomy};
ghost use Rattle.ep_kernel.specs.Beside.{Both};
ghost use Rattle.ep_kernel.specs.Listed.{HavePlaces};
ghost use Rattle.ep_kernel.specs.Push.{Climbs};

use crate::beside::Beside;
use crate::push::push;
use ep_base::EventNumber;
use ep_calls::Parts;
use ep_climb::{freshen, reach};

/// Puts each registration at the end of its list and among the hopes, if it does not stand there, that passes something
/// of an event on, and makes what watches an instance that IN reaches fresh. Those instances are reached afterwards.
/// What was passed on is still to be forgotten. The time grows with what passes something on, and with the
/// registrations on what is reached.
pub fn climb(parts: &mut Parts, beside: &mut Beside, step: EventNumber)
    requires step { 0 < step }
    requires places { Both (HavePlaces parts.old.interest) beside.old }
    requires room { AreRoomy parts.old.interest beside.old.reached }
    ensures climbs { Climbs step parts.old beside.old beside.new }
    ensures rises { Rises step parts.old.tables parts.old.interest parts.new.interest }
    ensures keys { parts.new.interest.keys ≡ parts.old.interest.keys }
    ensures others { parts.new ≡ record parts.old { interest = parts.new.interest } }
{
    reach(parts, &mut beside.reached, step);
    push(parts, beside);
    freshen(parts, &beside.reached);
}
