//! The hopes tell whether an instance is ready, and marks are set by them at the end of an event.
ghost use Rattle.std.specs.Prelude.{◌≡◌, ◌<◌, []};
ghost use Rattle.ep_choice.specs.Marking.{AreLookedAt, Fits, IsNarrowed, due_in, gets_mark_key};
ghost use Rattle.ep_climb.specs.Reach.{AreReached};
ghost use Rattle.ep_kernel.specs.Asked.{KnowsIn};
ghost use Rattle.ep_kernel.specs.Listed.{HopesFor};
ghost use Rattle.ep_machine.specs.Marks.{marked_by};

use crate::asked::Asked;
use crate::beside::Beside;
use crate::readiness::is_ready;
use ep_base::{DescId, EventNumber};
use ep_calls::Parts;
use ep_climb::Readiness;

impl Readiness for Asked {
    ghost knows = { KnowsIn };

    fn is_ready(&mut self, parts: &Parts, instance: DescId) -> bool {
        is_ready(parts, self, instance)
    }
}

/// Sets marks at the end of an event, as ep_choice does, by what the hopes tell. Each instance below those that are
/// looked at is asked once. All that is reportable stays among the hopes, and the lists stay.
#[inline(always)]
pub fn mark_by_hopes(
    parts: &mut Parts,
    beside: &mut Beside,
    attend: Option<DescId>,
    step: EventNumber,
)
    requires step { 0 < step }
    requires hopes { HopesFor parts.old beside.old.asked.hopes }
    requires fits { Fits parts.old beside.old.reached beside.old.choice }
    requires reached { AreReached step parts.old.tables parts.old.interest
        beside.old.reached.reached }
    requires looked { AreLookedAt step parts.old beside.old.choice.lost.reached attend }
    ensures marks { parts.new.parked
        ≡ marked_by (gets_mark_key step parts.old attend) parts.old.clock parts.old.parked }
    ensures narrowed { IsNarrowed step (record parts.old { parked = due_in parts.old })
        parts.new }
    ensures hopes { HopesFor parts.new beside.new.asked.hopes }
    ensures fits { Fits parts.new beside.new.reached beside.new.choice }
    ensures unlost { beside.new.choice.lost.reached ≡ [] }
    ensures lists { beside.new.lists ≡ beside.old.lists }
{
    beside.asked.forget();
    ep_choice::mark_woken(
        parts,
        &mut beside.asked,
        &mut beside.reached,
        &mut beside.choice,
        attend,
        step,
    );
}
