//! The walks of a choice.
ghost use Rattle.std.specs.Prelude.{◌≡◌, [], OnOk};
ghost use Rattle.ep_choice.specs.Room.{HasRoomFor, Widens};

use crate::candidates::Candidates;
use bitflags::Flags;
use ep_base::{EntryId, Mask};
use ep_calls::Named;
use ep_walk::Walk;
use std::alloc::{AllocError, Global};

/// What an event goes along that asks which of the exclusive registrations it wakes, and which instances have lost one.
/// Between two events it has room for each registration, and nothing is lost.
#[derive(Drop)]
pub struct Choice {
    /// The exclusive registrations on a target that pass something on, and what their instances answered.
    pub candidates: Candidates,
    /// The targets of the exclusive registrations that pass something on.
    pub targets: Walk<Global>,
    /// The instances that lost a registration in the event that was exclusive or on an instance.
    pub lost: Walk<Global>,
}

impl Choice {
    /// Nothing, with room for nothing, which takes no memory.
    pub fn new(alloc: Global) -> Choice
        ensures { result.lost.reached ≡ [] }
    {
        Choice {
            candidates: Candidates::new(alloc),
            targets: Walk::new(alloc),
            lost: Walk::new(alloc),
        }
    }

    /// Makes room for a registration of these two under a key, in constant time if there is room. Only an exclusive one
    /// has its key and its target here, and a place for what its instance answers. An `Err` is want of memory. There is
    /// no less room than before.
    #[inline(always)]
    pub fn make_room(&mut self, named: Named, mask: Mask, id: EntryId) -> Result<(), AllocError>
        ensures widens { Widens self.old self.new }
        ensures room { OnOk result (HasRoomFor self.new named mask id.0) }
    {
        self.lost.make_room(named.instance.0)?;
        if !mask.intersects(Mask::EXCLUSIVE) {
            return Ok(());
        }
        self.targets.make_room(named.desc.0)?;
        self.candidates.make_room(named.instance, id)
    }
}
