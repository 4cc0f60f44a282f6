//! What instances answered to the question whether they are ready, and what may be reportable there.
ghost use Rattle.std.specs.Prelude.{◌≡◌, ◌<◌, [], OnOk};
ghost use Rattle.ep_kernel.specs.Asked.{answer_of, noted};
ghost use Rattle.ep_ready.specs.ReadyLists.{empty};

use ep_base::DescId;
use ep_ready::ReadyLists;
use ep_walk::Walk;
use std::alloc::{AllocError, Global};

/// The instances that were asked whether they are ready since the answers were last forgotten, by what they answered.
/// Beside them stand the hopes: for each instance a list of what may be reportable there, in any order. All that is
/// reportable is on it; what is so no more leaves it once it is asked.
#[derive(Drop)]
pub struct Asked {
    /// Those that are ready.
    pub ready: Walk<Global>,
    /// Those at which nothing is reportable.
    pub idle: Walk<Global>,
    /// What may be reportable at each instance.
    pub hopes: ReadyLists,
}

impl Asked {
    /// No answers, no hopes, and room for none, which takes no memory.
    pub fn new(alloc: Global) -> Asked
        ensures ready { result.ready.reached ≡ [] }
        ensures idle { result.idle.reached ≡ [] }
        ensures hopes { result.hopes ≡ empty }
    {
        Asked {
            ready: Walk::new(alloc),
            idle: Walk::new(alloc),
            hopes: ReadyLists::new(alloc),
        }
    }

    /// Makes room for the answer of an instance, in constant time where there is room. An `Err` is want of memory.
    /// The answers and the hopes stay.
    pub fn make_room(&mut self, instance: DescId) -> Result<(), AllocError>
        ensures ready { self.new.ready.reached ≡ self.old.ready.reached }
        ensures idle { self.new.idle.reached ≡ self.old.idle.reached }
        ensures hopes { self.new.hopes ≡ self.old.hopes }
        ensures ready_room { OnOk result (instance.0 < self.new.ready.room) }
        ensures idle_room { OnOk result (instance.0 < self.new.idle.room) }
    {
        self.ready.make_room(instance.0)?;
        self.idle.make_room(instance.0)
    }

    /// What an instance answered, in constant time. `None` where its answer is not known.
    pub fn answer(&self, instance: DescId) -> Option<bool>
        ensures { result ≡ answer_of self.now instance.0 }
    {
        if self.ready.has(instance.0) {
            return Some(true);
        }
        if self.idle.has(instance.0) {
            return Some(false);
        }
        None
    }

    /// Notes the answer of an instance, in constant time. Where there is no room for it, it is not noted.
    pub fn note(&mut self, instance: DescId, ready: bool)
        ensures { self.new ≡ noted self.old instance.0 ready }
    {
        if ready {
            self.ready.note(instance.0);
        } else {
            self.idle.note(instance.0);
        }
    }

    /// Forgets all answers, in time that grows with how many there are. The room and the hopes stay.
    pub fn forget(&mut self)
        ensures ready { self.new.ready.reached ≡ [] }
        ensures idle { self.new.idle.reached ≡ [] }
        ensures hopes { self.new.hopes ≡ self.old.hopes }
        ensures ready_room { self.new.ready.room ≡ self.old.ready.room }
        ensures idle_room { self.new.idle.room ≡ self.old.idle.room }
    {
        self.ready.forget();
        self.idle.forget();
    }
}
