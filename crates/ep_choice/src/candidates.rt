//! Which registrations a choice goes through, and what their instances answered.
ghost use Rattle.std.specs.Prelude.{◌≡◌, ◌<◌, ◌≤◌, [], OnOk};
ghost use Rattle.ep_choice.specs.Answers.{KnowsNone, with_answer};

use ep_base::{DescId, EntryId};
use ep_walk::Walk;
use std::alloc::{AllocError, Global};

/// The exclusive registrations on a target that pass something on, and which instances are known to find somebody, or
/// nobody, in an event. Who is found doesn't change while an event chooses, so each instance is asked once.
#[derive(Drop)]
pub struct Candidates {
    /// Those registrations, by their keys.
    pub keys: Walk<Global>,
    /// The instances that find somebody.
    pub found: Walk<Global>,
    /// The instances that find nobody.
    pub vain: Walk<Global>,
}

impl Candidates {
    /// None, and nothing is known, with room for nothing, which takes no memory.
    pub(crate) fn new(alloc: Global) -> Candidates {
        Candidates {
            keys: Walk::new(alloc),
            found: Walk::new(alloc),
            vain: Walk::new(alloc),
        }
    }

    /// Makes room for an exclusive registration of an instance under a key, in constant time if there is room. An `Err`
    /// is want of memory. There is no less room than before.
    pub(crate) fn make_room(&mut self, instance: DescId, id: EntryId) -> Result<(), AllocError>
        ensures more { self.old.keys.room ≤ self.new.keys.room }
        ensures room { OnOk result (id.0 < self.new.keys.room) }
    {
        self.found.make_room(instance.0)?;
        self.vain.make_room(instance.0)?;
        self.keys.make_room(id.0)
    }

    /// Notes whether an instance finds somebody. An instance without room would be asked again.
    pub(crate) fn note(&mut self, instance: DescId, finds: bool)
        ensures { self.new ≡ with_answer self.old instance.0 finds }
    {
        if finds {
            self.found.note(instance.0);
        } else {
            self.vain.note(instance.0);
        }
    }

    /// Forgets what instances answered, since another event may find others.
    pub(crate) fn forget_answers(&mut self)
        ensures keys { self.new.keys ≡ self.old.keys }
        ensures none { KnowsNone self.new }
    {
        self.found.forget();
        self.vain.forget();
    }
}
