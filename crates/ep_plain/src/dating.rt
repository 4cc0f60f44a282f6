//! The dates of registrations, with what an event touches of them.
ghost use Rattle.std.specs.Prelude.{◌≡◌, OnOk, true};
ghost use Rattle.ep_plain.specs.Dating.{Grows, HasRoomFor, IsNew};

use ep_base::{EntryId, EntryNumber, Mask};
use ep_calls::Named;
use ep_choice::Choice;
use ep_dates::Dates;
use ep_walk::Walk;
use std::alloc::{AllocError, Global};

/// Since which event each registration is reportable, and what an event touches, by which it is dated at the end.
#[derive(Drop)]
pub struct Dating {
    /// The dates, and which registrations of an instance are reportable.
    pub dates: Dates,
    /// The registration that an epoll_ctl names.
    pub altered: Option<EntryId>,
    /// The instances that IN reached.
    pub reached: Walk<Global>,
    /// The instances that lost the last of their reportable registrations to a DEL, or to a death.
    pub gone: Walk<Global>,
    /// The registrations that a report is said to be of, by their keys.
    pub flags: Walk<Global>,
    /// What chooses among exclusive registrations.
    pub choice: Choice,
}

impl Dating {
    /// Of no registrations.
    pub fn new(alloc: Global) -> Dating
        ensures { IsNew result }
    {
        Dating {
            dates: Dates::new(alloc),
            altered: None,
            reached: Walk::new(alloc),
            gone: Walk::new(alloc),
            flags: Walk::new(alloc),
            choice: Choice::new(alloc),
        }
    }

    /// Makes room for a registration of these two with a mask, under a key and with a number. An `Err` is want of
    /// memory. No date changes, and there is no less room than before.
    fn try_room(
        &mut self,
        named: Named,
        mask: Mask,
        id: EntryId,
        number: EntryNumber,
    ) -> Result<(), AllocError>
        ensures grows { Grows self.old self.new }
        ensures altered { self.new.altered ≡ self.old.altered }
        ensures room { OnOk result (HasRoomFor self.new number named mask id.0) }
    {
        let Named { instance, .. } = named;
        self.dates.make_room(instance, id, number)?;
        self.reached.make_room(instance.0)?;
        self.gone.make_room(instance.0)?;
        self.choice.make_room(named, mask, id)?;
        self.flags.make_room(id.0)
    }

    /// The same, and whether there is room then. `false` is want of memory.
    pub fn make_room(&mut self, named: Named, mask: Mask, id: EntryId, number: EntryNumber) -> bool
        ensures grows { Grows self.old self.new }
        ensures altered { self.new.altered ≡ self.old.altered }
        ensures room { result ≡ true → HasRoomFor self.new number named mask id.0 }
    {
        self.try_room(named, mask, id, number).is_ok()
    }
}
