//! Room for the dates of registrations. Only this takes memory.
ghost use Rattle.std.specs.Prelude.{◌≡◌, ◌≤◌, ℕ, OnOk, length};
ghost use Rattle.ep_dates.specs.Dates.{AreNew, HasRoom, Widens, event_at, id_at};

use crate::dates::Dates;
use ep_base::{DescId, EntryId, EntryNumber, EventNumber};
use ep_rings::PlacedRows;
use ep_walk::Walk;
use std::alloc::{AllocError, Global};

/// Makes dates of at least so many numbers. Those that are new are 0. An `Err` is want of memory.
fn lengthen_dates(since: &mut Vec<EventNumber>, numbers: usize) -> Result<(), AllocError>
    ensures same { (k : ℕ) → event_at since.new.items k ≡ event_at since.old.items k }
    ensures more { length since.old.items ≤ length since.new.items }
    ensures long { OnOk result (numbers ≤ length since.new.items) }
{
    if since.len() < numbers {
        since.resize(numbers, EventNumber(0))?;
    }
    Ok(())
}

/// Makes keys of at least so many numbers. Those that are new are 0. An `Err` is want of memory.
fn lengthen_keys(ids: &mut Vec<EntryId>, numbers: usize) -> Result<(), AllocError>
    ensures same { (k : ℕ) → id_at ids.new.items k ≡ id_at ids.old.items k }
    ensures more { length ids.old.items ≤ length ids.new.items }
    ensures long { OnOk result (numbers ≤ length ids.new.items) }
{
    if ids.len() < numbers {
        ids.resize(numbers, EntryId(0))?;
    }
    Ok(())
}

impl Dates {
    /// Of no registrations.
    pub fn new(alloc: Global) -> Dates
        ensures { AreNew result }
    {
        Dates {
            since: Vec::new(alloc),
            ids: Vec::new(alloc),
            rows: PlacedRows::new(alloc),
            turned: Walk::new(alloc),
        }
    }

    /// Makes room for a registration of an instance, under a key and with a number. An `Err` is want of memory. No date
    /// changes, and there is no less room than before.
    pub fn make_room(
        &mut self,
        instance: DescId,
        id: EntryId,
        number: EntryNumber,
    ) -> Result<(), AllocError>
        ensures same { Widens self.old self.new }
        ensures room { OnOk result (HasRoom self.new number instance.0 id.0) }
    {
        let numbers = (number.0 as usize).checked_add(1).ok_or(AllocError)?;
        lengthen_dates(&mut self.since, numbers)?;
        lengthen_keys(&mut self.ids, numbers)?;
        let owners = instance.0.checked_add(1).ok_or(AllocError)?;
        let keys = id.0.checked_add(1).ok_or(AllocError)?;
        self.rows.reserve(owners, keys)?;
        self.turned.make_room(instance.0)
    }
}
