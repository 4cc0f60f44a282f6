//! Takes records out of a history.
ghost use Rattle.std.specs.Prelude.{◌≡◌, ◌<◌, ◌≤◌, ◌^◌, [], ◌++◌, OnErr, OnOk, length};
ghost use Rattle.ep_records.specs.Past.{whole};

use crate::history::History;
use crate::taken::Taken;
use std::mem;
use thiserror::Error;

/// More than 2^62 events have been numbered, which ten million calls a second take ten thousand years for: no more
/// records are taken out, lest the numbers run out.
#[derive(Clone, Copy, Debug, Drop, PartialEq, Eq, Error)]
#[error("more than 2^62 events have been numbered")]
pub struct TooManyEvents;

/// As many records may have been taken out.
const MOST_TAKEN: u64 = 1 << 62;

/// What was taken out, with what is here behind it.
fn joined(_here: &History) -> Taken
    ensures { result.items ≡ _here.now.taken ++ _here.now.items }
{
    Taken {}
}

impl History {
    /// Takes the records out. The other history, which has none, has them then, and this one goes on with the room of
    /// that one and none of its own records; the number of the next event stays. It takes no memory and constant time,
    /// so two histories that are read, cleared and swapped again do for ever. An `Err`, past 2^62 records, leaves both.
    pub fn swap(&mut self, other: &mut History) -> Result<(), TooManyEvents>
        requires empty { other.old.items ≡ [] }
        ensures few { OnOk result (length (whole self.old) ≤ 2 ^ 62) }
        ensures out { OnOk result (other.new ≡ self.old) }
        ensures goes_on { OnOk result (self.new ≡ record {
          taken = self.old.taken ++ self.old.items;
          items = [];
          room = other.old.room;
        }) }
        ensures many { OnErr result (2 ^ 62 < length (whole self.old)) }
        ensures err { OnErr result ((self.new ≡ self.old) × (other.new ≡ other.old)) }
    {
        let before = self.before + self.slots.len() as u64;
        if before > MOST_TAKEN {
            return Err(TooManyEvents);
        }
        let taken = joined(self);
        mem::swap(self, other);
        self.before = before;
        self.taken = taken;
        Ok(())
    }
}
