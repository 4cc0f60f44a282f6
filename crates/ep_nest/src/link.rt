//! Links between instances.
ghost use Rattle.std.specs.Prelude.{◌≡◌};
ghost use Rattle.ep_nest.specs.Links.{ends_of, turned};

use ep_base::{DescId, EntryId};

/// An instance that watches an instance, by one registration.
#[derive(Clone, Copy, Debug, PartialEq, Eq)]
pub struct Link {
    /// The instance that watches.
    pub outer: DescId,
    /// The instance that is watched.
    pub inner: DescId,
    /// The key of the registration.
    pub entry: EntryId,
}

/// The way in which chains of links are followed.
#[derive(Clone, Copy)]
pub enum Way {
    /// From the instance that watches to the one that is watched.
    Down,
    /// From the instance that is watched to the one that watches.
    Up,
}

impl Way {
    /// The other way.
    pub fn turned(self) -> Way
        ensures { result ≡ turned self }
    {
        match self {
            Way::Down => Way::Up,
            Way::Up => Way::Down,
        }
    }
}

impl Link {
    /// The instance to which the link leads.
    pub fn end(&self, way: Way) -> DescId
        ensures { result.0 ≡ (ends_of way self.now).1 }
    {
        match way {
            Way::Down => self.inner,
            Way::Up => self.outer,
        }
    }
}
