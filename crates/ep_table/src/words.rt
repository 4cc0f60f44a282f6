//! What the tables hold.
ghost use Rattle.std.specs.Prelude.{◌&&◌, ◌==◌, ◌≡◌};

use ep_base::{DescId, End, Mask, Raised};
use ep_object::Object;

/// What a descriptor number names: the key of a description, and the close-on-exec flag.
#[derive(Clone, Copy)]
pub struct Descriptor {
    /// The key of the description.
    pub description: DescId,
    /// Whether exec closes the number.
    pub cloexec: bool,
}

/// An open file description: its number, the number of its object, the key of its object, its end of
/// it, how many descriptors name it and how many waiters hold it.
#[derive(Clone, Copy)]
pub struct Description {
    /// Its number, which no other description has or had.
    pub number: u64,
    /// The number of its object.
    pub object_number: u64,
    /// The key of its object.
    pub object: usize,
    /// Which end of the object it is.
    pub end: End,
    /// How many descriptors name it.
    pub names: usize,
    /// How many parked waiters hold it.
    pub holds: usize,
}

impl Description {
    /// Whether no descriptor names it and no waiter holds it.
    pub fn is_unused(&self) -> bool
        ensures { result ≡ (self.now.names == 0 && self.now.holds == 0) }
    {
        self.names == 0 && self.holds == 0
    }
}

/// An object, its number, and the keys of the live descriptions of its ends.
#[derive(Drop)]
pub struct Shared {
    /// Its number, which no other object has or had.
    pub number: u64,
    /// The object.
    pub object: Object,
    /// The living description of its first end.
    pub first: Option<DescId>,
    /// The living description of its second end.
    pub second: Option<DescId>,
}

/// A live description that nothing names or holds: its key and its number.
#[derive(Clone, Copy)]
pub struct Dying {
    /// Its key.
    pub key: DescId,
    /// Its number.
    pub number: u64,
}

/// A description that died: its key, which is free again, its end of its object, the key of the
/// living description of the other end, and what closing its end raised at the ends of the object.
#[derive(Clone, Copy)]
pub struct Dead {
    /// The key that it had, which is free again.
    pub desc: DescId,
    /// The end of the object that it was.
    pub end: End,
    /// The living description of the other end.
    pub other: Option<DescId>,
    /// What closing the end raised, at each end.
    pub raised: Raised,
}

/// What was found at a listener: the first of the connections that wait there.
#[derive(Clone, Copy)]
pub struct Found {
    /// The key of the listener's description.
    pub listener: DescId,
    /// How many others came before and weren't accepted.
    pub index: usize,
    /// The number of the connection.
    pub number: u64,
}

/// What was raised at a description whose connection lost its other end, because nobody will accept that any more.
#[derive(Clone, Copy)]
pub struct Loss {
    /// The key of the description.
    pub desc: DescId,
    /// The bits that were raised there.
    pub raised: Mask,
}
