//! The registrations of each owner.
ghost use Rattle.std.specs.Prelude.{◌≡◌, ◌≢◌, ◌<◌, ◌≤◌, ◌++◌, ◌∷◌, ℕ, [], All, Contains, OnErr, OnOk, filter};
ghost use Rattle.std.specs.Prelude.{if◌then◌else◌, length, map, nat_eq, not, ◌==◌};
ghost use Rattle.ep_interest.specs.Rows.{IsRows, row};
ghost use Rattle.ep_rings.specs.KeyWalk.{entry_id};

use crate::heads::{Heads, head_of, lengthen, shorten};
use ep_base::{DescId, EntryId};
use ep_rings::{Circles, Keys};
use std::alloc::{AllocError, Allocator, Global};

/// For each owner, an instance or a target, the keys of its registrations in order of registration, linked in a
/// circle. Memory grows with registrations, and with the highest number of an owner that has had one: each number up to
/// it has a place of some 24 bytes, which says where its circle begins, or that there is none.
#[derive(Drop)]
pub(crate) struct Rows<A: Allocator = Global> {
    pub(crate) heads: Heads<A>,
    pub(crate) circles: Circles<A>,
}

impl<A: Allocator> Rows<A> {
    /// No registration, which takes no memory.
    pub(crate) fn new(alloc: A) -> Rows<A>
    where
        A: Copy,
        ensures sound { IsRows result }
        ensures empty { (i : ℕ) → row result i ≡ [] }
    {
        Rows {
            heads: Vec::new(alloc),
            circles: Circles::new(alloc),
        }
    }

    /// Takes memory for the links of keys below a number. `AllocError` where there is none, and then each owner has
    /// what it had.
    pub(crate) fn reserve(&mut self, many: usize) -> Result<(), AllocError>
        requires { IsRows self.old }
        ensures sound { IsRows self.new }
        ensures kept { (i : ℕ) → row self.new i ≡ row self.old i }
        ensures links { OnOk result (many ≤ length self.new.circles) }
    {
        self.circles.reserve(many)
    }

    /// Puts a key behind the others of its owner. Takes constant time, unless the vector of places grows. Only an
    /// owner above all that had a key before takes memory. `AllocError` if there is none, and then each owner has what
    /// it had.
    pub(crate) fn push(&mut self, owner: DescId, id: EntryId) -> Result<(), AllocError>
        requires sound { IsRows self.old }
        requires linked { id.0 < length self.old.circles }
        requires most { length (row self.old owner.0) < usize.MAX }
        requires fresh { (i : ℕ) → All (λ k. k ≢ id.0) (row self.old i) }
        ensures sound { IsRows self.new }
        ensures rows { OnOk result ((i : ℕ) → row self.new i
            ≡ (if nat_eq owner.0 i then row self.old i ++ id.0 ∷ [] else row self.old i)) }
        ensures kept { OnErr result ((i : ℕ) → row self.new i ≡ row self.old i) }
    {
        let first = lengthen(&mut self.heads, owner, id.0)?;
        self.circles.append(first, id.0);
        Ok(())
    }

    /// Takes a key from its owner. Takes constant time and no memory.
    pub(crate) fn remove(&mut self, owner: DescId, id: EntryId)
        requires sound { IsRows self.old }
        requires there { Contains (row self.old owner.0) id.0 }
        ensures sound { IsRows self.new }
        ensures rows { (i : ℕ) → row self.new i
            ≡ filter (λ k. not (k == id.0)) (row self.old i) }
    {
        let next = self.circles.unlink(id.0);
        shorten(&mut self.heads, owner, id.0, next);
    }

    /// The keys of an owner's registrations, in order. The first is found in constant time.
    pub(crate) fn keys(&self, owner: DescId) -> Keys<'_>
        requires { IsRows self.now }
        ensures { result ≡ map entry_id (row self.now owner.0) }
    {
        let circle = head_of(&self.heads, owner);
        self.circles.keys(circle)
    }
}
