//! Where the connections are that wait to be accepted.
ghost use Rattle.std.specs.Prelude.{◌≡◌, ◌≤◌, ◌+◌, ◌==◌, ℕ, IfNone, IfSome, None, OnErr, OnOk, Some, [], if◌then◌else◌, length};
ghost use Rattle.ep_names.specs.Numbers.{owner_at};

use indexmap::IndexMap;
use std::alloc::{AllocError, Allocator};
use std::hash::{BuildHasherDefault, FoldHasher};
use std::marker::Model;

/// The keys of the connections that wait to be accepted, by their numbers. Contracts see a list of these pairs, whose
/// order says nothing.
#[derive(Drop)]
pub struct Waiting<A: Allocator> {
    keys: IndexMap<u64, usize, BuildHasherDefault<FoldHasher>, A>,
}

impl<A: Allocator> Model for Waiting<A> {
    ghost use Rattle.std.specs.Prelude.{List, ℕ};

    ghost Value = { List (ℕ × ℕ) };

    ghost view = { λ w. w.keys.entries };
}

impl<A: Allocator> Waiting<A> {
    /// None waits, which takes no memory.
    pub fn new(alloc: A) -> Self
    where
        A: Copy,
        ensures { result ≡ [] }
    {
        Waiting {
            keys: IndexMap::new(alloc),
        }
    }

    /// How many wait.
    pub fn len(&self) -> usize
        ensures { result ≡ length self.now }
    {
        self.keys.len()
    }

    /// The key of the connection of a number, `None` if it doesn't wait. It takes constant time.
    pub fn key(&self, number: u64) -> Option<usize>
        ensures { result ≡ owner_at self.now number }
    {
        self.keys.get(&number).copied()
    }

    /// The connection of this number waits, under this key. An `AllocError` leaves all.
    pub fn insert(&mut self, number: u64, key: usize) -> Result<(), AllocError>
        ensures waits { OnOk result ((n : ℕ) → owner_at self.new n
            ≡ (if number == n then Some key else owner_at self.old n)) }
        ensures one { OnOk result (length self.new ≤ length self.old + 1) }
        ensures err { OnErr result (self.new ≡ self.old) }
    {
        self.keys.insert(number, key)?;
        Ok(())
    }

    /// The connection of this number waits no more. It takes constant time and no memory.
    pub fn remove(&mut self, number: u64)
        ensures left { (n : ℕ) → owner_at self.new n
            ≡ (if number == n then None else owner_at self.old n) }
        ensures fewer { IfSome (owner_at self.old number)
            (λ key. length self.new + 1 ≡ length self.old) }
        ensures none { IfNone (owner_at self.old number) (length self.new ≡ length self.old) }
    {
        self.keys.swap_remove(&number);
    }
}
