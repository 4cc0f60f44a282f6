//! All links, in the order in which they were made.
ghost use Rattle.std.specs.Prelude.{◌≡◌, ◌++◌, ◌∷◌, ◌<◌, ◌≤◌, ◌^◌, [], IfNone, IfSome, OnErr, OnOk, false};
ghost use Rattle.std.specs.Prelude.{length, slice_get, true, vec_capacity};
ghost use Rattle.std.specs.Map.Iter.{ShowsInOrder, deref};
ghost use Rattle.std.specs.List.{AllByRecursion};
ghost use Rattle.std.specs.Map.{keys_of};
ghost use Rattle.ep_machine.specs.Lists.{are_distinct, is_among};
ghost use Rattle.ep_nest.specs.Links.{entries, starting_at, without};
ghost use Rattle.ep_nest.specs.Storage.{AddsAbove};
ghost use Rattle.ep_nest.specs.Adjacent.{SameTurns, turns_at};
ghost use Rattle.ep_nest.specs.declared.link.Link.{Link as Tie};

use crate::adjacent::Adjacent;
use crate::link::{Link, Way};
use ep_base::{DescId, EntryId};
use indexmap::IndexMap;
use std::alloc::{AllocError, Allocator};
use std::collections::BTreeMap;
use std::collections::btree_map::Values;
use std::hash::{BuildHasherDefault, FoldHasher};
use std::marker::Model;

/// Links of different registrations, in the order in which they were made. Contracts see the list of them. With n
/// links, `push` and `remove` take time that grows as log n, but where a table grows, and look at no other link.
/// Memory comes from `A`.
#[derive(Drop)]
pub struct Links<A: Allocator> {
    // By ticket. Tickets rise with each link, so this is the order in which the links were made.
    turns: BTreeMap<u64, Link, A>,
    // The ticket of each registration's link.
    tickets: IndexMap<usize, u64, BuildHasherDefault<FoldHasher>, A>,
    // The links of each instance that watches.
    down: Adjacent<A>,
    // The links of each instance that is watched.
    up: Adjacent<A>,
    // The ticket that was given out last.
    last: u64,
}

impl<A: Allocator> Model for Links<A> {
    ghost use Rattle.std.specs.Prelude.{List};
    ghost use Rattle.std.specs.Map.{values_of};
    ghost use Rattle.ep_nest.specs.declared.link.Link.{Link as Tie};
    ghost use Rattle.ep_nest.specs.Storage.{IsStored};

    ghost Value = { List Tie };

    ghost view = { λ l. values_of l.turns.entries };

    ghost invariant = { λ l. IsStored l.turns.entries l.tickets.entries l.down l.up l.last };
}

/// Adds a link to those of its inner instance and to all. A refused growth leaves both.
fn add_above<A: Allocator + Copy>(
    up: &mut Adjacent<A>,
    turns: &mut BTreeMap<u64, Link, A>,
    ticket: u64,
    link: Link,
) -> Result<(), AllocError>
    requires last { AllByRecursion (λ t. t < ticket) (keys_of turns.old.entries) }
    requires last_above { AllByRecursion (λ t. t < ticket)
        (keys_of (turns_at up.old link.inner.0)) }
    ensures added { OnOk result (AddsAbove up.old up.new turns.old.entries turns.new.entries
        ticket link) }
    ensures kept { OnErr result (SameTurns up.old up.new) }
    ensures turns_kept { OnErr result (turns.new.entries ≡ turns.old.entries) }
{
    up.add(link.inner, ticket, link)?;
    match turns.insert(ticket, link) {
        Ok(_) => Ok(()),
        Err(refused) => {
            up.take(link.inner, ticket);
            Err(refused.into())
        }
    }
}

impl<A: Allocator> Links<A> {
    /// No links, which takes no memory.
    pub fn new(alloc: A) -> Self
    where
        A: Copy,
        ensures { result ≡ [] }
    {
        Links {
            turns: BTreeMap::new(alloc),
            tickets: IndexMap::new(alloc),
            down: Adjacent::new(alloc),
            up: Adjacent::new(alloc),
            last: 0,
        }
    }

    /// What holds of all such links: no two are of one registration.
    pub fn known(&self)
        ensures { are_distinct (entries self.now) ≡ true }
    {
        let _count = self.turns.len();
    }

    /// The links, in order. It takes no memory.
    pub fn iter(&self) -> Values<'_, u64, Link>
        ensures exact { result ≡ self.now }
        ensures runs { ShowsInOrder (deref {X = Tie}) }
    {
        self.turns.values()
    }

    /// How many links there are. It takes constant time.
    pub fn len(&self) -> usize
        ensures len { result ≡ length self.now }
        ensures small { result < 2 ^ 63 }
    {
        self.turns.len()
    }

    /// Whether a registration has a link. It takes constant time.
    pub fn has(&self, entry: EntryId) -> bool
        ensures { result ≡ is_among (entries self.now) entry.0 }
    {
        let _last = self.last;
        self.tickets.contains_key(&entry.0)
    }

    /// Puts the link of a registration that has none behind all others. `AllocError` where there is no memory, or
    /// after 2^64 - 1 links, and then the links are what they were. No other call takes memory.
    pub fn push(&mut self, link: Link) -> Result<(), AllocError>
    where
        A: Copy,
        requires { is_among (entries self.old) link.entry.0 ≡ false }
        ensures pushed { OnOk result (self.new ≡ self.old ++ link ∷ []) }
        ensures kept { OnErr result (self.new ≡ self.old) }
    {
        if self.last == u64::MAX {
            return Err(AllocError);
        }
        let ticket = self.last + 1;
        self.tickets.reserve(1)?;
        self.down.add(link.outer, ticket, link)?;
        match add_above(&mut self.up, &mut self.turns, ticket, link) {
            Ok(()) => {}
            Err(refused) => {
                self.down.take(link.outer, ticket);
                return Err(refused);
            }
        }
        self.tickets.insert(link.entry.0, ticket).unwrap();
        self.last = ticket;
        Ok(())
    }

    /// Takes the link of a registration away, where it has one; the others stay.
    pub fn remove(&mut self, entry: EntryId)
        ensures { self.new ≡ without entry.0 self.old }
    {
        let Some(ticket) = self.tickets.swap_remove(&entry.0) else {
            return;
        };
        let link = self.turns.remove(&ticket).unwrap();
        self.down.take(link.outer, ticket);
        self.up.take(link.inner, ticket);
    }

    /// The first link that starts at an instance, `None` where none does, which takes constant time.
    pub fn first(&self, way: Way, instance: DescId) -> Option<Link>
        ensures { result ≡ slice_get (starting_at way instance.0 self.now) 0 }
    {
        match way {
            Way::Down => self.down.first(instance),
            Way::Up => self.up.first(instance),
        }
    }

    /// The links that start at an instance, in order; `None` where none ever did. It takes no memory, and looks at no
    /// other link.
    pub fn turns(&self, way: Way, instance: DescId) -> Option<Values<'_, u64, Link>>
        ensures some { IfSome result (λ links. links ≡ starting_at way instance.0 self.now) }
        ensures none { IfNone result (starting_at way instance.0 self.now ≡ []) }
        ensures runs { IfSome result (λ _. ShowsInOrder (deref {X = Tie})) }
    {
        match way {
            Way::Down => self.down.turns(instance),
            Way::Up => self.up.turns(instance),
        }
    }

    /// Fills a list with the links that start at an instance, in order, where there is room for them. It looks at no
    /// other link.
    pub fn gather<B: Allocator>(&self, way: Way, instance: DescId, gathered: &mut Vec<Link, B>)
        requires { length (starting_at way instance.0 self.now) ≤ vec_capacity gathered.old }
        ensures links { gathered.new.items ≡ starting_at way instance.0 self.now }
        ensures room { vec_capacity gathered.old ≤ vec_capacity gathered.new }
    {
        match way {
            Way::Down => self.down.gather(instance, gathered),
            Way::Up => self.up.gather(instance, gathered),
        }
    }
}
