//! The links of each instance along one way.
ghost use Rattle.std.specs.Prelude.{◌≡◌, ◌<◌, ◌≤◌, [], IfNone, IfSome, OnErr, OnOk, length, slice_get, vec_capacity, vec_len, ℕ};
ghost use Rattle.std.specs.List.{AllByRecursion};
ghost use Rattle.std.specs.Map.{keys_of, values_of};
ghost use Rattle.std.specs.Map.Iter.{ShowsInOrder, deref};
ghost use Rattle.ep_nest.specs.Adjacent.{GainsTurn, LosesTurn, SameTurns, entries_at, turns_at};
ghost use Rattle.ep_nest.specs.declared.link.Link.{Link as Tie};

use crate::link::Link;
use crate::put::put;
use ep_base::DescId;
use std::alloc::{AllocError, Allocator};
use std::collections::BTreeMap;
use std::collections::btree_map::Values;
use std::marker::Model;

/// For each instance its links along one way, by ticket, so in the order in which they were made. Contracts see the
/// tickets and the links of each instance, by its key. With n links of the instance, `take` and `add` take time that
/// grows as log n, but where a table grows. Memory comes from `A`.
#[derive(Drop)]
pub struct Adjacent<A: Allocator> {
    maps: Vec<BTreeMap<u64, Link, A>, A>,
}

impl<A: Allocator> Model for Adjacent<A> {
    ghost use Rattle.std.specs.Prelude.{List, map, ℕ};
    ghost use Rattle.ep_nest.specs.declared.link.Link.{Link as Tie};

    ghost Value = { List (List (ℕ × Tie)) };

    ghost view = { λ a. map (λ m. m.entries) a.maps.items };
}

/// Gives an instance a map without links. Memory may end when other instances have theirs already.
fn open<A: Allocator + Copy>(
    maps: &mut Vec<BTreeMap<u64, Link, A>, A>,
    key: usize,
) -> Result<(), AllocError>
    ensures kept { (k : ℕ) → entries_at maps.new.items k ≡ entries_at maps.old.items k }
    ensures placed { OnOk result (key < vec_len maps.new) }
{
    while maps.len() <= key {
        let map = BTreeMap::new(*maps.allocator());
        maps.push(map)?;
    }
    Ok(())
}

impl<A: Allocator> Adjacent<A> {
    /// No links, which takes no memory.
    pub fn new(alloc: A) -> Self
    where
        A: Copy,
        ensures { result ≡ [] }
    {
        Adjacent {
            maps: Vec::new(alloc),
        }
    }

    /// Gives an instance one link more, under a ticket above those that it has. `AllocError` where there is no
    /// memory, and then each instance has the links that it had.
    pub fn add(&mut self, instance: DescId, ticket: u64, link: Link) -> Result<(), AllocError>
    where
        A: Copy,
        requires { AllByRecursion (λ t. t < ticket) (keys_of (turns_at self.old instance.0)) }
        ensures added { OnOk result (GainsTurn self.old self.new instance.0 ticket link) }
        ensures kept { OnErr result (SameTurns self.old self.new) }
    {
        open(&mut self.maps, instance.0)?;
        self.maps[instance.0].insert(ticket, link)?;
        Ok(())
    }

    /// Takes the link of an instance under a ticket away, where it has one.
    pub fn take(&mut self, instance: DescId, ticket: u64)
        ensures { LosesTurn self.old self.new instance.0 ticket }
    {
        if let Some(map) = self.maps.get_mut(instance.0) {
            map.remove(&ticket);
        }
    }

    /// The first link of an instance, `None` where it has none. It takes constant time where it has none.
    pub fn first(&self, instance: DescId) -> Option<Link>
        ensures { result ≡ slice_get (values_of (turns_at self.now instance.0)) 0 }
    {
        let map = self.maps.get(instance.0)?;
        let (_, link) = map.first_key_value()?;
        Some(*link)
    }

    /// The links of an instance, in order; `None` where it never had one. It takes no memory.
    pub fn turns(&self, instance: DescId) -> Option<Values<'_, u64, Link>>
        ensures some { IfSome result (λ links. links ≡ values_of (turns_at self.now instance.0)) }
        ensures none { IfNone result (values_of (turns_at self.now instance.0) ≡ []) }
        ensures runs { IfSome result (λ _. ShowsInOrder (deref {X = Tie})) }
    {
        let map = self.maps.get(instance.0)?;
        Some(map.values())
    }

    /// Fills a list with the links of an instance, in order, where there is room for them.
    pub fn gather<B: Allocator>(&self, instance: DescId, gathered: &mut Vec<Link, B>)
        requires { length (turns_at self.now instance.0) ≤ vec_capacity gathered.old }
        ensures links { gathered.new.items ≡ values_of (turns_at self.now instance.0) }
        ensures room { vec_capacity gathered.old ≤ vec_capacity gathered.new }
    {
        gathered.clear();
        if let Some(map) = self.maps.get(instance.0) {
            for link in map.values() {
                put(gathered, *link);
            }
        }
    }
}
