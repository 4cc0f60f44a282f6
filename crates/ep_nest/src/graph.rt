//! The graph.
ghost use Rattle.std.specs.Prelude.{◌≡◌, ◌==◌, ◌++◌, ◌∷◌, ◌↔◌, [], IfErr, IfNone, IfSome, IsOk, OnErr, OnOk, false, filter, not, true, ⊤};
ghost use Rattle.std.specs.Borrow.{follows_so, sem};
ghost use Rattle.std.specs.List.{list_any};
ghost use Rattle.std.specs.Map.Iter.{ShowsInOrder, deref};
ghost use mathlib.Core.Option.{none};
ghost use Rattle.ep_machine.specs.Lists.{are_distinct, is_among};
ghost use Rattle.ep_machine.specs.Watches.{is_legal};
ghost use Rattle.ep_nest.specs.Chains.{IsLegalGraph};
ghost use Rattle.ep_nest.specs.Descent.{AreBeneath};
ghost use Rattle.ep_nest.specs.Graph.{IsKept};
ghost use Rattle.ep_nest.specs.Links.{edges, entries, is_apart_from, is_between, keys, starting_at, starts_at, without};
ghost use Rattle.ep_nest.specs.contracts.graph.Graph.{the_row};
ghost use Rattle.ep_nest.specs.declared.link.Link.{Link as Tie};
ghost use Rattle.ep_nest.specs.declared.link.Way.TheVariants.{Up as Upwards};

use crate::depths::{Depths, are_too_deep};
use crate::descend::descend;
use crate::link::{Link, Way};
use crate::links::Links;
use crate::traversal::Traversal;
use ep_base::{DescId, EntryId, Errno};
use std::alloc::{AllocError, Allocator, Global};
use std::collections::btree_map::Values;
use std::marker::Model;

/// Which instances watch which, by which registrations, as epoll(7) lets instances be nested. Contracts see the links
/// in the order in which they were made. The graph is legal at any time, and no two links are of one registration.
/// With n links, the calls that change the graph take time that grows as log n for each link that they add or take
/// away, and `link` may look at each link above and below the new one too. Memory comes from `A`.
#[derive(Drop)]
pub struct Graph<A: Allocator = Global> {
    links: Links<A>,
    walk: Traversal<A>,
    depths: Depths<A>,
}

impl<A: Allocator> Model for Graph<A> {
    ghost use Rattle.std.specs.Prelude.{List};
    ghost use Rattle.ep_nest.specs.declared.link.Link.{Link as Tie};
    ghost use Rattle.ep_nest.specs.declared.link.Way.TheVariants.{Up as Upwards};
    ghost use Rattle.ep_nest.specs.Graph.{IsGraph};

    ghost Value = { List Tie };

    ghost view = { λ g. g.links };

    ghost invariant = { λ g. IsGraph g.links g.walk g.depths };
}

/// Whether one of these links leads down to an instance.
fn leads_to(links: &[Link], inner: DescId) -> bool
    ensures { result ≡ list_any (λ l. l.inner.0 == inner.0) links.now }
{
    links.iter().any(|link| link.inner == inner)
}

/// Whether an instance watches another. It looks at the links of the one that watches.
fn watches<A: Allocator>(
    links: &Links<A>,
    outer: DescId,
    inner: DescId,
    walk: &mut Traversal<A>,
) -> bool
    requires kept { IsKept links.now walk.old }
    ensures exact { result ≡ list_any (is_between outer.0 inner.0) links.now }
    ensures kept { IsKept links.now walk.new }
{
    links.gather(Way::Down, outer, &mut walk.gathered);
    leads_to(&walk.gathered, inner)
}

/// Takes all links away that start at an instance.
fn cut<A: Allocator>(links: &mut Links<A>, way: Way, instance: DescId)
    ensures { links.new ≡ filter (λ l. not (starts_at way instance.0 l)) links.old }
{
    while let Some(link) = links.first(way, instance) {
        links.known();
        links.remove(link.entry);
    }
}

impl<A: Allocator> Graph<A> {
    /// A graph without links, which takes no memory.
    pub fn new(alloc: A) -> Self
    where
        A: Copy,
        ensures { result ≡ [] }
    {
        Graph {
            links: Links::new(alloc),
            walk: Traversal::new(alloc),
            depths: Depths::new(alloc),
        }
    }

    /// What holds of every graph: it is legal, and an entry has one link at most.
    pub fn known(&self)
        ensures legal { is_legal (edges self.now) ≡ true }
        ensures one_each { are_distinct (entries self.now) ≡ true }
    {
        self.links.known();
    }

    /// The links, in the order in which they were made. It takes no memory.
    pub fn links(&self) -> Values<'_, u64, Link>
        ensures exact { result ≡ self.now }
        ensures runs { ShowsInOrder (deref {X = Tie}) }
    {
        let _marks = &self.walk.marks;
        self.links.iter()
    }

    /// Whether an entry has a link. It takes constant time.
    pub fn is_linked(&self, entry: EntryId) -> bool
        ensures { result ≡ is_among (entries self.now) entry.0 }
    {
        let _marks = &self.walk.marks;
        self.links.has(entry)
    }

    /// Whether an instance may begin to watch another, as epoll_ctl(2) has it: `Eloop` exactly where the graph would
    /// have a loop, an instance that watches itself included, or a chain of more than five instances, both ends
    /// counted, above and below taken together. It takes no memory and changes nothing. Most often it looks only at
    /// the links of `inner`. It looks at the links above the one and below the other, at each four times at most,
    /// where a chain might get too long, or was longer before links were taken away.
    pub fn may_add(&mut self, outer: DescId, inner: DescId) -> Result<(), Errno>
        ensures stays { self.new ≡ self.old }
        ensures machine { IsOk result ↔ (is_legal ((outer.0, inner.0) ∷ edges self.old) ≡ true) }
        ensures legal { IsOk result ↔ IsLegalGraph ((outer.0, inner.0) ∷ edges self.old) }
        ensures eloop { IfErr result (λ e. e ≡ Errno.Eloop) }
    {
        let is_too_deep = are_too_deep(&self.links, &self.depths, outer, inner, &mut self.walk);
        if outer == inner || is_too_deep || watches(&self.links, inner, outer, &mut self.walk) {
            return Err(Errno::Eloop);
        }
        Ok(())
    }

    /// Adds the link of an entry that has none, between instances that `may_add` allows. It takes all room that
    /// `beneath` needs, and is the only growth. `AllocError` where memory was refused, or after 2^64 - 1 links, and
    /// then the graph is as it was. Its cost grows as the logarithm of the number of links, but where a table grows or
    /// a longer chain begins. Then it may look at the links above `outer` and below `inner`, at each four times at
    /// most. All calls together look at a link so eight times at most while it is there.
    pub fn link(&mut self, outer: DescId, inner: DescId, entry: EntryId) -> Result<(), AllocError>
    where
        A: Copy,
        requires legal { is_legal ((outer.0, inner.0) ∷ edges self.old) ≡ true }
        requires fresh { is_among (entries self.old) entry.0 ≡ false }
        ensures linked { OnOk result
            (self.new ≡ self.old ++ record { outer = outer; inner = inner; entry = entry } ∷ []) }
        ensures kept { OnErr result (self.new ≡ self.old) }
    {
        let many = self.links.len() + 1;
        let key = outer.0.max(inner.0);
        self.walk.make_room(key, many)?;
        self.depths.make_room(key)?;
        let link = Link {
            outer,
            inner,
            entry,
        };
        self.links.push(link)?;
        self.depths.note(&self.links, link);
        Ok(())
    }

    /// Takes the link of an entry away, where it has one; the others stay.
    pub fn unlink(&mut self, entry: EntryId)
        ensures { self.new ≡ without entry.0 self.old }
    {
        let _marks = &self.walk.marks;
        self.links.remove(entry);
    }

    /// Takes the links from or to an instance away, as its death does; the others stay. It takes constant time where
    /// there is none.
    pub fn purge(&mut self, instance: DescId)
        ensures { self.new ≡ filter (is_apart_from instance.0) self.old }
    {
        let _marks = &self.walk.marks;
        cut(&mut self.links, Way::Down, instance);
        cut(&mut self.links, Way::Up, instance);
        self.depths.forget(instance);
    }

    /// The links to an instance, in the order in which they were made; `None` if it never had one. It takes no memory,
    /// and looks at no other link.
    pub fn links_to(&self, inner: DescId) -> Option<Values<'_, u64, Link>>
        ensures some { IfSome result (λ links. links ≡ starting_at Upwards inner.0 self.now) }
        ensures none { IfNone result (starting_at Upwards inner.0 self.now ≡ []) }
        ensures runs { IfSome result (λ _. ShowsInOrder (deref {X = Tie})) }
    {
        let _marks = &self.walk.marks;
        self.links.turns(Way::Up, inner)
    }

    /// The instances, each once, to which a chain of links leads down from one. It looks once at each link from `outer`
    /// and from what it finds, and at no other. It takes no memory, and its cost grows as the number of these links.
    pub fn beneath(&mut self, outer: DescId) -> &[DescId]
        ensures* stays { sem 𝓛 (follows_so (the_row A.row A.Allocator) (the_row A.row A.Allocator)
            self.entry.ghost_name none (λ _ _. ⊤) (λ v. v ≡ self.old)) }
        ensures exact { AreBeneath self.old outer.0 (keys result.now) }
        ensures once { are_distinct (keys result.now) ≡ true }
    {
        descend(&self.links, outer, &mut self.walk);
        &self.walk.reached
    }
}
