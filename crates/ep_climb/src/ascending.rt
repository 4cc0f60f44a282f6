//! The instances above one.
ghost use Rattle.std.specs.Prelude.{◌≡◌, ◌<◌, ◌∷◌, [], length, nat_lt};
ghost use Rattle.ep_nest.specs.Links.{starting_at};
ghost use Rattle.ep_nest.specs.declared.link.Link.{Link as Tie};
ghost use Rattle.ep_nest.specs.declared.link.Way.TheVariants.{Up};
ghost use Rattle.ep_climb.specs.Reach.{Ascends, AreHome, IsClosed, Reaches, are_outer, edges_along, is_along};

use ep_base::{DescId, EntryId};
use ep_interest::Interest;
use ep_nest::{Graph, Link};
use ep_walk::Walk;
use std::alloc::Global;

/// Which links a walk goes up by.
#[derive(Clone, Copy)]
pub enum Along<'a> {
    /// All of them.
    Every,
    /// Those by which IN goes on: their registrations are armed and ask for IN.
    Open(&'a Interest),
}

impl Along<'_> {
    /// Whether the link of a registration is one of them.
    #[inline(always)]
    fn has(&self, id: EntryId) -> bool
        ensures { result ≡ is_along self.now id.0 }
    {
        match self {
            Along::Every => true,
            Along::Open(interest) => interest.lets_by(id),
        }
    }
}

/// Whether an instance watches another. If none does, nothing climbs, and no registration is on an instance.
#[inline(always)]
pub fn has_links(graph: &Graph) -> bool
    ensures { result ≡ nat_lt 0 (length graph.now) }
{
    graph.links().len() > 0
}

/// Reaches the instance from which a link leads, if the walk goes by it.
#[inline(always)]
fn cross(along: &Along<'_>, reached: &mut Walk<Global>, link: &Link)
    requires { link.now.outer.0 < reached.old.room }
    ensures { Reaches (are_outer along.now (link.now ∷ [])) reached.old reached.new }
{
    if along.has(link.entry) {
        reached.reach(link.outer.0);
    }
}

/// Reaches the instances from which a link leads to one, if the walk goes by it.
fn cross_each(along: &Along<'_>, graph: &Graph, reached: &mut Walk<Global>, inner: DescId)
    requires { AreHome graph.now reached.old }
    ensures { Reaches (are_outer along.now (starting_at Up inner.0 graph.now)) reached.old
        reached.new }
{
    let Some(links) = graph.links_to(inner) else {
        return;
    };
    for link in links {
        cross(along, reached, link);
    }
}

/// Reaches an instance and those above it, by those links. If it was reached before, so were those. It looks at the
/// links to what it reaches, and at no other, and takes no memory.
#[inline(always)]
pub fn ascend(along: Along<'_>, graph: &Graph, reached: &mut Walk<Global>, instance: DescId)
    requires closed { IsClosed (edges_along along graph.now) reached.old.reached }
    requires room { instance.0 < reached.old.room }
    requires home { AreHome graph.now reached.old }
    ensures { Ascends (edges_along along.entry graph.now) instance.0 reached.old reached.new }
{
    let mut done = reached.count();
    if !reached.reach(instance.0) {
        return;
    }
    if !has_links(graph) {
        return;
    }
    while done < reached.count() {
        reached.known();
        let inner = DescId(reached.at(done));
        cross_each(&along, graph, reached, inner);
        done += 1;
    }
}
