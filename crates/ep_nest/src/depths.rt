//! Bounds of the longest chains that start at instances.
ghost use Rattle.std.specs.Prelude.{◌≡◌, ◌≢◌, ◌+◌, ◌++◌, ◌∷◌, ◌<◌, ◌≤◌, [], List, OnOk, false, length, nat_lt, replicate, true, vec_len, ℕ};
ghost use Rattle.std.specs.List.{All};
ghost use Rattle.ep_machine.specs.Watches.{is_legal};
ghost use Rattle.ep_nest.specs.Depths.{AreDeep, Deepens, EndsWithin, IsShallow, IsTooDeep, depth_at, one_more as with_one_more};
ghost use Rattle.ep_nest.specs.Graph.{IsKept};
ghost use Rattle.ep_nest.specs.Lengths.{HasPlaces};
ghost use Rattle.ep_nest.specs.Links.{along, edges, is_apart_from, turned};
ghost use Rattle.ep_nest.specs.declared.link.Link.{Link as Tie};

use crate::link::{Link, Way};
use crate::links::Links;
use crate::longest::{LONGEST, longest};
use crate::traversal::Traversal;
use ep_base::{DescId, LONGEST_CHAIN};
use std::alloc::{AllocError, Allocator};

/// For each instance a bound of the number of links that a chain from it has, downward and upward. A link that is
/// added raises them where it must. A link that is taken away leaves them, so they may be above what chains have.
#[derive(Drop)]
pub struct Depths<A: Allocator> {
    pub(crate) below: Vec<u8, A>,
    pub(crate) above: Vec<u8, A>,
}

/// The bound of an instance, 0 where it has no place.
fn depth_of(depths: &[u8], instance: DescId) -> u8
    ensures { result ≡ depth_at depths.now instance.0 }
{
    match depths.get(instance.0) {
        Some(depth) => *depth,
        None => 0,
    }
}

/// A bound with a link more. No chain has more than four.
fn one_more(depth: u8) -> u8
    ensures { result ≡ with_one_more depth }
{
    if depth < LONGEST { depth + 1 } else { LONGEST }
}

/// Raises the bound of an instance to `least` where it is below, and then those of the instances from which links
/// along the way lead to it. `left`: no chain of so many links leads from it the other way.
fn deepen<A: Allocator>(
    links: &Links<A>,
    way: Way,
    instance: DescId,
    least: u8,
    left: u8,
    depths: &mut [u8],
)
    requires places { HasPlaces (edges links.now) (length depths.old) }
    requires place { instance.0 < length depths.old }
    requires ends { EndsWithin left (along (turned way) links.now) instance.0 }
    ensures least { least ≤ depth_at depths.new instance.0 }
    ensures deepens { Deepens (along way links.now) depths.old depths.new }
{
    if depths[instance.0] >= least {
        return;
    }
    depths[instance.0] = least;
    let Some(turns) = links.turns(way.turned(), instance) else {
        return;
    };
    for link in turns {
        let next = one_more(depths[instance.0]);
        deepen(links, way, link.end(way.turned()), next, left - 1, depths);
    }
}

/// Gives an instance a place with the bound 0, which may add some places also where memory ends.
fn widen<A: Allocator>(depths: &mut Vec<u8, A>, key: usize) -> Result<(), AllocError>
    ensures grown { (n : ℕ) × (depths.new.items ≡ depths.old.items ++ replicate n 0) }
    ensures placed { OnOk result (key < vec_len depths.new) }
{
    while depths.len() <= key {
        depths.push(0)?;
    }
    Ok(())
}

/// Forgets the bound of an instance from which no chain leads.
fn forget_at(depths: &mut [u8], instance: DescId)
    ensures here { depth_at depths.new instance.0 ≡ 0 }
    ensures others { (x : ℕ) → x ≢ instance.0 → depth_at depths.new x ≡ depth_at depths.old x }
    ensures length { length depths.new ≡ length depths.old }
{
    if instance.0 < depths.len() {
        depths[instance.0] = 0;
    }
}

impl<A: Allocator> Depths<A> {
    /// No bounds, which takes no memory.
    pub fn new(alloc: A) -> Self
    where
        A: Copy,
        ensures below { result.below.items ≡ [] }
        ensures above { result.above.items ≡ [] }
    {
        Depths {
            below: Vec::new(alloc),
            above: Vec::new(alloc),
        }
    }

    /// Takes the room of an instance and of those with lower keys. An `Err` may leave some of it taken.
    pub fn make_room(&mut self, key: usize) -> Result<(), AllocError>
        ensures below { (n : ℕ) × (self.new.below.items ≡ self.old.below.items ++ replicate n 0) }
        ensures above { (n : ℕ) × (self.new.above.items ≡ self.old.above.items ++ replicate n 0) }
        ensures placed_below { OnOk result (key < vec_len self.new.below) }
        ensures placed_above { OnOk result (key < vec_len self.new.above) }
    {
        widen(&mut self.below, key)?;
        widen(&mut self.above, key)
    }

    /// Whether the bounds allow for a link from the one to the other. It takes constant time.
    fn admit(&self, outer: DescId, inner: DescId) -> bool
        ensures { result ≡ nat_lt
            (depth_at self.now.above.items outer.0 + depth_at self.now.below.items inner.0) 4 }
    {
        let above = depth_of(&self.above, outer);
        let below = depth_of(&self.below, inner);
        u32::from(above) + u32::from(below) < u32::from(LONGEST)
    }

    /// Raises the bounds by a link, which is the last of these. It looks at the links to the instances whose bounds it
    /// raises, and each is raised four times at most until one is taken away.
    pub fn note(&mut self, links: &Links<A>, link: Link)
        requires last { (ls : List Tie) × (links.now ≡ ls ++ link ∷ []) × AreDeep ls self.old }
        requires legal { is_legal (edges links.now) ≡ true }
        requires below { HasPlaces (edges links.now) (length self.old.below.items) }
        requires above { HasPlaces (edges links.now) (length self.old.above.items) }
        ensures { AreDeep links.now self.new }
    {
        let below = one_more(depth_of(&self.below, link.inner));
        let above = one_more(depth_of(&self.above, link.outer));
        deepen(
            links,
            Way::Down,
            link.outer,
            below,
            LONGEST_CHAIN,
            &mut self.below,
        );
        deepen(
            links,
            Way::Up,
            link.inner,
            above,
            LONGEST_CHAIN,
            &mut self.above,
        );
    }

    /// Forgets the bounds of an instance without links.
    pub fn forget(&mut self, instance: DescId)
        ensures { (ls : List Tie) → AreDeep ls self.old
            → All (λ l. is_apart_from instance.0 l ≡ true) ls → AreDeep ls self.new }
    {
        forget_at(&mut self.below, instance);
        forget_at(&mut self.above, instance);
    }
}

/// Whether the longest chain above the one and that below the other have four links or more together. Where the
/// bounds don't tell, it looks at the links above the one and below the other, at each four times at most.
pub fn are_too_deep<A: Allocator>(
    links: &Links<A>,
    depths: &Depths<A>,
    outer: DescId,
    inner: DescId,
    walk: &mut Traversal<A>,
) -> bool
    requires kept { IsKept links.now walk.old }
    requires deep { AreDeep links.now depths.now }
    ensures deep { result ≡ true → IsTooDeep links.now outer.0 inner.0 }
    ensures shallow { result ≡ false → IsShallow links.now outer.0 inner.0 }
    ensures kept { IsKept links.now walk.new }
{
    if depths.admit(outer, inner) {
        return false;
    }
    let above = longest(links, Way::Up, outer, walk);
    let below = longest(links, Way::Down, inner, walk);
    u32::from(above) + u32::from(below) >= u32::from(LONGEST)
}
