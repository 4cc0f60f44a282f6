//! The longest chain that starts at an instance, found level by level.
ghost use Rattle.std.specs.Prelude.{◌≡◌, ◌||◌, ℕ};
ghost use Rattle.ep_machine.specs.Lists.{is_among};
ghost use Rattle.ep_nest.specs.Chains.{IsShort};
ghost use Rattle.ep_nest.specs.Lengths.{IsLongest, NextLevel};
ghost use Rattle.ep_nest.specs.Links.{along, edges, ends, keys, starting_at};
ghost use Rattle.ep_nest.specs.Marks.{AreNoted};
ghost use Rattle.ep_nest.specs.Traversal.{HasRoom, IsClear};

use crate::link::Way;
use crate::links::Links;
use crate::reach::{note_each, unmark};
use crate::traversal::Traversal;
use ep_base::{DescId, LONGEST_CHAIN};
use std::alloc::Allocator;
use std::mem;

/// How many links the longest chain has.
pub const LONGEST: u8 = LONGEST_CHAIN - 1;

/// Notes the instances to which the links lead that start at one.
fn reach_ends<A: Allocator>(links: &Links<A>, way: Way, start: DescId, walk: &mut Traversal<A>)
    requires room { HasRoom links.now walk.old }
    requires noted { AreNoted walk.old.marks.items (keys walk.old.reached.items) }
    ensures exact { (x : ℕ) → is_among (keys walk.new.reached.items) x
        ≡ (is_among (ends way (starting_at way start.0 links.now)) x
        || is_among (keys walk.old.reached.items) x) }
    ensures noted { AreNoted walk.new.marks.items (keys walk.new.reached.items) }
    ensures level { walk.new.level ≡ walk.old.level }
    ensures room { HasRoom links.now walk.new }
{
    links.gather(way, start, &mut walk.gathered);
    note_each(&walk.gathered, way, &mut walk.marks, &mut walk.reached);
}

/// From the instances of a level to those to which their links lead.
fn go_on<A: Allocator>(links: &Links<A>, way: Way, walk: &mut Traversal<A>)
    requires room { HasRoom links.now walk.old }
    requires noted { AreNoted walk.old.marks.items (keys walk.old.reached.items) }
    ensures exact { NextLevel (along way links.now) (keys walk.old.reached.items)
        (keys walk.new.reached.items) }
    ensures noted { AreNoted walk.new.marks.items (keys walk.new.reached.items) }
    ensures room { HasRoom links.now walk.new }
{
    unmark(&walk.reached, &mut walk.marks);
    mem::swap(&mut walk.level, &mut walk.reached);
    walk.reached.clear();
    let mut done = 0;
    while done < walk.level.len() {
        let start = walk.level[done];
        reach_ends(links, way, start, walk);
        done += 1;
    }
}

/// How many links the longest chain has that starts at an instance. It looks at the links of what it reaches, at
/// those of one instance once in each level, and there are as many levels as links in a chain.
pub fn longest<A: Allocator>(
    links: &Links<A>,
    way: Way,
    start: DescId,
    walk: &mut Traversal<A>,
) -> u8
    requires short { IsShort (edges links.now) }
    requires room { HasRoom links.now walk.old }
    requires clear { IsClear walk.old }
    ensures longest { IsLongest (along way links.now) start.0 result }
    ensures room { HasRoom links.now walk.new }
    ensures clear { IsClear walk.new }
{
    walk.reached.clear();
    reach_ends(links, way, start, walk);
    let mut length = 0;
    while length < LONGEST && !walk.reached.is_empty() {
        go_on(links, way, walk);
        length += 1;
    }
    unmark(&walk.reached, &mut walk.marks);
    length
}
