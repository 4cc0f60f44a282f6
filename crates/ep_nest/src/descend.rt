//! A walk down the graph, which looks only at the links from what it reaches.
ghost use Rattle.std.specs.Prelude.{◌≡◌, ◌≤◌, ◌++◌, ◌||◌, List, length, true, ℕ};
ghost use Rattle.ep_base.specs.declared.ids.DescId.{DescId as Key};
ghost use Rattle.ep_machine.specs.Lists.{are_distinct, is_among};
ghost use Rattle.ep_nest.specs.Descent.{AreBeneath};
ghost use Rattle.ep_nest.specs.Links.{ends, keys, starting_at};
ghost use Rattle.ep_nest.specs.Marks.{AreNoted};
ghost use Rattle.ep_nest.specs.Traversal.{HasRoom, IsClear};
ghost use Rattle.ep_nest.specs.declared.link.Way.TheVariants.{Down as Downwards};

use crate::link::Way;
use crate::links::Links;
use crate::reach::{note_each, unmark};
use crate::traversal::Traversal;
use ep_base::DescId;
use std::alloc::Allocator;

/// Notes the instances that an instance watches.
fn go_down<A: Allocator>(links: &Links<A>, outer: DescId, walk: &mut Traversal<A>)
    requires room { HasRoom links.now walk.old }
    requires noted { AreNoted walk.old.marks.items (keys walk.old.reached.items) }
    ensures exact { (x : ℕ) → is_among (keys walk.new.reached.items) x
        ≡ (is_among (ends Downwards (starting_at Downwards outer.0 links.now)) x
        || is_among (keys walk.old.reached.items) x) }
    ensures noted { AreNoted walk.new.marks.items (keys walk.new.reached.items) }
    ensures grown { (more : List Key)
        × (walk.new.reached.items ≡ walk.old.reached.items ++ more) }
    ensures room { HasRoom links.now walk.new }
    ensures marks { length walk.new.marks.items ≡ length walk.old.marks.items }
{
    links.gather(Way::Down, outer, &mut walk.gathered);
    note_each(
        &walk.gathered,
        Way::Down,
        &mut walk.marks,
        &mut walk.reached,
    );
}

/// Finds the instances, each once, to which a chain of links leads down from one.
/// It looks at the links from that one and from those it finds.
pub fn descend<A: Allocator>(links: &Links<A>, above: DescId, walk: &mut Traversal<A>)
    requires room { HasRoom links.now walk.old }
    requires clear { IsClear walk.old }
    ensures exact { AreBeneath links.now above.0 (keys walk.new.reached.items) }
    ensures once { are_distinct (keys walk.new.reached.items) ≡ true }
    ensures room { HasRoom links.now walk.new }
    ensures clear { IsClear walk.new }
{
    walk.reached.clear();
    go_down(links, above, walk);
    let mut done = 0;
    while done < walk.reached.len() {
        let next = walk.reached[done];
        go_down(links, next, walk);
        done += 1;
    }
    unmark(&walk.reached, &mut walk.marks);
}
