//! The instances that a walk reaches, each noted once.
ghost use Rattle.std.specs.Prelude.{◌≡◌, ◌<◌, ◌≤◌, ◌++◌, ◌||◌, ◌==◌, List, false, length, slice_index_or, vec_capacity, ℕ};
ghost use Rattle.std.specs.List.{All};
ghost use Rattle.ep_base.specs.declared.ids.DescId.{DescId as Key};
ghost use Rattle.ep_machine.specs.Lists.{is_among};
ghost use Rattle.ep_nest.specs.Links.{ends, ends_of, keys};
ghost use Rattle.ep_nest.specs.Marks.{AreNoted};

use crate::link::{Link, Way};
use crate::put::put;
use ep_base::DescId;
use std::alloc::Allocator;

/// Notes an instance at the end, where it is not noted yet.
fn note<A: Allocator>(desc: DescId, marks: &mut [bool], reached: &mut Vec<DescId, A>)
    requires place { desc.0 < length marks.old }
    requires noted { AreNoted marks.old (keys reached.old.items) }
    requires fits { length marks.old ≤ vec_capacity reached.old }
    ensures noted { AreNoted marks.new (keys reached.new.items) }
    ensures exact { (x : ℕ) → is_among (keys reached.new.items) x
        ≡ (x == desc.0 || is_among (keys reached.old.items) x) }
    ensures grown { (more : List Key) × (reached.new.items ≡ reached.old.items ++ more) }
    ensures room { length marks.new ≡ length marks.old }
    ensures capacity { vec_capacity reached.old ≤ vec_capacity reached.new }
{
    if marks[desc.0] {
        return;
    }
    marks[desc.0] = true;
    put(reached, desc);
}

/// Notes the instances to which these links lead.
pub fn note_each<A: Allocator>(
    links: &[Link],
    way: Way,
    marks: &mut [bool],
    reached: &mut Vec<DescId, A>,
)
    requires places { All (λ l. (ends_of way l).1 < length marks.old) links.now }
    requires noted { AreNoted marks.old (keys reached.old.items) }
    requires fits { length marks.old ≤ vec_capacity reached.old }
    ensures noted { AreNoted marks.new (keys reached.new.items) }
    ensures exact { (x : ℕ) → is_among (keys reached.new.items) x
        ≡ (is_among (ends way links.now) x || is_among (keys reached.old.items) x) }
    ensures grown { (more : List Key) × (reached.new.items ≡ reached.old.items ++ more) }
    ensures room { length marks.new ≡ length marks.old }
    ensures capacity { vec_capacity reached.old ≤ vec_capacity reached.new }
{
    for link in links {
        note(link.end(way), marks, reached);
    }
}

/// Clears the marks of these instances, which are all that are marked.
pub fn unmark(reached: &[DescId], marks: &mut [bool])
    requires { AreNoted marks.old (keys reached.now) }
    ensures clear { (x : ℕ) → slice_index_or marks.new x false ≡ false }
    ensures room { length marks.new ≡ length marks.old }
{
    for desc in reached {
        marks[desc.0] = false;
    }
}
