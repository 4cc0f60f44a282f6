//! The room of walks through the graph.
ghost use Rattle.std.specs.Prelude.{◌≡◌, ◌++◌, ◌≤◌, ◌<◌, OnOk, [], false, length, replicate, vec_len, ℕ};
ghost use Rattle.ep_nest.specs.Traversal.{HasGrown, HasPlace};

use crate::link::Link;
use ep_base::DescId;
use std::alloc::{AllocError, Allocator};

/// A mark for each instance, and lists that a walk fills.
#[derive(Drop)]
pub struct Traversal<A: Allocator> {
    /// Whether the walk has reached the instance; between walks none is marked.
    pub marks: Vec<bool, A>,
    /// The links that start at one instance.
    pub gathered: Vec<Link, A>,
    /// The instances that a walk found.
    pub reached: Vec<DescId, A>,
    /// The instances from which a walk goes on.
    pub level: Vec<DescId, A>,
}

/// Gives an instance its mark, which may add some marks also where memory ends.
fn widen<A: Allocator>(marks: &mut Vec<bool, A>, key: usize) -> Result<(), AllocError>
    ensures grown { (n : ℕ) × (marks.new.items ≡ marks.old.items ++ replicate n false) }
    ensures placed { OnOk result (key < vec_len marks.new) }
    ensures few { (n : ℕ) → key < n → length marks.old.items ≤ n → length marks.new.items ≤ n }
{
    while marks.len() <= key {
        marks.push(false)?;
    }
    Ok(())
}

impl<A: Allocator> Traversal<A> {
    /// No marks and no room, which takes no memory.
    pub fn new(alloc: A) -> Traversal<A>
    where
        A: Copy,
        ensures { result.marks.items ≡ [] }
    {
        Traversal {
            marks: Vec::new(alloc),
            gathered: Vec::new(alloc),
            reached: Vec::new(alloc),
            level: Vec::new(alloc),
        }
    }

    /// Takes the room of walks that reach an instance, over so many links. An error may leave some of it taken.
    pub fn make_room(&mut self, key: usize, many: usize) -> Result<(), AllocError>
        ensures grown { HasGrown self.old self.new }
        ensures room { OnOk result (HasPlace self.new key many) }
    {
        self.gathered.clear();
        self.gathered.reserve(many)?;
        let most = key.checked_add(1).ok_or(AllocError)?.max(self.marks.len());
        self.reached.clear();
        self.reached.reserve(most)?;
        self.level.clear();
        self.level.reserve(most)?;
        widen(&mut self.marks, key)
    }
}
