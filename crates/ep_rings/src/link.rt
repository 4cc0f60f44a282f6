//! The links of keys in their circles.
ghost use Rattle.std.specs.Prelude.{◌<◌, length};
ghost use Rattle.ep_rings.specs.Links.{Joined};

use std::alloc::Allocator;

/// What a key is linked to in its circle.
#[derive(Clone, Copy)]
pub struct Link {
    /// The key behind it; that of the last is the first.
    pub next: usize,
    /// The key before it; that of the first is the last.
    pub prev: usize,
}

/// Makes two keys neighbours.
pub fn join<A: Allocator>(links: &mut Vec<Link, A>, before: usize, after: usize)
    requires before { before < length links.old.items }
    requires after { after < length links.old.items }
    ensures { Joined links.old.items links.new.items before after }
{
    links[before].next = after;
    links[after].prev = before;
}
