//! Circles of keys, one for each owner that has some.
ghost use Rattle.std.specs.Prelude.{◌≡◌, ◌<◌, ◌≤◌, ℕ, [], All, IfSome, OnOk, Option, Some, if◌then◌else◌, length, map, nat_lt, not, ◌==◌};
ghost use Rattle.ep_rings.specs.Circles.{AreCircles, CanJoin, CanLeave, Joins, Leaves, Whose, keys_in};
ghost use Rattle.ep_rings.specs.Circles.{lengthened, own_head, row_of, shortened, turned};
ghost use Rattle.ep_rings.specs.KeyWalk.{entry_id};
ghost use Rattle.ep_rings.specs.Links.{next_of, prev_of};
ghost use Rattle.ep_rings.specs.declared.circle.Circle.{Circle as Head};

use crate::circle::{Circle, longer};
use crate::keys::Keys;
use crate::link::{Link, join};
use std::alloc::{AllocError, Allocator, Global};
use std::marker::Model;

/// The links of keys in their circles. Each owner that has keys has one circle of them, and no key is in two. The
/// caller keeps where each circle begins. Contracts see the links by the number of the key, and speak of all circles at
/// once, by a function from owners to where theirs begin. Each call but `reserve` takes constant time and no memory.
/// Memory comes from `A`.
#[derive(Drop)]
pub struct Circles<A: Allocator = Global> {
    // By the number of the key. The link of one that no circle has is not read.
    links: Vec<Link, A>,
}

impl<A: Allocator> Model for Circles<A> {
    ghost use Rattle.std.specs.Prelude.{List};
    ghost use Rattle.ep_rings.specs.declared.link.Link.{Link as Pair};

    ghost Value = { List Pair };

    ghost view = { λ s. s.links.items };
}

impl<A: Allocator> Circles<A> {
    /// No links, which takes no memory.
    pub fn new(alloc: A) -> Circles<A>
    where
        A: Copy,
        ensures { result ≡ [] }
    {
        Circles {
            links: Vec::new(alloc),
        }
    }

    /// Takes memory for the links of keys below a number. `AllocError` if there is none. Each circle then has what it
    /// had, after an `Err` too. The cost grows with the number of new links.
    pub fn reserve(&mut self, many: usize) -> Result<(), AllocError>
        ensures sound { (heads : ℕ → Option Head) → AreCircles self.old heads
            → AreCircles self.new heads }
        ensures kept { (heads : ℕ → Option Head) (i : ℕ)
            → row_of self.new heads i ≡ row_of self.old heads i }
        ensures more { length self.old ≤ length self.new }
        ensures links { OnOk result (many ≤ length self.new) }
    {
        if self.links.len() < many {
            self.links.resize(many, Link { next: 0, prev: 0 })?;
        }
        Ok(())
    }

    /// The last key of the circle with this first one, which is this key if the circle is new.
    fn last(&self, first: usize, key: usize) -> usize
        requires { first < length self.now }
        ensures { result ≡ (if first == key then first else prev_of self.now first) }
    {
        if first == key {
            return first;
        }
        self.links[first].prev
    }

    /// Puts a key that no circle has at the end of the circle with this first one, which is the key itself if the
    /// circle is new. The circle then has a key more, which the caller is to count. `push` does both.
    pub fn append(&mut self, first: usize, key: usize)
        requires linked { key < length self.old }
        requires joins { (w : Whose) × CanJoin self.old w key
            × (first ≡ (lengthened key (own_head w)).first) }
        ensures { (w : Whose) → CanJoin self.old w key
            → first ≡ (lengthened key (own_head w)).first
            → Joins self.old self.new w (Some (lengthened key (own_head w))) key }
    {
        let last = self.last(first, key);
        join(&mut self.links, last, key);
        join(&mut self.links, key, first);
    }

    /// Puts a key that no circle has at the end of an owner's circle, or begins one with it if the owner has none.
    /// Answers the circle with the key, which the caller is to keep as the owner's.
    pub fn push(&mut self, circle: Option<Circle>, key: usize) -> Circle
        requires linked { key < length self.old }
        requires joins { (w : Whose) × CanJoin self.old w key × (own_head w ≡ circle) }
        ensures circle { result ≡ lengthened key circle }
        ensures joins { (w : Whose) → CanJoin self.old w key → own_head w ≡ circle
            → Joins self.old self.new w (Some result) key }
    {
        let _many = self.links.len();
        let longer = longer(circle, key);
        self.append(longer.first, key);
        longer
    }

    /// Takes a key out of its circle, and answers the key behind it, which is the key itself if it was the only one.
    /// The circle then has a key less, which the caller is to count. `remove` does both.
    pub fn unlink(&mut self, key: usize) -> usize
        requires { (w : Whose) × CanLeave self.old w key }
        ensures only { (w : Whose) → CanLeave self.old w key
            → IfSome (own_head w) (λ c. nat_lt 1 c.len ≡ not (key == result)) }
        ensures leaves { (w : Whose) → CanLeave self.old w key
            → Leaves self.old self.new w (shortened key result (own_head w)) key }
    {
        let Link { next, prev } = self.links[key];
        join(&mut self.links, prev, next);
        next
    }

    /// Takes a key out of an owner's circle. Answers the circle without the key, which the caller is to keep as the
    /// owner's, or `None` if it was the only one.
    pub fn remove(&mut self, circle: Circle, key: usize) -> Option<Circle>
        requires { (w : Whose) × CanLeave self.old w key × (own_head w ≡ Some circle) }
        ensures { (w : Whose) → CanLeave self.old w key → own_head w ≡ Some circle
            → Leaves self.old self.new w result key }
    {
        let next = self.unlink(key);
        if key == next {
            return None;
        }
        Some(circle.without(key, next))
    }

    /// The circle from its second key on, with its first one at the end. No link changes. The caller is to keep it as
    /// the owner's.
    pub fn turned(&self, circle: Circle) -> Circle
        requires { circle.first < length self.now }
        ensures { result ≡ turned (next_of self.now) circle }
    {
        Circle {
            first: self.links[circle.first].next,
            len: circle.len,
        }
    }

    /// The keys of an owner's circle, in order. There are none if the owner has no circle.
    pub fn keys(&self, circle: Option<Circle>) -> Keys<'_>
        requires { All (λ k. k < length self.now) (keys_in (next_of self.now) circle) }
        ensures { result ≡ map entry_id (keys_in (next_of self.now) circle) }
    {
        let none = Circle { first: 0, len: 0 };
        let circle = circle.unwrap_or(none);
        Keys {
            links: &self.links,
            at: circle.first,
            left: circle.len,
        }
    }
}
