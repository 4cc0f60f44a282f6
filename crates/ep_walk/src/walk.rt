//! Which instances a walk has reached.
ghost use Rattle.std.specs.Prelude.{◌≡◌, ◌+◌, ◌<◌, ◌≤◌, [], length, not, OnOk, Some, slice_get, true, vec_capacity};
ghost use Rattle.ep_machine.specs.Lists.{are_distinct, is_among};
ghost use Rattle.ep_walk.specs.Walk.{IsWalk, with_noted, with_reached};

use std::alloc::{AllocError, Allocator};
use std::marker::Model;

/// The instances that a walk has reached, by their keys, in the order in which it reached them. Reaching one takes no
/// memory, since `make_room` took it. Each call but `make_room` and `forget` takes constant time.
#[derive(Drop)]
pub struct Walk<A: Allocator> {
    marks: Vec<bool, A>,
    reached: Vec<usize, A>,
}

impl<A: Allocator> Model for Walk<A> {
    ghost use Rattle.std.specs.Prelude.{length, vec_capacity};
    ghost use Rattle.ep_walk.specs.Walk.{IsWalk, Walk as Reached};

    ghost Value = { Reached };

    ghost view = { λ w. record { reached = w.reached.items; room = length w.marks.items } };

    ghost invariant = { λ w. IsWalk w.marks.items w.reached.items (vec_capacity w.reached) };
}

/// Adds a mark, and the room that goes with it. A refused growth leaves the walk.
fn add_mark<A: Allocator>(
    marks: &mut Vec<bool, A>,
    reached: &mut Vec<usize, A>,
) -> Result<(), AllocError>
    requires sound { IsWalk marks.old.items reached.old.items (vec_capacity reached.old) }
    ensures sound { IsWalk marks.new.items reached.new.items (vec_capacity reached.new) }
    ensures kept { reached.new.items ≡ reached.old.items }
    ensures more { length marks.old.items ≤ length marks.new.items }
    ensures longer { OnOk result (length marks.new.items ≡ length marks.old.items + 1) }
{
    marks.reserve(1)?;
    reached.reserve(marks.capacity() - reached.len())?;
    marks.push_reserved(false);
    Ok(())
}

/// Adds the marks that are missing up to an instance's. A refused growth leaves the walk.
fn add_marks<A: Allocator>(
    marks: &mut Vec<bool, A>,
    reached: &mut Vec<usize, A>,
    instance: usize,
) -> Result<(), AllocError>
    requires sound { IsWalk marks.old.items reached.old.items (vec_capacity reached.old) }
    ensures sound { IsWalk marks.new.items reached.new.items (vec_capacity reached.new) }
    ensures kept { reached.new.items ≡ reached.old.items }
    ensures more { length marks.old.items ≤ length marks.new.items }
    ensures room { OnOk result (instance < length marks.new.items) }
{
    while marks.len() <= instance {
        add_mark(marks, reached)?;
    }
    Ok(())
}

/// Takes back each mark, in time that grows with what was reached.
fn clear_marks<A: Allocator>(marks: &mut Vec<bool, A>, reached: &mut Vec<usize, A>)
    requires sound { IsWalk marks.old.items reached.old.items (vec_capacity reached.old) }
    ensures sound { IsWalk marks.new.items reached.new.items (vec_capacity reached.new) }
    ensures none { reached.new.items ≡ [] }
    ensures len { length marks.new.items ≡ length marks.old.items }
{
    while let Some(instance) = reached.pop() {
        marks[instance] = false;
    }
}

impl<A: Allocator> Walk<A> {
    /// A walk that has reached nothing, and has room for nothing.
    pub fn new(alloc: A) -> Self
    where
        A: Copy,
        ensures reached { result.reached ≡ [] }
        ensures room { result.room ≡ 0 }
    {
        Walk {
            marks: Vec::new(alloc),
            reached: Vec::new(alloc),
        }
    }

    /// What holds of each walk: it reaches no instance twice, and none for which it has no room.
    pub fn known(&self)
        ensures once { are_distinct self.now.reached ≡ true }
        ensures few { length self.now.reached ≤ self.now.room }
    {
        let _marks = &self.marks;
    }

    /// Makes room for an instance. `AllocError` where there is no memory. What is reached stays.
    pub fn make_room(&mut self, instance: usize) -> Result<(), AllocError>
        ensures kept { self.new.reached ≡ self.old.reached }
        ensures more { self.old.room ≤ self.new.room }
        ensures room { OnOk result (instance < self.new.room) }
    {
        add_marks(&mut self.marks, &mut self.reached, instance)
    }

    /// Whether the walk had not reached an instance yet, which it has now.
    pub fn reach(&mut self, instance: usize) -> bool
        requires room { instance < self.old.room }
        ensures answer { result ≡ not (is_among self.old.reached instance) }
        ensures walk { self.new ≡ with_reached self.old instance }
    {
        if self.marks[instance] {
            return false;
        }
        self.marks[instance] = true;
        self.reached.push_reserved(instance);
        true
    }

    /// Below which key an instance has room.
    pub fn room(&self) -> usize
        ensures { result ≡ self.now.room }
    {
        let _reached = &self.reached;
        self.marks.len()
    }

    /// Reaches an instance where there is room for it, and else does nothing.
    pub fn note(&mut self, instance: usize)
        ensures { self.new ≡ with_noted self.old instance }
    {
        if instance < self.room() {
            self.reach(instance);
        }
    }

    /// Whether the walk has reached an instance.
    pub fn has(&self, instance: usize) -> bool
        ensures { result ≡ is_among self.now.reached instance }
    {
        let _reached = &self.reached;
        self.marks.get(instance).copied().unwrap_or(false)
    }

    /// How many instances the walk has reached.
    pub fn count(&self) -> usize
        ensures { result ≡ length self.now.reached }
    {
        let _marks = &self.marks;
        self.reached.len()
    }

    /// The instance that the walk reached as the one with this index.
    pub fn at(&self, index: usize) -> usize
        requires { index < length self.now.reached }
        ensures { slice_get self.now.reached index ≡ Some result }
    {
        let _marks = &self.marks;
        self.reached[index]
    }

    /// Ends the walk: nothing is reached.
    pub fn forget(&mut self)
        ensures reached { self.new.reached ≡ [] }
        ensures room { self.new.room ≡ self.old.room }
    {
        clear_marks(&mut self.marks, &mut self.reached);
    }
}
