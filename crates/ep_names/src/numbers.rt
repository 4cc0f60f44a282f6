//! The taken numbers of one space with their owners, the lowest free one at hand.
ghost use Rattle.std.specs.Prelude.{◌≡◌, ◌≤◌, ◌<◌, ◌==◌, ℕ, IfNone, IfSome, None, MatchOption, OnErr, OnOk};
ghost use Rattle.std.specs.Prelude.{Some, [], false, if◌then◌else◌, length, true};
ghost use Rattle.ep_names.specs.Numbers.{AreMarked, AreSound, AreTaken, IsInBlock, IsLowest, block_end, is_marked, is_taken, owner_at};

use crate::blocks::{
    FIRST_GIVEN, GIVEN_END, Marks, block_of, end_of, has_mark, make_marks, set_mark,
};
use indexmap::IndexMap;
use std::alloc::{AllocError, Allocator};
use std::hash::{BuildHasherDefault, FoldHasher};
use std::marker::Model;

type Owners<A> = IndexMap<u32, usize, BuildHasherDefault<FoldHasher>, A>;

/// Numbers that are taken, each with its owner. Contracts see a list of these pairs, whose order says nothing. Memory
/// comes from `A`.
#[derive(Drop)]
pub struct Numbers<A: Allocator> {
    owners: Owners<A>,
    // The lowest number from `FIRST_GIVEN` on that isn't taken, `GIVEN_END` if each below it is.
    lowest: u32,
    // Each block that ends at `lowest` or before has its mark, so that no walk looks at its numbers again.
    marks: Marks<A>,
}

impl<A: Allocator> Model for Numbers<A> {
    ghost use Rattle.std.specs.Prelude.{List, ℕ};
    ghost use Rattle.ep_names.specs.Numbers.{IsNumbers, is_taken};

    ghost Value = { List (ℕ × ℕ) };

    ghost view = { λ n. n.owners.entries };

    ghost invariant = { λ n. IsNumbers (is_taken n.owners.entries) n.lowest n.marks.items };
}

impl<A: Allocator> Numbers<A> {
    /// No number is taken, which takes no memory.
    pub fn new(alloc: A) -> Self
    where
        A: Copy,
        ensures { result ≡ [] }
    {
        Numbers {
            owners: IndexMap::new(alloc),
            lowest: FIRST_GIVEN,
            marks: Vec::new(alloc),
        }
    }

    /// Who has a number, `None` if it isn't taken. It takes constant time.
    pub fn owner(&self, number: u32) -> Option<usize>
        ensures { result ≡ owner_at self.now number }
    {
        self.owners.get(&number).copied()
    }

    /// The lowest number that can be given and isn't taken, `GIVEN_END` if there is none. It takes constant time.
    pub fn lowest(&self) -> u32
        ensures { IsLowest (is_taken self.now) 32768 result }
    {
        self.lowest
    }

    /// Takes a number for an owner. If it is taken, it gets this owner in place of its own. `AllocError` if there is no
    /// memory, and then nothing has changed. It takes constant time, unless the table grows or the number was the
    /// lowest free one, and then the time of `next_free`.
    pub fn insert(&mut self, number: u32, owner: usize) -> Result<(), AllocError>
        ensures taken { OnOk result
            ((k : ℕ) → owner_at self.new k
            ≡ (if number == k then Some owner else owner_at self.old k)) }
        ensures kept { OnErr result (self.new ≡ self.old) }
    {
        make_marks(&mut self.marks, number)?;
        self.owners.insert(number, owner)?;
        if number == self.lowest {
            self.lowest = next_free(&self.owners, &mut self.marks, self.lowest);
        }
        Ok(())
    }

    /// Frees a number, if it is taken. It takes constant time and no memory.
    pub fn remove(&mut self, number: u32)
        ensures { (k : ℕ) → owner_at self.new k
            ≡ (if number == k then None else owner_at self.old k) }
    {
        self.owners.swap_remove(&number);
        if FIRST_GIVEN <= number && number < GIVEN_END {
            set_mark(&mut self.marks, block_of(number), false);
            self.lowest = self.lowest.min(number);
        }
    }
}

/// The lowest number that can be given and isn't taken, `GIVEN_END` if there is none. Each number below `from` that can
/// be given has to be taken. It looks at one mark for each block on the way, and at numbers of a block only if its mark
/// isn't set. Each block that it leaves behind has its mark.
fn next_free<A: Allocator>(owners: &Owners<A>, marks: &mut Marks<A>, from: u32) -> u32
    requires reached { 32768 ≤ from }
    requires within { from ≤ 61000 }
    requires below { AreTaken (is_taken owners.now.entries) 32768 from }
    requires sound { AreSound (is_taken owners.now.entries) marks.old.items }
    requires behind { AreMarked marks.old.items from }
    requires room { from < 61000 → 221 ≤ length marks.old.items }
    ensures lowest { IsLowest (is_taken owners.now.entries) 32768 result }
    ensures sound { AreSound (is_taken owners.now.entries) marks.new.items }
    ensures behind { AreMarked marks.new.items result }
{
    let mut at = from;
    while at < GIVEN_END {
        let block = block_of(at);
        if let Some(free) = free_in_block(owners, marks, block, at) {
            return free;
        }
        at = end_of(block);
    }
    GIVEN_END
}

/// The lowest number of a block that isn't taken. `None` if each is, and then the block has its mark. `from` is a
/// number of the block, and each number below it that can be given has to be taken.
fn free_in_block<A: Allocator>(
    owners: &Owners<A>,
    marks: &mut Marks<A>,
    block: u32,
    from: u32,
) -> Option<u32>
    requires place { IsInBlock from block }
    requires within { from < 61000 }
    requires below { AreTaken (is_taken owners.now.entries) 32768 from }
    requires sound { AreSound (is_taken owners.now.entries) marks.old.items }
    requires room { block < length marks.old.items }
    ensures lowest { MatchOption result
        (AreTaken (is_taken owners.now.entries) 32768 (block_end block))
        (IsLowest (is_taken owners.now.entries) 32768) }
    ensures sound { AreSound (is_taken owners.now.entries) marks.new.items }
    ensures within { IfSome result (λ free. free < block_end block) }
    ensures marked { IfNone result (is_marked marks.new.items block ≡ true) }
    ensures others { (other : ℕ) → is_marked marks.old.items other ≡ true →
        is_marked marks.new.items other ≡ true }
    ensures room { length marks.new.items ≡ length marks.old.items }
{
    if has_mark(marks, block) {
        return None;
    }
    let end = end_of(block);
    let at = first_free(owners, from, end);
    if at < end {
        return Some(at);
    }
    set_mark(marks, block, true);
    None
}

/// The lowest number from `from` on that isn't taken, `end` if each below `end` is. It looks at each number up to
/// there.
fn first_free<A: Allocator>(owners: &Owners<A>, from: u32, end: u32) -> u32
    requires { from ≤ end }
    ensures reached { from ≤ result }
    ensures within { result ≤ end }
    ensures below { AreTaken (is_taken owners.now.entries) from result }
    ensures free { result < end → is_taken owners.now.entries result ≡ false }
{
    let mut at = from;
    while at < end && owners.contains_key(&at) {
        at += 1;
    }
    at
}
