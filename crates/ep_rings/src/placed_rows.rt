//! One row of keys for each owner, with places that are made beforehand.
ghost use Rattle.std.specs.Map.Iter.{ShowsInOrder};
ghost use Rattle.std.specs.Prelude.{◌≡◌, ◌<◌, ◌≤◌, ℕ, OnOk, false, length, true};
ghost use Rattle.ep_base.specs.declared.ids.EntryId.{EntryId};
ghost use Rattle.ep_machine.specs.Lists.{is_among};
ghost use Rattle.ep_rings.specs.PlacedRows.{AreApart, KeepsRows, first_in, head_at, ids_at, keys_at, no_rows};
ghost use Rattle.ep_rings.specs.PlacedRows.{with_key, with_turn, without_key};

use crate::circle::Circle;
use crate::circles::Circles;
use crate::keys::Keys;
use ep_base::{DescId, EntryId};
use std::alloc::{AllocError, Allocator, Global};
use std::marker::Model;

/// For each owner a row of keys, in the order of their coming. A key stands in one row at most. Contracts see for each
/// owner that has a place the numbers of its keys, and below which number keys have places. Each call but `reserve` and
/// a walk of `keys` takes constant time, and only `reserve` takes memory. Memory comes from `A`.
#[derive(Drop)]
pub struct PlacedRows<A: Allocator = Global> {
    heads: Vec<Option<Circle>, A>,
    circles: Circles<A>,
}

impl<A: Allocator> Model for PlacedRows<A> {
    ghost use Rattle.ep_rings.specs.Circles.{AreCircles};
    ghost use Rattle.ep_rings.specs.PlacedRows.{PlacedRows as Placed, head_at, rows_from};

    ghost Value = { Placed };

    ghost view = { λ s. rows_from s.heads.items s.circles };

    ghost invariant = { λ s. AreCircles s.circles (head_at s.heads.items) };
}

/// Where the circle of an owner begins. There is none if the owner has no place.
fn head_in<A: Allocator>(heads: &Vec<Option<Circle>, A>, owner: usize) -> Option<Circle>
    ensures { result ≡ head_at heads.now.items owner }
{
    if owner < heads.len() {
        heads[owner]
    } else {
        None
    }
}

/// Makes places for the owners below a number. The circle of each owner begins where it did, after an `Err` too.
fn add_heads<A: Allocator>(
    heads: &mut Vec<Option<Circle>, A>,
    owners: usize,
) -> Result<(), AllocError>
    ensures kept { (i : ℕ) → head_at heads.new.items i ≡ head_at heads.old.items i }
    ensures more { length heads.old.items ≤ length heads.new.items }
    ensures there { OnOk result (owners ≤ length heads.new.items) }
{
    if heads.len() < owners {
        heads.resize(owners, None)?;
    }
    Ok(())
}

impl<A: Allocator> PlacedRows<A> {
    /// No place and no key, which takes no memory.
    pub fn new(alloc: A) -> Self
    where
        A: Copy,
        ensures { result ≡ no_rows }
    {
        PlacedRows {
            heads: Vec::new(alloc),
            circles: Circles::new(alloc),
        }
    }

    /// What holds of all rows: no row has a key twice, each key in a row has a place, and none stands in two rows.
    pub fn known(&self)
        ensures { AreApart self.now }
    {
        let _owners = self.heads.len();
    }

    /// Makes places for the owners below a number, and for the keys below another. `AllocError` if there is no memory.
    /// Each row is then what it was, after an `Err` too. The cost grows with the number of new places.
    pub fn reserve(&mut self, owners: usize, keys: usize) -> Result<(), AllocError>
        ensures kept { KeepsRows self.old self.new }
        ensures owners { OnOk result (owners ≤ length self.new.rows) }
        ensures keys { OnOk result (keys ≤ self.new.keys) }
    {
        add_heads(&mut self.heads, owners)?;
        self.circles.reserve(keys)
    }

    /// Puts a key that stands in no row at the end of an owner's. Owner and key have places.
    pub fn push(&mut self, owner: DescId, id: EntryId)
        requires owner { owner.0 < length self.old.rows }
        requires key { id.0 < self.old.keys }
        requires fresh { (i : ℕ) → is_among (keys_at self.old i) id.0 ≡ false }
        ensures { self.new ≡ with_key self.old owner.0 id.0 }
    {
        let circle = self.heads[owner.0];
        let longer = self.circles.push(circle, id.0);
        self.heads[owner.0] = Some(longer);
    }

    /// Takes a key out of the row of its owner.
    pub fn remove(&mut self, owner: DescId, id: EntryId)
        requires { is_among (keys_at self.old owner.0) id.0 ≡ true }
        ensures { self.new ≡ without_key self.old owner.0 id.0 }
    {
        if let Some(circle) = self.heads[owner.0] {
            self.heads[owner.0] = self.circles.remove(circle, id.0);
        }
    }

    /// Moves the key at the front of an owner's row to its end. A row with no key stays as it is.
    pub fn rotate(&mut self, owner: DescId)
        ensures { self.new ≡ with_turn self.old owner.0 }
    {
        if let Some(circle) = head_in(&self.heads, owner.0) {
            self.heads[owner.0] = Some(self.circles.turned(circle));
        }
    }

    /// How many keys an owner has; none without a place.
    pub fn len(&self, owner: DescId) -> usize
        ensures { result ≡ length (keys_at self.now owner.0) }
    {
        match head_in(&self.heads, owner.0) {
            None => 0,
            Some(circle) => circle.len,
        }
    }

    /// The key at the front of an owner's row.
    pub fn first(&self, owner: DescId) -> Option<EntryId>
        ensures { result ≡ first_in (keys_at self.now owner.0) }
    {
        match head_in(&self.heads, owner.0) {
            None => None,
            Some(circle) => Some(EntryId(circle.first)),
        }
    }

    /// The keys of an owner, in order. There are none if the owner has no place.
    pub fn keys(&self, owner: DescId) -> Keys<'_>
        ensures exact { result ≡ ids_at self.now owner.0 }
        ensures runs { ShowsInOrder (λ (id : EntryId). id) }
    {
        let circle = head_in(&self.heads, owner.0);
        self.circles.keys(circle)
    }
}
