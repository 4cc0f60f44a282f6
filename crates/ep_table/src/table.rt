//! The descriptor table of a process.
ghost use Rattle.std.specs.Prelude.{◌≡◌, ◌<◌, ◌≤◌, ◌+◌, ◌∷◌, ◌^◌, [], IfOk, None, OnErr, OnOk, Some, drop, false, map};
ghost use Rattle.std.specs.Prelude.{slice_index_or, slice_set, vec_capacity, vec_len};
ghost use Rattle.ep_machine.specs.Lists.{lowest_free, enter, place_at};
ghost use Rattle.ep_table.specs.Flagged.{grown, kept};
ghost use Rattle.ep_table.specs.Low.{IsLow};
ghost use Rattle.ep_table.specs.declared.words.Descriptor.{Descriptor as the_descriptor};

use crate::words::Descriptor;
use ep_base::DescId;
use std::alloc::{AllocError, Allocator};

/// Descriptors by number. No number below `low` is free.
#[derive(Drop)]
pub struct Table<A: Allocator> {
    /// What each number names, by number.
    pub slots: Vec<Option<Descriptor>, A>,
    /// A number below which none is free.
    pub low: usize,
    pub ghost is_low: { IsLow low slots.items },
}

/// The first free number from this one on.
fn next_free(slots: &[Option<Descriptor>], from: usize) -> usize
    ensures { result ≡ from + lowest_free (drop from slots.now) }
{
    let mut at = from;
    while at < slots.len() && slots[at].is_some() {
        at += 1;
    }
    at
}

/// Puts a descriptor at the lowest free number.
fn place<A: Allocator>(
    slots: &mut Vec<Option<Descriptor>, A>,
    number: usize,
    descriptor: Descriptor,
)
    requires number { number ≡ lowest_free slots.old.items }
    requires room { vec_len slots.old + 1 ≤ vec_capacity slots.old }
    ensures slots { slots.new.items ≡ enter slots.old.items descriptor }
    ensures len { vec_len slots.new ≤ vec_len slots.old + 1 }
    ensures capacity { vec_capacity slots.new ≡ vec_capacity slots.old }
{
    if number < slots.len() {
        slots[number] = Some(descriptor);
    } else {
        slots.push_reserved(Some(descriptor));
    }
}

fn free<A: Allocator>(slots: &mut Vec<Option<Descriptor>, A>, number: usize)
    requires { number < vec_len slots.old }
    ensures { slots.new.items ≡ slice_set slots.old.items number None }
{
    slots[number] = None;
}

fn left_by_exec(slot: Option<Descriptor>) -> Option<Descriptor>
    ensures { result ≡ kept slot }
{
    match slot {
        Some(descriptor) if descriptor.cloexec => None,
        other => other,
    }
}

fn free_flagged(slots: &mut [Option<Descriptor>])
    ensures { slots.new ≡ map kept slots.old }
{
    for number in 0..slots.len() {
        slots[number] = left_by_exec(slots[number]);
    }
}

/// Grows a table so that it has a number. An `AllocError` leaves it.
fn grow_to<A: Allocator>(
    slots: &mut Vec<Option<Descriptor>, A>,
    number: usize,
) -> Result<(), AllocError>
    requires { number + 1 < 2 ^ 64 }
    ensures ok { OnOk result (slots.new.items ≡ grown slots.old.items number) }
    ensures err { OnErr result (slots.new.items ≡ slots.old.items) }
{
    if slots.len() <= number {
        slots.resize(number + 1, None)?;
    }
    Ok(())
}

fn set<A: Allocator>(slots: &mut Vec<Option<Descriptor>, A>, number: usize, descriptor: Descriptor)
    requires { number < vec_len slots.old }
    ensures { slots.new.items ≡ slice_set slots.old.items number (Some descriptor) }
{
    slots[number] = Some(descriptor);
}

fn copy_slots<A: Allocator>(
    alloc: A,
    slots: &[Option<Descriptor>],
) -> Result<Vec<Option<Descriptor>, A>, AllocError>
    ensures { IfOk result (λ copy. copy.items ≡ slots.now) }
{
    let mut copy = Vec::new(alloc);
    for slot in slots {
        copy.push(*slot)?;
    }
    Ok(copy)
}

impl<A: Allocator> Table<A> {
    /// The table with which the first process starts: 0, 1 and 2 name one description.
    pub fn opening(alloc: A, description: DescId) -> Result<Table<A>, AllocError>
        ensures { IfOk result
            (λ table. let x = Some (record { description = description; cloexec = false }) in
            table.slots.items ≡ x ∷ x ∷ x ∷ []) }
    {
        let descriptor = Descriptor {
            description,
            cloexec: false,
        };
        let mut slots = Vec::new(alloc);
        slots.push(Some(descriptor))?;
        slots.push(Some(descriptor))?;
        slots.push(Some(descriptor))?;
        Ok(Table { slots, low: 0 })
    }

    /// The lowest free number.
    pub fn lowest(&self) -> usize
        ensures { result ≡ lowest_free self.now.slots.items }
    {
        next_free(&self.slots, self.low)
    }

    /// The lowest free number once the lowest one is taken.
    pub fn second(&self) -> usize
        ensures { (x : the_descriptor) → result ≡ lowest_free (enter self.now.slots.items x) }
    {
        next_free(&self.slots, self.lowest() + 1)
    }

    /// What a number names.
    pub fn get(&self, number: usize) -> Option<Descriptor>
        ensures { result ≡ slice_index_or self.now.slots.items number None }
    {
        match self.slots.get(number) {
            Some(slot) => *slot,
            None => None,
        }
    }

    /// Makes room for so many more descriptors.
    pub fn reserve(&mut self, additional: usize) -> Result<(), AllocError>
        ensures slots { self.new.slots.items ≡ self.old.slots.items }
        ensures room { OnOk result
            (vec_len self.new.slots + additional ≤ vec_capacity self.new.slots) }
    {
        self.slots.reserve(additional)
    }

    /// Puts a descriptor at the lowest free number.
    pub fn enter(&mut self, descriptor: Descriptor)
        requires { vec_len self.old.slots + 1 ≤ vec_capacity self.old.slots }
        ensures slots { self.new.slots.items ≡ enter self.old.slots.items descriptor }
        ensures len { vec_len self.new.slots ≤ vec_len self.old.slots + 1 }
        ensures capacity { vec_capacity self.new.slots ≡ vec_capacity self.old.slots }
    {
        let number = self.lowest();
        place(&mut self.slots, number, descriptor);
        self.low = number;
    }

    /// Frees a number.
    pub fn leave(&mut self, number: usize)
        ensures { self.new.slots.items ≡ slice_set self.old.slots.items number None }
    {
        if number < self.slots.len() {
            free(&mut self.slots, number);
            self.low = self.low.min(number);
        }
    }

    /// Puts a descriptor at a number. An `AllocError` leaves the table.
    pub fn put(&mut self, number: usize, descriptor: Descriptor) -> Result<(), AllocError>
        requires { number + 1 < 2 ^ 64 }
        ensures ok { OnOk result
            (self.new.slots.items ≡ place_at self.old.slots.items number descriptor) }
        ensures err { OnErr result (self.new.slots.items ≡ self.old.slots.items) }
    {
        grow_to(&mut self.slots, number)?;
        set(&mut self.slots, number, descriptor);
        Ok(())
    }

    /// Frees the numbers whose close-on-exec flag is on.
    pub fn close_flagged(&mut self)
        ensures { self.new.slots.items ≡ map kept self.old.slots.items }
    {
        self.low = 0;
        free_flagged(&mut self.slots);
    }

    /// The same descriptors in another table.
    pub fn copy(&self) -> Result<Table<A>, AllocError>
    where
        A: Copy,
        ensures { IfOk result (λ copy. copy.slots.items ≡ self.now.slots.items) }
    {
        let slots = copy_slots(*self.slots.allocator(), &self.slots)?;
        Ok(Table { slots, low: 0 })
    }
}
