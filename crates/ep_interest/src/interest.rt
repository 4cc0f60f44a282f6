//! All interest sets together.
ghost use Rattle.std.specs.Prelude.{nat_eq, nat_lt, not, vec_capacity, ◌<◌, ◌≤◌, ◌≡◌, ◌&&◌, ◌+◌, [], ◌∷◌};
ghost use Rattle.std.specs.Prelude.{◌++◌, false, IfOk, IfNone, IfSome, OnErr, IsSome, Some, is_some, All};
ghost use Rattle.std.specs.Prelude.{filter, length, map, slice_index_or, slice_set, None, option_copied};
ghost use Rattle.std.specs.Prelude.{unwrap_or};
ghost use Rattle.std.specs.Map.Iter.{ShowsInOrder};
ghost use Rattle.std.specs.Option.{option_map};
ghost use Rattle.ep_base.specs.declared.ids.EntryId.{EntryId};
ghost use Rattle.ep_interest.specs.Exclusive.{exclusive_of, is_exclusive as exclusive, kept_passing};
ghost use Rattle.ep_interest.specs.InTurn.{AllHeld, changed_at};
ghost use Rattle.ep_interest.specs.Listed.{shown};
ghost use Rattle.std.specs.List.{IsDistinct, find as first_where, list_any};
ghost use Rattle.ep_interest.specs.Registrations.{GainsKey, IsSound, Touches, is_apart_from, left_number};
ghost use Rattle.ep_interest.specs.Registrations.{entry_under, has_key, id_of, ids, is_of, is_on, is_other};
ghost use Rattle.ep_interest.specs.Registrations.{lets_in, modified, entry_of, number_under, numbered};
ghost use Rattle.ep_interest.specs.Registrations.{freshened_on, raised_on, reported, settled, with_ids};
ghost use Rattle.ep_interest.specs.Passes.{ArePassing, has_id, key_numbers, passes_on};
ghost use Rattle.ep_machine.specs.Bits.{ONESHOT, asked, has_bit};
ghost use Rattle.ep_machine.specs.Counts.{brings};

use crate::addition::Addition;
use crate::entries::{Entries, ExclusiveWatchers, Watchers, is_exclusive};
use crate::entry::Entry;
use crate::guards::{with_one, without_one};
use crate::passes::Passes;
use crate::rows::Rows;
use crate::stop::stop_each;
use bitflags::Flags;
use ep_base::{DescId, EntryId, EntryNumber, EventNumber, Fd, Mask};
use indexmap::IndexMap;
use slab::Slab;
use std::alloc::{AllocError, Allocator, Global};
use std::hash::{BuildHasherDefault, FoldHasher};
use std::marker::Model;

/// What no two registrations share: instance, descriptor number and description.
#[derive(Clone, Copy, PartialEq, Eq, Hash)]
struct Key {
    instance: usize,
    fd: i32,
    desc: usize,
}

impl Key {
    fn new(instance: DescId, fd: Fd, desc: DescId) -> Key
        ensures { result ≡ record { instance = instance.0; fd = fd.0; desc = desc.0 } }
    {
        Key {
            instance: instance.0,
            fd: fd.0,
            desc: desc.0,
        }
    }
}

/// The bits that can be shown, which alone arrive.
const SHOWN: Mask = Mask(8_221);

/// Whether a mask asks for one of these bits; ERR and HUP belong to every mask.
fn asks_for(mask: Mask, bits: Mask) -> bool
    ensures { result ≡ brings mask.0 bits.0 }
{
    let wanted = SHOWN.intersection(mask.union(Mask::ERR.union(Mask::HUP)));
    wanted.intersects(Mask::IN) && bits.intersects(Mask::IN)
        || wanted.intersects(Mask::OUT) && bits.intersects(Mask::OUT)
        || wanted.intersects(Mask::ERR) && bits.intersects(Mask::ERR)
        || wanted.intersects(Mask::HUP) && bits.intersects(Mask::HUP)
        || wanted.intersects(Mask::RDHUP) && bits.intersects(Mask::RDHUP)
}

/// Whether a mask asks for any of these bits, those that are never shown included; ERR and HUP belong to every mask.
fn is_asked(mask: Mask, bits: Mask) -> bool
    ensures { result ≡ nat_lt 0 (asked mask.0 bits.0) }
{
    !bits
        .intersection(mask.union(Mask::ERR.union(Mask::HUP)))
        .is_empty()
}

/// Makes a registration on a description fresh where it asks for one of these bits.
fn refresh(entry: &mut Entry, desc: DescId, bits: Mask)
    ensures { entry.new ≡ freshened_on desc bits entry.old }
{
    if entry.desc.0 == desc.0 && asks_for(entry.mask, bits) {
        entry.fresh = true;
    }
}

/// Notes in a registration that these bits were raised at a description in an event.
fn note_raise(entry: &mut Entry, desc: DescId, bits: Mask, event: EventNumber)
    ensures { entry.new ≡ raised_on desc bits event entry.old }
{
    if entry.desc.0 != desc.0 {
        return;
    }
    if entry.armed && is_asked(entry.mask, bits) {
        entry.passes_in = event;
    }
    if asks_for(entry.mask, bits) {
        entry.fresh = true;
    }
}

/// Notes it in the registration under a key, and whether that passes something on now.
fn raise_one<A: Allocator>(
    slots: &mut Slab<Entry, A>,
    passes: &mut Passes<A>,
    id: EntryId,
    desc: DescId,
    bits: Mask,
    event: EventNumber,
)
    requires held { IsSome (slice_index_or slots.old.slots id.0 None) }
    requires passing { ArePassing slots.old.slots passes.old.keys.items }
    requires room { length slots.old.slots ≤ vec_capacity passes.old.keys }
    ensures slots { slots.new.slots
        ≡ slice_set slots.old.slots id.0
        (option_map (raised_on desc bits event) (slice_index_or slots.old.slots id.0 None)) }
    ensures next { slots.new.vacant_key ≡ slots.old.vacant_key }
    ensures passing { ArePassing slots.new.slots passes.new.keys.items }
    ensures room { length slots.new.slots ≤ vec_capacity passes.new.keys }
{
    let entry = &mut slots[id.0];
    let before = entry.passes_in;
    note_raise(entry, desc, bits, event);
    let after = entry.passes_in;
    passes.follow(id, before.is_event(), after.is_event());
}

/// Notes it in each of these registrations, one after another.
fn raise_each<A: Allocator>(
    slots: &mut Slab<Entry, A>,
    passes: &mut Passes<A>,
    watchers: Watchers<'_>,
    desc: DescId,
    bits: Mask,
    event: EventNumber,
)
    requires held { AllHeld slots.old.slots watchers }
    requires passing { ArePassing slots.old.slots passes.old.keys.items }
    requires room { length slots.old.slots ≤ vec_capacity passes.old.keys }
    ensures slots { slots.new.slots
        ≡ changed_at (raised_on desc bits event) watchers.entry slots.old.slots }
    ensures next { slots.new.vacant_key ≡ slots.old.vacant_key }
    ensures passing { ArePassing slots.new.slots passes.new.keys.items }
    ensures room { length slots.new.slots ≤ vec_capacity passes.new.keys }
{
    for id in watchers {
        raise_one(slots, passes, id, desc, bits, event);
    }
}

/// Makes each of these registrations fresh that is on a description and asks for one of these bits, one after another.
fn freshen_each<A: Allocator>(
    slots: &mut Slab<Entry, A>,
    watchers: Watchers<'_>,
    desc: DescId,
    bits: Mask,
)
    requires { AllHeld slots.old.slots watchers }
    ensures slots { slots.new.slots
        ≡ changed_at (freshened_on desc bits) watchers.entry slots.old.slots }
    ensures next { slots.new.vacant_key ≡ slots.old.vacant_key }
{
    for id in watchers {
        refresh(&mut slots[id.0], desc, bits);
    }
}

/// The registration passes nothing on any more.
fn rest(entry: &mut Entry)
    ensures { entry.new ≡ settled entry.old }
{
    entry.passes_in = EventNumber(0);
}

/// Whether a registration is armed after a report: a one-shot is not.
fn stays_armed(entry: &Entry) -> bool
    ensures { result ≡ (entry.now.armed && not (has_bit entry.now.mask.0 ONESHOT)) }
{
    entry.armed && !entry.mask.intersects(Mask::ONESHOT)
}

/// Forgets it of the registration under a key, where there still is one.
fn rest_at<A: Allocator>(slots: &mut Slab<Entry, A>, id: EntryId)
    ensures slots { slots.new.slots
        ≡ slice_set slots.old.slots id.0
        (option_map settled (slice_index_or slots.old.slots id.0 None)) }
    ensures next { slots.new.vacant_key ≡ slots.old.vacant_key }
{
    if let Some(entry) = slots.get_mut(id.0) {
        rest(entry);
    }
}

/// Forgets it of the registrations under these keys.
fn rest_each<A: Allocator>(slots: &mut Slab<Entry, A>, ids: &[EntryId])
    ensures slots { slots.new.slots ≡ changed_at settled ids.now slots.old.slots }
    ensures next { slots.new.vacant_key ≡ slots.old.vacant_key }
{
    for id in ids {
        rest_at(slots, *id);
    }
}

/// How many places there are for registrations where as many have room, with one for this key. The key is below that
/// number, which the contract of a slab doesn't say.
fn places_with(room: usize, id: EntryId) -> Result<usize, AllocError>
    ensures { IfOk result (λ places. id.0 < places) }
{
    if id.0 < room {
        return Ok(room);
    }
    id.0.checked_add(1).ok_or(AllocError)
}

/// The registrations of every instance. Contracts see them in order of registration, the number under each key, and
/// how many were ever added. Adding n of them and removing them again takes time that grows as n and as the highest
/// number of a description in them, however they are spread over instances and descriptions. For each number up to the
/// highest of an instance that has had a registration there is a place of some 24 bytes, and so for targets: numbers
/// should be low. Memory comes from `A`.
#[derive(Drop)]
pub struct Interest<A: Allocator = Global> {
    slots: Slab<Entry, A>,
    by_key: IndexMap<Key, EntryId, BuildHasherDefault<FoldHasher>, A>,
    by_instance: Rows<A>,
    by_target: Rows<A>,
    passes: Passes<A>,
    // How many registrations are exclusive.
    guards: u64,
    added: u64,
}

impl<A: Allocator> Model for Interest<A> {
    ghost use Rattle.ep_interest.specs.Registrations.{Registrations};

    ghost Value = { Registrations };

    ghost use Rattle.ep_interest.specs.View.{registrations, IsInterest};

    ghost view = { registrations };

    ghost invariant = { IsInterest };
}

impl<A: Allocator> Interest<A> {
    /// No registrations, which takes no memory.
    #[tactic(auto, using(crate::proofs::PassesLemmas::passing_none))]
    pub fn new(alloc: A) -> Interest<A>
    where
        A: Copy,
        ensures entries { result.entries ≡ [] }
        ensures keys { result.keys ≡ [] }
        ensures added { result.added ≡ 0 }
        ensures next { result.next ≡ 0 }
    {
        Interest {
            slots: Slab::new(alloc),
            by_key: IndexMap::new(alloc),
            by_instance: Rows::new(alloc),
            by_target: Rows::new(alloc),
            passes: Passes::new(alloc),
            guards: 0,
            added: 0,
        }
    }

    /// The registrations of an instance with their keys, in order of registration. Only these are visited, and the
    /// first is found in constant time.
    pub fn entries(&self, instance: DescId) -> Entries<'_, A>
        ensures entries { map (λ p. p.1) result ≡ filter (is_of instance) self.now.entries }
        ensures keys { All (λ p. number_under self.now p.0 ≡ Some p.1.number) result }
        ensures exact { result ≡ with_ids self.now (filter (is_of instance) self.now.entries) }
        ensures runs { ShowsInOrder shown }
    {
        Entries {
            slots: &self.slots,
            keys: self.by_instance.keys(instance),
        }
    }

    /// The keys of the registrations on a description, in order of registration. Only these are visited, and the first
    /// is found in constant time.
    pub fn watchers(&self, desc: DescId) -> Watchers<'_>
        ensures exact { result ≡ ids self.now (filter (is_on desc) self.now.entries) }
        ensures runs { ShowsInOrder (λ (id : EntryId). id) }
    {
        Watchers {
            keys: self.by_target.keys(desc),
        }
    }

    /// The registrations on a description with their keys, in order of registration.
    fn entries_on(&self, desc: DescId) -> Entries<'_, A>
        ensures exact { result ≡ with_ids self.now (filter (is_on desc) self.now.entries) }
        ensures runs { ShowsInOrder shown }
    {
        let keys = self.by_target.keys(desc);
        Entries {
            slots: &self.slots,
            keys,
        }
    }

    /// The exclusive registrations on a description with their keys, in order of registration. All on it are visited.
    pub fn exclusive_watchers(&self, desc: DescId) -> ExclusiveWatchers<'_, A>
        ensures { result
            ≡ exclusive_of (with_ids self.now (filter (is_on desc) self.now.entries)) }
    {
        ExclusiveWatchers {
            watchers: self.entries_on(desc),
        }
    }

    /// How many exclusive registrations an instance has. They are counted, and all of the instance are visited.
    pub fn exclusive_count(&self, instance: DescId) -> usize
        ensures { result
            ≡ length (exclusive_of
            (with_ids self.now (filter (is_of instance) self.now.entries))) }
    {
        let most = self.count();
        let mut counted = 0;
        for (_, entry) in self.entries(instance) {
            if is_exclusive(entry) {
                counted += 1;
            }
        }
        counted
    }

    /// Whether an instance has an exclusive registration. Those of the instance are visited in order of registration,
    /// up to the first exclusive one.
    pub fn has_exclusive(&self, instance: DescId) -> bool
        ensures { result ≡ list_any exclusive (filter (is_of instance) self.now.entries) }
    {
        for (_, registration) in self.entries(instance) {
            if is_exclusive(registration) {
                return true;
            }
        }
        false
    }

    /// How many registrations there are, which is kept and not counted.
    pub fn count(&self) -> usize
        ensures { result ≡ length self.now.entries }
    {
        self.slots.len()
    }

    /// How many registrations are exclusive, which is kept and not counted.
    pub fn guards(&self) -> u64
        ensures { result ≡ length (filter exclusive self.now.entries) }
    {
        self.guards
    }

    /// How many registrations were ever added.
    pub fn added(&self) -> u64
        ensures { result ≡ self.now.added }
    {
        self.added
    }

    /// Adds a registration with the next number, armed and never reported, as ADD of epoll_ctl(2) does, and answers
    /// its key. `AllocError` if there is no memory, or no number is left after 2^64 - 1 additions, and then nothing has
    /// changed. No other call of this type takes memory. The cost doesn't grow with the registrations, unless a table
    /// grows.
    pub fn add(&mut self, addition: Addition) -> Result<EntryId, AllocError>
    where
        A: Clone,
        requires absent { list_any (has_key addition.instance addition.fd addition.desc)
            self.old.entries ≡ false }
        ensures entries { IfOk result
            (λ _. self.new.entries
            ≡ self.old.entries ++ entry_of (self.old.added + 1) addition ∷ []) }
        ensures keys { IfOk result (λ id. GainsKey self.old self.new id (self.old.added + 1)) }
        ensures next { IfOk result (λ id. id.0 ≡ self.old.next) }
        ensures added { IfOk result (λ _. self.new.added ≡ self.old.added + 1) }
        ensures err { OnErr result (self.new ≡ self.old) }
    {
        if self.added == u64::MAX {
            return Err(AllocError);
        }
        self.slots.reserve(1)?;
        self.by_key.reserve(1)?;
        let many = self.slots.capacity();
        self.passes.reserve(many)?;
        let id = EntryId(self.slots.vacant_key());
        let places = places_with(many, id)?;
        self.by_instance.reserve(places)?;
        self.by_target.reserve(places)?;
        self.by_instance.push(addition.instance, id)?;
        match self.by_target.push(addition.desc, id) {
            Ok(()) => {}
            Err(full) => {
                self.by_instance.remove(addition.instance, id);
                return Err(full);
            }
        }
        let number = self.added + 1;
        let key = Key::new(addition.instance, addition.fd, addition.desc);
        self.by_key.insert(key, id).unwrap();
        let entry = Entry::new(EntryNumber(number), addition);
        self.guards = with_one(self.guards, is_exclusive(&entry));
        self.slots.insert_reserved(entry);
        let _room = self.slots.capacity();
        self.added = number;
        Ok(id)
    }

    /// The key that the next addition gets, under which nothing stands now. The cost doesn't grow with the
    /// registrations.
    pub fn next_key(&self) -> EntryId
        ensures next { result.0 ≡ self.now.next }
        ensures vacant { number_under self.now result ≡ None }
    {
        EntryId(self.slots.vacant_key())
    }

    /// The key of the registration with this instance, descriptor number and description, by a look-up of its hash;
    /// `None` where there is none. The cost doesn't grow with the registrations.
    pub fn find(&self, instance: DescId, fd: Fd, desc: DescId) -> Option<EntryId>
        ensures exact { result ≡ option_map
            (λ x. id_of self.now x.number)
            (first_where (has_key instance fd desc) self.now.entries) }
        ensures there { is_some result ≡ list_any (has_key instance fd desc) self.now.entries }
        ensures key { IfSome result (λ id. IsSome (number_under self.now id)) }
        ensures entry { IfSome result
            (λ id. numbered self.now.entries (unwrap_or (number_under self.now id) 0)
            ≡ first_where (has_key instance fd desc) self.now.entries) }
    {
        self.by_key.get(&Key::new(instance, fd, desc)).copied()
    }

    /// The registration under a key. The cost doesn't grow with the registrations.
    pub fn entry(&self, id: EntryId) -> &Entry
        requires { IsSome (number_under self.now id) }
        ensures number { number_under self.now id ≡ Some result.now.number }
        ensures entry { numbered self.now.entries result.now.number ≡ Some result.now }
    {
        &self.slots[id.0]
    }

    /// The registration under a key, `None` where there is none. The cost doesn't grow with the registrations.
    pub fn get(&self, id: EntryId) -> Option<&Entry>
        ensures { option_copied result ≡ entry_under self.now id }
    {
        self.slots.get(id.0)
    }

    /// Whether IN that reaches the description of the registration under a key goes on to its instance: it is armed
    /// and asks for IN. `false` where there is none. The cost doesn't grow with the registrations.
    pub fn lets_by(&self, id: EntryId) -> bool
        ensures { result ≡ lets_in (entry_under self.now id) }
    {
        match self.slots.get(id.0) {
            Some(entry) => entry.armed && is_asked(entry.mask, Mask::IN),
            None => false,
        }
    }

    /// Notes that an event reports the registration under a key, as epoll_wait(2) does: nothing arrived since, and a
    /// one-shot is disarmed. The cost doesn't grow with the registrations.
    pub fn report(&mut self, id: EntryId, event: EventNumber)
        requires { IsSome (number_under self.old id) }
        ensures entries { self.new.entries
            ≡ map (reported (unwrap_or (number_under self.old id) 0) event) self.old.entries }
        ensures keys { self.new.keys ≡ self.old.keys }
        ensures added { self.new.added ≡ self.old.added }
        ensures next { self.new.next ≡ self.old.next }
    {
        let entry = &mut self.slots[id.0];
        *entry = Entry {
            armed: stays_armed(entry),
            fresh: false,
            reported_in: event,
            ..*entry
        };
    }

    /// What MOD of epoll_ctl(2) does with the registration under a key: it gets this mask and this data, is armed
    /// again, and is fresh. The event of its last report stays. The cost doesn't grow with the registrations.
    pub fn modify(&mut self, id: EntryId, mask: Mask, tag: u64)
        requires { IsSome (number_under self.old id) }
        ensures entries { self.new.entries
            ≡ map (modified (unwrap_or (number_under self.old id) 0) mask tag) self.old.entries }
        ensures keys { self.new.keys ≡ self.old.keys }
        ensures added { self.new.added ≡ self.old.added }
        ensures next { self.new.next ≡ self.old.next }
    {
        let changed = &mut self.slots[id.0];
        let others = without_one(self.guards, is_exclusive(changed));
        *changed = Entry {
            mask,
            tag,
            armed: true,
            fresh: true,
            ..*changed
        };
        self.guards = with_one(others, is_exclusive(changed));
    }

    /// Notes that an event raised these bits at a description. Each registration on it whose mask asks for one of
    /// them, ERR and HUP unasked, is fresh; one that is armed passes them on in this event. Only those on it are
    /// visited, and the first is found in constant time.
    pub fn raise(&mut self, desc: DescId, bits: Mask, event: EventNumber)
        ensures entries { self.new.entries ≡ map (raised_on desc bits event) self.old.entries }
        ensures keys { self.new.keys ≡ self.old.keys }
        ensures added { self.new.added ≡ self.old.added }
        ensures next { self.new.next ≡ self.old.next }
    {
        let keys = self.by_target.keys(desc);
        let watchers = Watchers { keys };
        raise_each(
            &mut self.slots,
            &mut self.passes,
            watchers,
            desc,
            bits,
            event,
        );
    }

    /// Of the exclusive registrations on a description the one with this number passes on what it does, and the others
    /// nothing any more. Those on the description are visited. It takes no memory.
    pub fn keep_passing(&mut self, desc: DescId, keep: Option<EntryNumber>)
        ensures entries { self.new.entries ≡ map (kept_passing desc keep) self.old.entries }
        ensures keys { self.new.keys ≡ self.old.keys }
        ensures added { self.new.added ≡ self.old.added }
        ensures next { self.new.next ≡ self.old.next }
    {
        let keys = self.by_target.keys(desc);
        let watchers = Watchers { keys };
        stop_each(&mut self.slots, &mut self.passes, watchers, desc, &keep);
    }

    /// Notes what reached a description from below, where nothing is left to pass on: each registration on it
    /// whose mask asks for one of these bits is fresh. Only those on it are visited, as by `raise`.
    pub fn freshen(&mut self, desc: DescId, bits: Mask)
        ensures entries { self.new.entries ≡ map (freshened_on desc bits) self.old.entries }
        ensures keys { self.new.keys ≡ self.old.keys }
        ensures added { self.new.added ≡ self.old.added }
        ensures next { self.new.next ≡ self.old.next }
    {
        let keys = self.by_target.keys(desc);
        let watchers = Watchers { keys };
        freshen_each(&mut self.slots, watchers, desc, bits);
    }

    /// Ends an event: no registration passes anything on. Only those are visited that passed something on since the
    /// last call.
    pub fn settle(&mut self)
        ensures entries { self.new.entries ≡ map settled self.old.entries }
        ensures keys { self.new.keys ≡ self.old.keys }
        ensures added { self.new.added ≡ self.old.added }
        ensures next { self.new.next ≡ self.old.next }
    {
        rest_each(&mut self.slots, &self.passes.keys);
        self.passes.keys.clear();
    }

    /// The keys of the registrations that pass something on in this event, each once. It takes no memory.
    pub fn passing(&self) -> &[EntryId]
        ensures exact { (id : EntryId)
            → has_id result.now id.0 ≡ passes_on (entry_under self.now id) }
        ensures once { IsDistinct nat_eq (key_numbers result.now) }
    {
        &self.passes.keys
    }

    /// Takes away the registration under a key, as DEL of epoll_ctl(2) does. The key may be given out again, the
    /// number is not. The cost doesn't grow with the registrations.
    pub fn remove(&mut self, id: EntryId)
        requires { IsSome (number_under self.old id) }
        ensures entries { self.new.entries
            ≡ filter (is_other (unwrap_or (number_under self.old id) 0)) self.old.entries }
        ensures keys { self.new.keys ≡ slice_set self.old.keys id.0 None }
        ensures added { self.new.added ≡ self.old.added }
        ensures next { self.new.next ≡ id.0 }
    {
        let entry = self.slots.remove(id.0);
        self.guards = without_one(self.guards, is_exclusive(&entry));
        self.passes.follow(id, entry.passes_in.is_event(), false);
        let key = Key::new(entry.instance, entry.fd, entry.desc);
        self.by_key.swap_remove(&key);
        self.by_instance.remove(entry.instance, id);
        self.by_target.remove(entry.desc, id);
    }

    /// Takes away every registration in the set of a description and every one on it, as where the description dies.
    /// Only these are visited, and each costs what `remove` does. The cost is constant if there is none.
    pub fn purge(&mut self, desc: DescId)
        ensures entries { self.new.entries ≡ filter (is_apart_from desc) self.old.entries }
        ensures keys { (id : EntryId)
            → number_under self.new id ≡ left_number self.new.entries (number_under self.old id) }
        ensures added { self.new.added ≡ self.old.added }
    {
        self.known();
        while let Some(id) = self.first_touching(desc) {
            self.remove(id);
        }
    }

    /// The key of a registration in the set of a description or on it, `None` where there is none.
    fn first_touching(&self, desc: DescId) -> Option<EntryId>
        ensures none { IfNone result
            (filter (is_apart_from desc) self.now.entries ≡ self.now.entries) }
        ensures some { IfSome result (λ id. Touches self.now desc id) }
        ensures sound { IsSound self.now }
    {
        self.known();
        match self.entries(desc).next() {
            Some((id, _)) => Some(id),
            None => self.watchers(desc).next(),
        }
    }

    /// Does nothing. Its clause says what holds of every value: numbers rise and none is above the number of
    /// additions, keys and registrations go one to one, and no two registrations share instance, descriptor number
    /// and description.
    pub fn known(&self)
        ensures { IsSound self.now }
    {
        let _slots = &self.slots;
    }
}
