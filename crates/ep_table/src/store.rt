//! Open file descriptions and their objects.
ghost use Rattle.std.specs.Prelude.{◌≡◌, ◌+◌, ◌<◌, ◌≤◌, ◌^◌, [], false, IfNone, IfOk, IfSome, IsOk, IsSome, None};
ghost use Rattle.std.specs.Prelude.{OnErr, OnOk, Some, length, is_some, map, min, slice_index_or, slice_set, vec_capacity};
ghost use Rattle.std.specs.Prelude.{if◌then◌else◌, true, ℕ};
ghost use Rattle.slab.specs.Slab.{HasRoomFor, slab_len};
ghost use Rattle.std.specs.Map.Iter.{ShowsInOrder};
ghost use Rattle.ep_base.specs.declared.ids.DescId.{DescId};
ghost use Rattle.ep_machine.specs.Effect.{first};
ghost use Rattle.ep_machine.specs.Lists.{is_among, numbered};
ghost use Rattle.ep_machine.specs.Files.{object_of, place_of, side_of};
ghost use Rattle.ep_object.specs.Asked.{takes_name};
ghost use Rattle.ep_object.specs.Memory.{asked_of};
ghost use Rattle.ep_base.specs.declared.socket.Name.{Name as the_name};
ghost use Rattle.ep_machine.specs.Names.{is_there};
ghost use Rattle.ep_machine.specs.Objects.{close_end, found_for, hearing, hearing_in, is_instance, is_taken, name_in};
ghost use Rattle.ep_object.specs.Quiet.{IsQuiet};
ghost use Rattle.ep_names.specs.Names.{holds, owner_of};
ghost use Rattle.ep_table.specs.Taking.{FindsFree, freed_slot};
ghost use Rattle.ep_table.specs.Closing.{Dies, IsAt, across, closed_in, closed_slot, other_key, other_slot, raised_slot};
ghost use Rattle.ep_table.specs.Live.{live_ids};
ghost use Rattle.ep_table.specs.Value.{InsertsOne, InsertsTwo, SoundThings, content_of, count_at, files_in, less_at, more_at};
ghost use Rattle.ep_table.specs.Value.{number_at, objects_after, refusals_at, thing_effect, thing_number};
ghost use Rattle.ep_table.specs.Value.{thing_waiting};

use crate::dying_keys::DyingKeys;
use crate::live::Live;
use crate::waiting::Waiting;
use crate::words::{Dead, Description, Dying, Loss, Shared};
use ep_base::{Answer, Call, DescId, End, Hearing, Moment, Name, Raised, Space};
use ep_names::Names;
use ep_object::{NamingCall, Object, ObjectCall};
use slab::Slab;
use std::alloc::{AllocError, Allocator};
use std::marker::Model;

/// Open file descriptions and objects by their keys, how many there have been of each, how often a
/// name was added to a description, the descriptions that nothing names or holds, with room for
/// all that live, which names of sockets are taken, which connections wait to be accepted, and what
/// the last call raised by letting some of them go.
#[derive(Drop)]
pub struct Store<A: Allocator> {
    pub(crate) described: u64,
    made: u64,
    named: usize,
    pub(crate) descriptions: Slab<Description, A>,
    pub(crate) objects: Slab<Shared, A>,
    pub(crate) dying: Vec<Dying, A>,
    // In a box, since three tables of names make whatever holds the store by value large.
    taken: Box<Names<A>, A>,
    pub(crate) waiting: Waiting<A>,
    // With room for one of each connection that waits.
    pub(crate) losses: Vec<Loss, A>,
}

impl<A: Allocator> Model for Store<A> {
    ghost use Rattle.ep_table.specs.Value.{Things};

    ghost Value = { Things };

    ghost use Rattle.ep_table.specs.Stored.{things, IsStore};

    ghost view = { things };

    ghost invariant = { IsStore };
}

/// Makes room for so many descriptions, and for the deaths of all.
pub fn reserve_described<A: Allocator>(
    descriptions: &mut Slab<Description, A>,
    dying: &mut Vec<Dying, A>,
    additional: usize,
) -> Result<(), AllocError>
    ensures descriptions { descriptions.new.slots ≡ descriptions.old.slots }
    ensures dying { dying.new.items ≡ dying.old.items }
    ensures grown { vec_capacity dying.old ≤ vec_capacity dying.new }
    ensures room { OnOk result (HasRoomFor descriptions.new additional) }
    ensures death_room { OnOk result
        (slab_len descriptions.new + additional ≤ vec_capacity dying.new) }
{
    descriptions.reserve(additional)?;
    dying.reserve(descriptions.capacity())?;
    Ok(())
}

/// Makes room for one object and so many descriptions, and for the deaths of all.
fn reserve<A: Allocator>(
    descriptions: &mut Slab<Description, A>,
    objects: &mut Slab<Shared, A>,
    dying: &mut Vec<Dying, A>,
    additional: usize,
) -> Result<(), AllocError>
    ensures descriptions { descriptions.new.slots ≡ descriptions.old.slots }
    ensures objects { objects.new.slots ≡ objects.old.slots }
    ensures dying { dying.new.items ≡ dying.old.items }
    ensures grown { vec_capacity dying.old ≤ vec_capacity dying.new }
    ensures room { OnOk result (HasRoomFor descriptions.new additional) }
    ensures object_room { OnOk result (HasRoomFor objects.new 1) }
    ensures death_room { OnOk result
        (slab_len descriptions.new + additional ≤ vec_capacity dying.new) }
{
    objects.reserve(1)?;
    reserve_described(descriptions, dying, additional)
}

/// Closes an end of an object, which goes where that was the last, unless somebody may accept the other: what that
/// raised, the key of the description of the other end, and the name that went with the object, or with the end that
/// closed.
pub fn close<A: Allocator>(
    objects: &mut Slab<Shared, A>,
    at: usize,
    end: End,
) -> (Raised, Option<DescId>, Option<Name>)
    requires { IsSome (slice_index_or objects.old.slots at None) }
    ensures slots { objects.new.slots
        ≡ slice_set objects.old.slots at
        (closed_slot (slice_index_or objects.old.slots at None) end) }
    ensures raised { result.0 ≡ raised_slot (slice_index_or objects.old.slots at None) end }
    ensures other { result.1 ≡ other_slot (slice_index_or objects.old.slots at None) end }
    ensures name { result.2 ≡ freed_slot (slice_index_or objects.old.slots at None) end }
{
    let shared = &mut objects[at];
    let name = shared.object.name();
    let raised = close_shared(shared, end);
    let other = other_in(shared, end);
    if other.is_some() || shared.object.is_waiting() {
        let freed = lost_name(name, shared.object.name());
        return (raised, other, freed);
    }
    objects.remove(at);
    (raised, other, name)
}

/// The name that was there and is no more.
fn lost_name(before: Option<Name>, after: Option<Name>) -> Option<Name>
    ensures { result ≡ (if is_some after then None else before) }
{
    match after {
        Some(_) => None,
        None => before,
    }
}

fn close_shared(shared: &mut Shared, end: End) -> Raised
    ensures shared { shared.new ≡ closed_in shared.old end }
    ensures raised { result ≡ (close_end shared.old.object end).1 }
{
    match end {
        End::First => shared.first = None,
        End::Second => shared.second = None,
    }
    shared.object.close_end(end)
}

fn other_in(shared: &Shared, end: End) -> Option<DescId>
    ensures { result ≡ other_key shared.now end }
{
    match end {
        End::First => shared.second,
        End::Second => shared.first,
    }
}

/// Takes the name that the socket under this key gets, if it gets one. An `AllocError` leaves the names.
fn take_gained<A: Allocator>(
    taken: &mut Names<A>,
    gained: Option<Name>,
    at: usize,
) -> Result<(), AllocError>
    ensures ok { OnOk result ((n : the_name)
        → owner_of taken.new n ≡ (if is_there n gained then Some at else owner_of taken.old n)) }
    ensures none { gained ≡ None → IsOk result }
    ensures err { OnErr result (taken.new ≡ taken.old) }
{
    match gained {
        Some(name) => taken.insert(name, at),
        None => Ok(()),
    }
}

/// Frees the name that went with an object, if one did.
fn free_name<A: Allocator>(taken: &mut Names<A>, name: Option<Name>)
    ensures { (n : the_name)
        → owner_of taken.new n ≡ (if is_there n name then None else owner_of taken.old n) }
{
    if let Some(name) = name {
        taken.remove(name);
    }
}

impl<A: Allocator> Store<A> {
    /// No descriptions.
    pub fn new(alloc: A) -> Result<Store<A>, AllocError>
    where
        A: Copy,
        ensures { IfOk result (λ store. store
            ≡ record { descriptions = []; objects = []; keys = []; names = []; holds = []; dying = []; named = 0; losses = [] }) }
    {
        Ok(Store {
            described: 0,
            made: 0,
            named: 0,
            descriptions: Slab::new(alloc),
            objects: Slab::new(alloc),
            dying: Vec::new(alloc),
            taken: Box::new(alloc, Names::new(alloc))?,
            waiting: Waiting::new(alloc),
            losses: Vec::new(alloc),
        })
    }

    /// How many descriptions are live.
    pub fn len(&self) -> usize
        ensures { result ≡ length (numbered 0 self.now.descriptions) }
    {
        self.descriptions.len()
    }

    /// The keys of the live descriptions, in their order.
    pub fn live(&self) -> Live<'_>
        ensures exact { result ≡ live_ids self.now.keys }
        ensures runs { ShowsInOrder (λ (id : DescId). id) }
    {
        Live {
            entries: self.descriptions.iter(),
        }
    }

    /// The keys of the descriptions that nothing names or holds, in the order of the queue.
    pub fn dying(&self) -> DyingKeys<'_>
        ensures exact { map (number_at self.now.keys) result ≡ map Some self.now.dying }
        ensures runs { ShowsInOrder (λ (id : DescId). id) }
    {
        DyingKeys { queue: &self.dying }
    }

    /// Which end of its object a description is.
    pub fn end(&self, key: DescId) -> End
        requires { IsSome (number_at self.now.keys key) }
        ensures { result ≡ side_of (files_in self.now) (thing_number self.now key) }
    {
        self.descriptions[key.0].end
    }

    /// The key of the living description of the other end of the object.
    pub fn other(&self, key: DescId) -> Option<DescId>
        requires { IsSome (number_at self.now.keys key) }
        ensures { IsAt (files_in self.now) self.now.keys
            (across (place_of (files_in self.now) (thing_number self.now key))) result }
    {
        let description = self.descriptions[key.0];
        other_in(&self.objects[description.object], description.end)
    }

    /// The object of a description.
    pub fn object(&self, key: DescId) -> &Object
        requires { IsSome (number_at self.now.keys key) }
        ensures { Some result.now ≡ object_of (files_in self.now) (thing_number self.now key) }
    {
        let description = self.descriptions[key.0];
        &self.objects[description.object].object
    }

    /// Whether so many more descriptions and one more object find numbers.
    fn has_numbers(&self, additional: u64) -> Result<(), AllocError>
        ensures descriptions { OnOk result (length self.now.descriptions + additional < 2 ^ 64) }
        ensures objects { OnOk result (length self.now.objects + 1 < 2 ^ 64) }
    {
        if u64::MAX - self.described < additional || self.made == u64::MAX {
            return Err(AllocError);
        }
        Ok(())
    }

    /// The name that is free for a call that gives its socket one: for a bind the one that it asks for, or any if that
    /// is number 0; for a listen any of IPv4, for a connect any of its space.
    pub fn found_for(&self, call: &Call) -> Option<Name>
        ensures { result ≡ found_for (is_taken self.now.objects) call.now }
    {
        match *call {
            Call::Bind { name, .. } => self.taken.free(name),
            Call::Listen { .. } => self.taken.given(Space::V4),
            Call::Connect { name, .. } => self.taken.given(name.space),
            _ => None,
        }
    }

    /// Who hears a connect by this name: the one socket that has it, if it listens.
    fn hears(&self, name: Name) -> Hearing
        ensures { result ≡ hearing_in self.now.objects name }
    {
        match self.taken.owner(name) {
            Some(at) => self.objects[at].object.hearing(),
            None => Hearing::Nobody,
        }
    }

    /// Who hears a call by the name by which it connects; any other call nobody.
    pub fn hearing(&self, call: &Call) -> Hearing
        ensures { result ≡ hearing self.now.objects call.now }
    {
        match *call {
            Call::Connect { name, .. } => self.hears(name),
            _ => Hearing::Nobody,
        }
    }

    /// A new object with one description that has one name, or nothing changed where there is no
    /// memory or no number left. No object has a name from the start, or a connection that waits.
    pub fn insert(&mut self, object: Object) -> Result<DescId, AllocError>
        requires unnamed { name_in object ≡ None }
        requires quiet { IsQuiet object }
        ensures ok { IfOk result (λ key. InsertsOne self.old self.new key object) }
        ensures err { OnErr result (self.new ≡ self.old) }
    {
        self.has_numbers(1)?;
        reserve(
            &mut self.descriptions,
            &mut self.objects,
            &mut self.dying,
            1,
        )?;
        let at = self.objects.vacant_key();
        let key = self.descriptions.insert_reserved(Description {
            number: self.described,
            object_number: self.made,
            object: at,
            end: End::First,
            names: 1,
            holds: 0,
        });
        self.objects.insert_reserved(Shared {
            number: self.made,
            object,
            first: Some(DescId(key)),
            second: None,
        });
        self.described += 1;
        self.made += 1;
        self.losses.clear();
        Ok(DescId(key))
    }

    /// A new object with a description of each end that have one name each, or nothing changed where
    /// there is no memory or no number left.
    pub fn insert_two(&mut self, object: Object) -> Result<(DescId, DescId), AllocError>
        requires unnamed { name_in object ≡ None }
        requires quiet { IsQuiet object }
        ensures ok { IfOk result (λ keys. InsertsTwo self.old self.new keys.0 keys.1 object) }
        ensures err { OnErr result (self.new ≡ self.old) }
    {
        self.has_numbers(2)?;
        reserve(
            &mut self.descriptions,
            &mut self.objects,
            &mut self.dying,
            2,
        )?;
        let at = self.objects.vacant_key();
        let first = self.descriptions.insert_reserved(Description {
            number: self.described,
            object_number: self.made,
            object: at,
            end: End::First,
            names: 1,
            holds: 0,
        });
        self.described += 1;
        let second = self.descriptions.insert_reserved(Description {
            number: self.described,
            object_number: self.made,
            object: at,
            end: End::Second,
            names: 1,
            holds: 0,
        });
        self.described += 1;
        self.objects.insert_reserved(Shared {
            number: self.made,
            object,
            first: Some(DescId(first)),
            second: Some(DescId(second)),
        });
        self.made += 1;
        self.losses.clear();
        Ok((DescId(first), DescId(second)))
    }

    /// A call on the object of a description, at the description's end, by which no socket gets a name.
    pub fn apply(
        &mut self,
        key: DescId,
        now: Moment,
        call: &ObjectCall<'_>,
    ) -> Result<(Answer, Raised), AllocError>
        requires live { IsSome (number_at self.old.keys key) }
        ensures answer { IfOk result (λ r. r.0 ≡ (thing_effect self.old key now call.now).0) }
        ensures raised { IfOk result (λ r. r.1 ≡ (thing_effect self.old key now call.now).2) }
        ensures objects { OnOk result
            (self.new ≡ record self.old { objects = objects_after self.old key now call.now }) }
        ensures err { OnErr result (self.new ≡ self.old) }
        ensures inline { min (asked_of call.now) (thing_waiting self.old key call.now) ≤ 16
            → IsOk result }
        ensures last { OnErr result
            (first (refusals_at (files_in self.old) (thing_number self.old key) now call.now)
            ≡ None) }
    {
        // (only the prover needs it)
        call.known();
        let description = self.descriptions[key.0];
        let shared = &mut self.objects[description.object];
        shared.object.apply(description.end, now, call)
    }

    /// A bind, a listen or a connect of the socket of a description, if it is one.
    pub fn apply_naming(
        &mut self,
        key: DescId,
        call: &NamingCall<'_>,
    ) -> Result<(Answer, Raised), AllocError>
        requires live { IsSome (number_at self.old.keys key) }
        requires free { FindsFree self.old.objects call.now }
        ensures answer { IfOk result
            (λ r. (now : ℕ) → r.0 ≡ (thing_effect self.old key now call.now).0) }
        ensures raised { IfOk result
            (λ r. (now : ℕ) → r.1 ≡ (thing_effect self.old key now call.now).2) }
        ensures objects { OnOk result ((now : ℕ)
            → self.new ≡ record self.old { objects = objects_after self.old key now call.now }) }
        ensures err { OnErr result (self.new ≡ self.old) }
        ensures inline { takes_name call.now ≡ false → IsOk result }
        ensures last { OnErr result ((now : ℕ)
            → first (refusals_at (files_in self.old) (thing_number self.old key) now call.now)
            ≡ None) }
    {
        let description = self.descriptions[key.0];
        let at = description.object;
        let shared = &mut self.objects[at];
        take_gained(&mut self.taken, shared.object.gains(call), at)?;
        Ok(shared.object.apply_naming(call))
    }

    /// What the last call raised by letting connections go.
    pub fn losses(&self) -> &[Loss]
        ensures { result.now ≡ self.now.losses }
    {
        &self.losses
    }

    /// What the last call raised is forgotten.
    pub fn forget_losses(&mut self)
        ensures { self.new ≡ record self.old { losses = [] } }
    {
        self.losses.clear();
    }

    /// What always holds.
    pub fn known(&self)
        ensures { SoundThings self.now }
    {
        let _ = &self.descriptions;
    }

    /// Whether so many names can be added, which is refused exactly where 2^64 - 2 or more would then
    /// have been added, those that were dropped again too.
    pub fn fits(&self, additional: usize) -> Result<(), AllocError>
        ensures ok { OnOk result (self.now.named + additional + 2 < 2 ^ 64) }
        ensures err { OnErr result (2 ^ 64 ≤ self.now.named + additional + 2) }
    {
        match self.named.checked_add(additional) {
            Some(total) if total < usize::MAX - 1 => Ok(()),
            _ => Err(AllocError),
        }
    }

    /// A named description has one name more.
    pub fn add_name(&mut self, key: DescId)
        requires live { IsSome (number_at self.old.keys key) }
        requires named { 0 < count_at self.old.names (thing_number self.old key) }
        requires fits { self.old.named + 2 < 2 ^ 64 }
        ensures { self.new ≡ record self.old {
          names = more_at self.old.names
              (thing_number self.old key);
          named = self.old.named + 1;
        } }
    {
        let description = &mut self.descriptions[key.0];
        description.names += 1;
        self.named += 1;
    }

    /// A named description has one name less, and is dying where nothing names or holds it any more.
    pub fn drop_name(&mut self, key: DescId)
        requires live { IsSome (number_at self.old.keys key) }
        requires named { 0 < count_at self.old.names (thing_number self.old key) }
        ensures { self.new ≡ record self.old
            { names = less_at self.old.names (thing_number self.old key); dying = self.new.dying } }
    {
        let description = &mut self.descriptions[key.0];
        description.names -= 1;
        let left = *description;
        if left.is_unused() {
            self.dying.push_reserved(Dying {
                key,
                number: left.number,
            });
        }
    }

    /// A description of an instance that isn't dying is held once more. An `AllocError`, which comes only where it is
    /// held 2^64 - 1 times, leaves everything.
    pub fn hold(&mut self, key: DescId) -> Result<(), AllocError>
        requires live { IsSome (number_at self.old.keys key) }
        requires used { is_among self.old.dying (thing_number self.old key) ≡ false }
        requires instance { is_instance (content_of (files_in self.old) (thing_number self.old key))
            ≡ true }
        ensures ok { OnOk result
            (self.new ≡ record self.old
            { holds = more_at self.old.holds (thing_number self.old key) }) }
        ensures err { OnErr result (self.new ≡ self.old) }
        ensures room { count_at self.old.holds (thing_number self.old key) + 1 < 2 ^ 64
            → IsOk result }
    {
        if self.descriptions[key.0].holds == usize::MAX {
            return Err(AllocError);
        }
        let description = &mut self.descriptions[key.0];
        description.holds += 1;
        Ok(())
    }

    /// A description that is held is held once less, and is dying where nothing names or holds it any more.
    pub fn release(&mut self, key: DescId)
        requires live { IsSome (number_at self.old.keys key) }
        requires held { 0 < count_at self.old.holds (thing_number self.old key) }
        ensures { self.new ≡ record self.old
            { holds = less_at self.old.holds (thing_number self.old key); dying = self.new.dying } }
    {
        let description = &mut self.descriptions[key.0];
        description.holds -= 1;
        let left = *description;
        if left.is_unused() {
            self.dying.push_reserved(Dying {
                key,
                number: left.number,
            });
        }
    }

    /// Ends one of the descriptions that are dying: its end of the object closes, and the object goes
    /// with its last description.
    pub fn take_dead(&mut self) -> Option<Dead>
        ensures none { IfNone result ((self.new ≡ self.old) × (self.old.dying ≡ [])) }
        ensures some { IfSome result (λ dead. Dies self.old self.new dead) }
    {
        let last = self.dying.pop()?;
        let description = self.descriptions.remove(last.key.0);
        let (raised, other, name) = close(&mut self.objects, description.object, description.end);
        free_name(&mut self.taken, name);
        Some(Dead {
            desc: last.key,
            end: description.end,
            other,
            raised,
        })
    }
}
