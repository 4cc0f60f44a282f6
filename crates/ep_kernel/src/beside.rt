//! What stands beside the parts: the ready lists, the hopes, and what the kernel notes in the course of an event.
ghost use Rattle.std.specs.Prelude.{◌≡◌, ◌==◌, [], IsSome, None, OnErr, OnOk, false, true};
ghost use Rattle.ep_interest.specs.Registrations.{entry_under};
ghost use Rattle.ep_kernel.specs.Beside.{Alike, Both, Each, HasRoomFor, KeepsRest, Widens};
ghost use Rattle.ep_kernel.specs.Control.{Settles};
ghost use Rattle.ep_kernel.specs.Places.{LosesPlaces};
ghost use Rattle.ep_kernel.specs.Push.{Gains};
ghost use Rattle.ep_ready.specs.ReadyLists.{GainsPlace, LosesPlace, Same, empty, instance_at};

use crate::asked::Asked;
use ep_base::{DescId, EntryId, Mask};
use ep_calls::{Named, Raising, Reportable};
use ep_choice::Choice;
use ep_interest::Interest;
use ep_ready::ReadyLists;
use ep_walk::Walk;
use std::alloc::{AllocError, Global};

/// What stands beside the parts. The ready lists and the hopes have a place for each registration, and what comes to
/// the one or goes from it does so with the other. Between two events the answers and the instances reached say
/// nothing, but they have room for the next event.
#[derive(Drop)]
pub struct Beside {
    /// The ready lists.
    pub lists: ReadyLists,
    /// The answers of instances, and the hopes.
    pub asked: Asked,
    /// The instances that IN reached.
    pub reached: Walk<Global>,
    /// What chooses among exclusive registrations.
    pub choice: Choice,
    /// What a wait chose. It says nothing once the wait is over, but keeps its room for the next one.
    pub chosen: Vec<Reportable>,
}

/// Takes the place of a registration away, if it has one.
fn drop_one(lists: &mut ReadyLists, id: EntryId)
    ensures { LosesPlaces (λ k. k == id.0) lists.old lists.new }
{
    lists.known();
    if lists.has_place(id) {
        lists.drop_place(id);
    }
}

/// Takes a place away whose registration is gone. One that is left comes to the end of its list, if it does not stand
/// there, where IN was raised at its instance.
fn settle_one(interest: &Interest, lists: &mut ReadyLists, id: EntryId, raising: Raising)
    requires { IsSome (instance_at lists.old id) }
    ensures { Settles id (entry_under interest.now id) raising lists.old lists.new }
{
    lists.known();
    let Some(_) = interest.get(id) else {
        lists.drop_place(id);
        return;
    };
    if let Raising::Instance { .. } = raising {
        lists.push_back(id);
    }
}

impl Beside {
    /// No lists, no answers, no hopes, nothing reached, and room for none, which takes no memory.
    pub fn new(alloc: Global) -> Beside
        ensures places { Both (λ l. l ≡ empty) result }
        ensures unlost { result.choice.lost.reached ≡ [] }
    {
        Beside {
            lists: ReadyLists::new(alloc),
            asked: Asked::new(alloc),
            reached: Walk::new(alloc),
            choice: Choice::new(alloc),
            chosen: Vec::new(alloc),
        }
    }

    /// Makes room for what is noted of a registration of these two under a key, in constant time if there is room. An
    /// `Err` is want of memory. The lists and the hopes stay, and there is no less room than before.
    fn make_room(&mut self, named: Named, mask: Mask, id: EntryId) -> Result<(), AllocError>
        ensures stay { Alike (λ l m. m ≡ l) self.old self.new }
        ensures widens { Widens self.old self.new }
        ensures room { OnOk result (HasRoomFor self.new named mask id.0) }
    {
        self.asked.make_room(named.instance)?;
        self.choice.make_room(named, mask, id)?;
        self.reached.make_room(named.instance.0)
    }

    /// Makes the places of a registration, on the lists and among the hopes. An `Err` is want of memory and leaves
    /// both.
    fn make_places(&mut self, instance: DescId, id: EntryId) -> Result<(), AllocError>
        requires free { Both (λ l. instance_at l id ≡ None) self.old }
        ensures made { OnOk result
            (Alike (λ l m. GainsPlace l m instance.0 id) self.old self.new) }
        ensures refused { OnErr result (Alike Same self.old self.new) }
        ensures rest { KeepsRest self.old self.new }
    {
        self.asked.hopes.known();
        self.asked.hopes.make_place(instance, id)?;
        match self.lists.make_place(instance, id) {
            Ok(()) => Ok(()),
            Err(error) => {
                self.asked.hopes.drop_place(id);
                Err(error)
            }
        }
    }

    /// Makes room for what an ADD keeps: the places of its registration, and what is noted of it. `false` is want of
    /// memory, and leaves the lists and the hopes.
    pub fn make(&mut self, named: Named, mask: Mask, id: EntryId) -> bool
        requires free { Both (λ l. instance_at l id ≡ None) self.old }
        ensures made { result ≡ true
            → Alike (λ l m. GainsPlace l m named.instance.0 id) self.old self.new }
        ensures refused { result ≡ false → Alike Same self.old self.new }
        ensures widens { Widens self.old self.new }
        ensures room { result ≡ true → HasRoomFor self.new named mask id.0 }
    {
        if self.make_room(named, mask, id).is_err() {
            return false;
        }
        self.make_places(named.instance, id).is_ok()
    }

    /// Takes the places of a registration away again, which it has.
    pub fn unmake(&mut self, id: EntryId)
        requires { Both (λ l. IsSome (instance_at l id)) self.old }
        ensures { Each (λ l m. LosesPlace l m id) self.old self.new }
    {
        self.lists.drop_place(id);
        self.asked.hopes.drop_place(id);
    }

    /// Takes the places of a registration away whose registration is gone, and puts one that is left at the end of its
    /// list and among the hopes, where IN was raised at its instance.
    pub fn settle(&mut self, interest: &Interest, id: EntryId, raising: Raising)
        requires { Both (λ l. IsSome (instance_at l id)) self.old }
        ensures { Each (Settles id (entry_under interest.now id) raising) self.old self.new }
    {
        // A copy, since the prover takes what is passed on as moved.
        let raised = raising;
        settle_one(interest, &mut self.lists, id, raising);
        settle_one(interest, &mut self.asked.hopes, id, raised);
    }

    /// Puts a registration at the end of its list and among the hopes, where it does not stand there.
    pub fn join(&mut self, id: EntryId)
        requires { Both (λ l. IsSome (instance_at l id)) self.old }
        ensures { Each (Gains (λ k. k == id.0)) self.old self.new }
    {
        self.lists.known();
        self.asked.hopes.known();
        self.lists.push_back(id);
        self.asked.hopes.push_back(id);
    }

    /// Takes the places of a registration away, on the lists and among the hopes, if it has them.
    pub fn drop_places(&mut self, id: EntryId)
        ensures { Each (LosesPlaces (λ k. k == id.0)) self.old self.new }
    {
        drop_one(&mut self.lists, id);
        drop_one(&mut self.asked.hopes, id);
    }
}
