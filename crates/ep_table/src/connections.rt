//! Connections that wait at listeners, which are accepted, or let go with the last name of the listener.
ghost use Rattle.std.specs.Prelude.{◌≡◌, ◌∷◌, [], ℕ, IfNone, IfOk, IfSome, IsSome, None, OnErr, Some, slice_get, slice_set, true};
ghost use Rattle.ep_machine.specs.Connections.{first_waiting, pending_in, without_pending};
ghost use Rattle.ep_machine.specs.Files.{content_at, object_number, place_of};
ghost use Rattle.ep_machine.specs.Objects.{is_waiting};
ghost use Rattle.ep_names.specs.Numbers.{owner_at};
ghost use Rattle.ep_table.specs.Accepting.{Accepts, Describes, FindsFirst};
ghost use Rattle.ep_table.specs.Connected.{WaitsAt};
ghost use Rattle.ep_table.specs.LettingGo.{LetsGo, pending_of};
ghost use Rattle.ep_table.specs.Value.{content_of, files_in, number_at, thing_number};

use crate::store::{Store, close, reserve_described};
use crate::waiting::Waiting;
use crate::words::{Description, Found, Loss, Shared};
use ep_base::{DescId, End};
use slab::Slab;
use std::alloc::{AllocError, Allocator};

/// The key of the connection of a number, if it waits to be accepted.
fn waiting_at<A: Allocator>(
    objects: &Slab<Shared, A>,
    waiting: &Waiting<A>,
    number: u64,
) -> Option<usize>
    ensures waits { IfSome result (λ key. WaitsAt objects.now.slots number key) }
    ensures kept { IfSome result (λ key. owner_at waiting.now number ≡ Some key) }
    ensures none { IfNone result ((key : ℕ) → WaitsAt objects.now.slots number key
        → owner_at waiting.now number ≡ Some key → ⊥) }
{
    let key = waiting.key(number)?;
    let shared = objects.get(key)?;
    if shared.number == number && shared.object.is_waiting() {
        return Some(key);
    }
    None
}

impl<A: Allocator> Store<A> {
    /// Nobody will accept the connection of this number: its second end closes, if it waits.
    fn let_go_one(&mut self, number: u64)
        ensures { LetsGo self.old self.new (number ∷ []) }
    {
        let Some(at) = waiting_at(&self.objects, &self.waiting, number) else {
            return;
        };
        self.waiting.remove(number);
        let (raised, first, _) = close(&mut self.objects, at, End::Second);
        if let Some(desc) = first {
            self.losses.push_reserved(Loss {
                desc,
                raised: raised.first,
            });
        }
    }

    /// Whether the connection of this number waits to be accepted. An object of any other number doesn't.
    fn is_waiting(&self, number: u64) -> bool
        ensures { result ≡ is_waiting (content_at (files_in self.now) number) }
    {
        waiting_at(&self.objects, &self.waiting, number).is_some()
    }

    /// The first of the connections that wait at the object of a description.
    pub fn first_waiting(&self, key: DescId) -> Option<Found>
        requires { IsSome (number_at self.now.keys key) }
        ensures listener { IfSome result (λ found. found.listener ≡ key) }
        ensures some { IfSome result (λ found. FindsFirst (files_in self.now)
            (pending_in (content_of (files_in self.now) (thing_number self.now key))) found) }
        ensures none { IfNone result (first_waiting (files_in self.now)
            (pending_in (content_of (files_in self.now) (thing_number self.now key))) ≡ None) }
    {
        let mut index = 0;
        while let Some(number) = self.object(key).pending(index) {
            if self.is_waiting(number) {
                return Some(Found {
                    listener: key,
                    index,
                    number,
                });
            }
            index += 1;
        }
        None
    }

    /// Another description, of the second end of a connection that waits, which is accepted by that. An `AllocError`,
    /// which comes for want of memory or if 2^64 - 1 descriptions were made, leaves all.
    fn describe_second(&mut self, number: u64) -> Result<DescId, AllocError>
        requires { is_waiting (content_at (files_in self.old) number) ≡ true }
        ensures ok { IfOk result (λ key. Describes self.old self.new number key) }
        ensures err { OnErr result (self.new ≡ self.old) }
    {
        let Some(at) = waiting_at(&self.objects, &self.waiting, number) else {
            unreachable!();
        };
        if self.described == u64::MAX {
            return Err(AllocError);
        }
        reserve_described(&mut self.descriptions, &mut self.dying, 1)?;
        let key = self.descriptions.insert_reserved(Description {
            number: self.described,
            object_number: number,
            object: at,
            end: End::Second,
            names: 1,
            holds: 0,
        });
        let shared = &mut self.objects[at];
        shared.object.accept();
        shared.second = Some(DescId(key));
        self.waiting.remove(number);
        self.described += 1;
        self.losses.clear();
        Ok(DescId(key))
    }

    /// A connection waits at the listener no more, before which so many others came.
    fn remove_pending(&mut self, key: DescId, index: usize)
        requires { IsSome (number_at self.old.keys key) }
        ensures { (number : ℕ) → slice_get
            (pending_in (content_of (files_in self.old) (thing_number self.old key))) index
            ≡ Some number → self.new ≡ record self.old {
              objects = slice_set self.old.objects
                  (object_number (place_of (files_in self.old) (thing_number self.old key)))
                  (Some (without_pending number
                  (content_of (files_in self.old) (thing_number self.old key))));
            } }
    {
        let at = self.descriptions[key.0].object;
        self.objects[at].object.remove_pending(index);
    }

    /// accept(2) of the connection that was found. An `AllocError` is that of `describe_second`.
    pub fn accept(&mut self, found: Found) -> Result<DescId, AllocError>
        requires live { IsSome (number_at self.old.keys found.listener) }
        requires found { FindsFirst (files_in self.old) (pending_in
            (content_of (files_in self.old) (thing_number self.old found.listener))) found }
        ensures ok { IfOk result
            (λ key. Accepts self.old self.new found.listener found.number key) }
        ensures err { OnErr result (self.new ≡ self.old) }
    {
        // (only the prover needs it)
        self.known();
        let key = self.describe_second(found.number)?;
        self.remove_pending(found.listener, found.index);
        Ok(key)
    }

    /// Lets go each connection that waits at the object of a description.
    fn let_go_at(&mut self, key: DescId)
        requires { IsSome (number_at self.old.keys key) }
        ensures { LetsGo self.old self.new
            (pending_in (content_of (files_in self.old) (thing_number self.old key))) }
    {
        let mut index = 0;
        while let Some(number) = self.object(key).pending(index) {
            self.let_go_one(number);
            index += 1;
        }
    }

    /// Lets go each connection that waits at the object of a description that nothing names or holds. What that raises
    /// is kept in place of what was raised so before.
    pub fn let_go(&mut self)
        ensures { LetsGo (record self.old { losses = [] }) self.new
            (pending_of (files_in self.old) self.old.dying) }
    {
        self.losses.clear();
        let mut left = self.dying.len();
        while left > 0 {
            left -= 1;
            let key = self.dying[left].key;
            self.let_go_at(key);
        }
    }
}
