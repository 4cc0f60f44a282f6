//! Sockets that listen.
ghost use Rattle.std.specs.Prelude.{◌≡◌, ◌++◌, ◌<◌, ◌^◌, ◌∷◌, [], IfSome, OnErr, OnOk, Some, slice_get};
ghost use Rattle.std.specs.List.{remove};
ghost use Rattle.ep_base.specs.declared.answer.Answer.TheVariants.{Bytes, Num};
ghost use Rattle.ep_machine.specs.Bits.{nothing};
ghost use Rattle.ep_machine.specs.Effect.{attempt, first};
ghost use Rattle.ep_machine.specs.Listening.{backlog_of, hearing_at, listener_bind_refusals, listener_connect_refusals};
ghost use Rattle.ep_machine.specs.Listening.{listener_listen, listener_present, listener_read_refusals};
ghost use Rattle.ep_machine.specs.Listening.{listener_write_refusals, new_listener};

use crate::unconnected::{misfit_or, unheard_or, unread, unwritten};
use ep_base::{Answer, Buffer, Bytes, Errno, Family, Hearing, Mask, Name, Space};
use std::alloc::{AllocError, Global};
use std::collections::VecDeque;
use std::marker::Model;

/// The greatest backlog, as of Linux's net.core.somaxconn.
const GREATEST_BACKLOG: u32 = 4096;

/// A socket of a family that listens at its name, how many connections may wait there, less one, and the numbers of
/// those that came and weren't accepted. With it goes the allocator of the answers that it gives.
#[derive(Drop)]
pub(crate) struct Listener {
    alloc: Global,
    family: Family,
    name: Name,
    backlog: u32,
    pending: VecDeque<u64>,
}

impl Model for Listener {
    ghost use Rattle.ep_machine.specs.Listening.{Listener as Content};

    ghost Value = { Content };

    ghost view = { λ listener. record {
      family = listener.family;
      name = listener.name;
      backlog = listener.backlog;
      pending = listener.pending.items;
    } };
}

/// The backlog that is kept where this one is asked for.
fn backlog_of(backlog: i32) -> u32
    ensures { result ≡ backlog_of backlog }
{
    match u32::try_from(backlog) {
        Ok(backlog) => backlog.min(GREATEST_BACKLOG),
        Err(_) => GREATEST_BACKLOG,
    }
}

impl Listener {
    /// listen(2) of a socket of this family and name.
    pub(crate) fn new(alloc: Global, family: Family, name: Name, backlog: i32) -> Listener
        ensures { result ≡ new_listener family name backlog }
    {
        Listener {
            alloc,
            family,
            name,
            backlog: backlog_of(backlog),
            pending: VecDeque::new(alloc),
        }
    }

    /// The name at which it listens.
    pub(crate) fn name(&self) -> Name
        ensures { result ≡ self.now.name }
    {
        self.name
    }

    /// The bits that hold: IN while a connection waits.
    pub(crate) fn present(&self) -> Mask
        ensures { result.0 ≡ listener_present self.now }
    {
        if self.pending.is_empty() {
            Mask(0)
        } else {
            Mask::IN
        }
    }

    /// Whether one more connection may wait here: as many as the backlog and one do.
    pub(crate) fn hearing(&self) -> Hearing
        ensures { result ≡ hearing_at self.now }
    {
        if self.pending.len() > self.backlog as usize {
            Hearing::Full
        } else {
            Hearing::Somebody
        }
    }

    /// The connection of this number comes, and waits behind all others. An `AllocError` leaves the listener.
    pub(crate) fn push(&mut self, number: u64) -> Result<(), AllocError>
        ensures ok { OnOk result
            (self.new ≡ record self.old { pending = self.old.pending ++ number ∷ [] }) }
        ensures err { OnErr result (self.new ≡ self.old) }
    {
        self.pending.reserve(1)?;
        self.pending.push_back_reserved(number);
        Ok(())
    }

    /// The number of the connection before which so many others came.
    pub(crate) fn nth(&self, index: usize) -> Option<u64>
        ensures number { result ≡ slice_get self.now.pending index }
        ensures within { IfSome result (λ number. index < 2 ^ 63) }
    {
        self.pending.get(index).copied()
    }

    /// The connection before which so many others came waits here no more.
    pub(crate) fn remove(&mut self, index: usize)
        ensures { self.new ≡ record self.old { pending = remove self.old.pending index } }
    {
        self.pending.remove(index);
    }

    /// listen(2) once more.
    pub(crate) fn listen(&mut self, backlog: i32)
        ensures { self.new ≡ listener_listen self.old backlog }
    {
        self.backlog = backlog_of(backlog);
    }

    /// A read or a peek of `n` bytes: the family's refusal, unless it is of none.
    pub(crate) fn read(&self, n: u32) -> Answer
        ensures { (result, self.now, nothing)
            ≡ attempt (listener_read_refusals self.now n) self.now (Bytes [], self.now, nothing) }
    {
        if n > 0 {
            return Answer::Refused(unread(self.family));
        }
        Answer::Bytes(Bytes::empty(self.alloc))
    }

    /// A write of these bytes: the family's refusal, unless there are none.
    pub(crate) fn write(&self, bytes: &Buffer) -> Answer
        ensures { (result, self.now, nothing)
            ≡ attempt (listener_write_refusals self.now bytes.now) self.now (Num 0, self.now, nothing) }
    {
        if bytes.is_empty() {
            return Answer::Num(0);
        }
        Answer::Refused(unwritten(self.family))
    }

    /// How bind(2) by a name of this space is refused.
    pub(crate) fn refuses_bind(&self, space: Space) -> Errno
        ensures { first (listener_bind_refusals self.now space) ≡ Some result }
    {
        misfit_or(self.family, space, Errno::Einval)
    }

    /// How connect(2) by a name of this space is refused, where `heard` tells who listens at that name.
    pub(crate) fn refuses_connect(&self, space: Space, heard: Hearing) -> Errno
        ensures { first (listener_connect_refusals self.now.family space heard) ≡ Some result }
    {
        match self.family {
            Family::Tcp => Errno::Eisconn,
            Family::Unix => unheard_or(space, heard, Errno::Einval),
        }
    }
}
