//! How objects take part in connections: who hears a connect, who waits, and what becomes of either.
ghost use Rattle.std.specs.Prelude.{◌≡◌, ◌<◌, ◌^◌, IfOk, IfSome, OnErr, OnOk, Some, slice_get};
ghost use Rattle.ep_machine.specs.Connections.{accepted, pending_in, with_pending};
ghost use Rattle.ep_machine.specs.Objects.{heard_by, is_waiting};
ghost use Rattle.ep_object.specs.Connecting.{IsUnix, connection_of, without_nth};

use crate::object::{Kind, Object};
use ep_base::{Hearing, Name};
use ep_stream::SockPair;
use std::alloc::AllocError;

impl Object {
    /// Who hears a connect by the name of this object: nobody unless it listens.
    pub fn hearing(&self) -> Hearing
        ensures { result ≡ heard_by (Some self.now) }
    {
        match &self.kind {
            Kind::Listener(listener) => listener.hearing(),
            _ => Hearing::Nobody,
        }
    }

    /// Whether it is a connection whose second end waits to be accepted.
    pub fn is_waiting(&self) -> bool
        ensures { result ≡ is_waiting self.now }
    {
        match &self.kind {
            Kind::Pair(pair) => pair.is_waiting(),
            _ => false,
        }
    }

    /// What a Unix socket without a connection becomes that connects by this name: the first end of a connection whose
    /// second end waits. Each end can hold at most `capacity` bytes to be read. All memory that later calls need is
    /// taken here, but for the bytes that a read gives.
    pub fn connection(&self, capacity: u32, name: Name) -> Result<Object, AllocError>
        requires { IsUnix self.now }
        ensures { IfOk result (λ object. object ≡ connection_of capacity self.now name) }
    {
        let Kind::Idle(idle) = &self.kind else {
            unreachable!();
        };
        let pair = SockPair::connection(idle.allocator(), capacity, idle.name(), name)?;
        Ok(Object {
            kind: Kind::Pair(Box::new(idle.allocator(), pair)?),
        })
    }

    /// Notes that a connection is accepted. Any other object stays.
    pub fn accept(&mut self)
        ensures { self.new ≡ accepted self.old }
    {
        if let Kind::Pair(pair) = &mut self.kind {
            pair.accept();
        }
    }

    /// The connection of this number waits at a listener from now on, behind all others. An `AllocError` leaves it, and
    /// any other object stays.
    pub fn push_pending(&mut self, number: u64) -> Result<(), AllocError>
        ensures ok { OnOk result (self.new ≡ with_pending number self.old) }
        ensures err { OnErr result (self.new ≡ self.old) }
    {
        match &mut self.kind {
            Kind::Listener(listener) => listener.push(number),
            _ => Ok(()),
        }
    }

    /// The number of the connection before which so many others came to a listener; `None` if no more wait, and of any
    /// other object.
    pub fn pending(&self, index: usize) -> Option<u64>
        ensures number { result ≡ slice_get (pending_in self.now) index }
        ensures within { IfSome result (λ number. index < 2 ^ 63) }
    {
        match &self.kind {
            Kind::Listener(listener) => listener.nth(index),
            _ => None,
        }
    }

    /// The connection before which so many others came to a listener waits there no more. Any other object stays. The
    /// cost is constant for the first.
    pub fn remove_pending(&mut self, index: usize)
        ensures { self.new ≡ without_nth index self.old }
    {
        if let Kind::Listener(listener) = &mut self.kind {
            listener.remove(index);
        }
    }
}
