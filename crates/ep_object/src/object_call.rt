//! What a call asks of an object.
ghost use Rattle.std.specs.Prelude.{◌≡◌, Some, true};
ghost use Rattle.ep_object.specs.Asked.{is_naming, naming_call, plain_call};
ghost use Rattle.ep_object.specs.Memory.{asked_of, is_peek};
ghost use Rattle.ep_object.specs.Naming.{NamesNobody};

use ep_base::{Call, Fd, Hearing, Name};
use std::marker::Model;

/// What a call asks of the object that its descriptor names, unless its socket may get a name by it (`NamingCall`): a
/// read, a write, what only sockets answer (a peek, a shutdown, the error that waits, a name), or to set a timer or to
/// ask it. It borrows the call, so taking one apart copies nothing.
#[derive(Drop)]
pub struct ObjectCall<'a> {
    pub(crate) call: &'a Call,
}

impl<'a> Model for ObjectCall<'a> {
    ghost use Rattle.std.specs.Prelude.{IsSome};
    ghost use Rattle.ep_machine.specs.Objects.{ObjectCall as OnObject};
    ghost use Rattle.ep_object.specs.Asked.{plain_call};

    ghost Value = { OnObject };

    ghost invariant = { λ it. IsSome (plain_call it.call.now) };

    ghost use Rattle.ep_object.specs.Asked.{asked_in};

    ghost view = { λ it. asked_in (plain_call it.call.now) };
}

impl<'a> ObjectCall<'a> {
    /// The descriptor on whose object a call is, and what it asks of that object. `None` of a call that is on none (one
    /// on registrations, a wait, or one on the tables alone), and of one by which a socket may get a name.
    #[inline(always)]
    pub fn of(call: &'a Call) -> Option<(Fd, ObjectCall<'a>)>
        ensures { result ≡ plain_call call.now }
    {
        let fd = match *call {
            Call::Read { fd, .. }
            | Call::Write { fd, .. }
            | Call::Peek { fd, .. }
            | Call::Shutdown { fd, .. }
            | Call::TakeError { fd }
            | Call::SocketName { fd, .. }
            | Call::SetTime { fd, .. }
            | Call::GetTime { fd } => fd,
            _ => return None,
        };
        Some((fd, ObjectCall { call }))
    }

    /// How many bytes it asks for: those of a read or a peek, else 0.
    pub fn most(&self) -> u32
        ensures { result ≡ asked_of self.now }
    {
        match *self.call {
            Call::Read { n, .. } => n,
            Call::Peek { n, .. } => n,
            _ => 0,
        }
    }

    /// By it no socket gets a name.
    #[tactic(auto, using(crate::proofs::NamingLemmas::plain_names_nobody))]
    pub fn known(&self)
        ensures { NamesNobody self.now }
    {
        let _ = &self.call;
    }

    /// Whether it is a peek, which only sockets answer.
    pub(crate) fn is_peek(&self) -> bool
        ensures { result ≡ is_peek self.now }
    {
        matches!(self.call, Call::Peek { .. })
    }
}

/// What a bind, a listen or a connect asks of the socket that its descriptor names, with the name that was found free
/// for it, and who hears it at the name by which it connects.
#[derive(Drop)]
pub struct NamingCall<'a> {
    pub(crate) call: &'a Call,
    pub(crate) found: Option<Name>,
    pub(crate) heard: Hearing,
}

impl<'a> Model for NamingCall<'a> {
    ghost use Rattle.std.specs.Prelude.{IsSome};
    ghost use Rattle.ep_machine.specs.Objects.{ObjectCall as OnObject};
    ghost use Rattle.ep_object.specs.Asked.{naming_call};

    ghost Value = { OnObject };

    ghost invariant = { λ it. IsSome (naming_call it.found it.heard it.call.now) };

    ghost use Rattle.ep_object.specs.Asked.{asked_in};

    ghost view = { λ it. asked_in (naming_call it.found it.heard it.call.now) };
}

impl<'a> NamingCall<'a> {
    /// Whether a call is a bind, a listen or a connect.
    #[inline(always)]
    pub fn is(call: &Call) -> bool
        ensures { result ≡ is_naming call.now }
    {
        matches!(
            call,
            Call::Bind { .. } | Call::Listen { .. } | Call::Connect { .. }
        )
    }

    /// The descriptor of a bind, a listen or a connect, and what that asks of its socket, where this name was found
    /// free, and `heard` tells who hears it at the name by which it connects.
    pub fn of(call: &'a Call, found: Option<Name>, heard: Hearing) -> (Fd, NamingCall<'a>)
        requires { is_naming call.now ≡ true }
        ensures { naming_call found heard call.now ≡ Some result }
    {
        let fd = match *call {
            Call::Bind { fd, .. } | Call::Listen { fd, .. } | Call::Connect { fd, .. } => fd,
            _ => unreachable!(),
        };
        (fd, NamingCall { call, found, heard })
    }
}
