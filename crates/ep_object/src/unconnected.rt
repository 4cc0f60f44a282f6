//! Sockets without a connection that don't listen.
ghost use Rattle.std.specs.Prelude.{◌≡◌, ◌++◌, ◌∷◌, [], IfErr, IfOk, IfSome, None, Some, ℤ, false, not, true, unwrap_or};
ghost use Rattle.ep_base.specs.declared.answer.Answer.TheVariants.{Failed};
ghost use Rattle.ep_base.specs.declared.errno.Errno.TheVariants.{Econnaborted};
ghost use Rattle.ep_base.specs.declared.socket.Family.TheVariants.{Tcp, Unix};
ghost use Rattle.ep_machine.specs.Bits.{nothing};
ghost use Rattle.ep_machine.specs.Effect.{attempt, first};
ghost use Rattle.ep_machine.specs.Listening.{idle_listen_refusals};
ghost use Rattle.ep_machine.specs.Objects.{idle, listen, listener, listening};
ghost use Rattle.ep_machine.specs.Sockets.{is_tcp};
ghost use Rattle.ep_machine.specs.Unconnected.{connect_refusals_of, family_refusals, idle_bind, idle_bind_refusals};
ghost use Rattle.ep_machine.specs.Unconnected.{idle_connect, idle_connect_refusals, idle_present, idle_read};
ghost use Rattle.ep_machine.specs.Unconnected.{idle_read_refusals, idle_take_error, idle_write, idle_write_refusals};
ghost use Rattle.ep_machine.specs.Unconnected.{is_nobody, name_or, new_idle, unheard_refusals, unread_error, unwritten_error};
ghost use Rattle.ep_object.specs.Naming.{Gains, GainsName};

use crate::listener::Listener;
use crate::refusal::{NOTHING, refused};
use ep_base::{Answer, Buffer, Bytes, Errno, Family, Hearing, Mask, Name, Space};
use ep_stream::Raised;
use std::alloc::Global;
use std::marker::Model;

/// What it shows that never tried to connect, or was told how that failed.
const FRESH: Mask = Mask(Mask::OUT.0 | Mask::HUP.0);

/// What it shows from a connect that failed on, beside ERR while the error waits.
const FAILED: Mask = Mask(FRESH.0 | Mask::IN.0 | Mask::RDHUP.0);

/// All five bits at its one end.
const ALL: Raised = Raised {
    first: Mask(FAILED.0 | Mask::ERR.0),
    second: Mask(0),
};

/// A socket of a family without a connection that doesn't listen: its name, whether its connect failed and no further
/// one has told so, and the error that waits to be taken. With it goes the allocator of the answers that it gives.
#[derive(Drop)]
pub(crate) struct Idle {
    alloc: Global,
    family: Family,
    name: Option<Name>,
    has_failed: bool,
    error: Option<Errno>,
}

impl Model for Idle {
    ghost use Rattle.ep_machine.specs.Unconnected.{Idle as Content};

    ghost Value = { Content };

    ghost view = { λ idle. record {
      family = idle.family;
      name = idle.name;
      has_failed = idle.has_failed;
      error = idle.error;
    } };
}

impl Idle {
    /// socket(2): one without a name.
    pub(crate) fn new(alloc: Global, family: Family) -> Idle
        ensures { result ≡ new_idle family }
    {
        Idle {
            alloc,
            family,
            name: None,
            has_failed: false,
            error: None,
        }
    }

    /// The allocator of what it becomes.
    pub(crate) fn allocator(&self) -> Global {
        self.alloc
    }

    /// The name that it is bound to, or was given.
    pub(crate) fn name(&self) -> Option<Name>
        ensures { result ≡ self.now.name }
    {
        self.name
    }

    /// The bits that hold now: OUT and HUP, since a connect failed IN and RDHUP too, and ERR while its error waits.
    pub(crate) fn present(&self) -> Mask
        ensures { result.0 ≡ idle_present self.now }
    {
        let shown = if self.has_failed { FAILED } else { FRESH };
        match self.error {
            Some(_) => Mask(shown.0 | Mask::ERR.0),
            None => shown,
        }
    }

    /// Takes the error that waits.
    fn take(&mut self) -> Option<Errno>
        ensures result { result ≡ self.old.error }
        ensures idle { self.new ≡ record self.old { error = None } }
    {
        let errno = self.error;
        self.error = None;
        errno
    }

    /// A read or a peek of `n` bytes. Of a byte or more: the family's refusal where no connect failed, then the error
    /// that waits, which is taken, then no bytes.
    pub(crate) fn read(&mut self, n: u32) -> Answer
        ensures { (result, self.new, nothing) ≡
            attempt (idle_read_refusals self.old n) self.old (idle_read self.old n) }
    {
        if n > 0 {
            if !self.has_failed {
                return Answer::Refused(unread(self.family));
            }
            if let Some(errno) = self.take() {
                return Answer::Failed(errno);
            }
        }
        Answer::Bytes(Bytes::empty(self.alloc))
    }

    /// A write of these bytes. Of a byte or more: the error that waits, which is taken, then the family's refusal.
    pub(crate) fn write(&mut self, bytes: &Buffer) -> Answer
        ensures { (result, self.new, nothing) ≡
            attempt (idle_write_refusals self.old bytes.now) self.old (idle_write self.old bytes.now) }
    {
        if bytes.is_empty() {
            return Answer::Num(0);
        }
        match self.take() {
            Some(errno) => Answer::Failed(errno),
            None => Answer::Refused(unwritten(self.family)),
        }
    }

    /// SO_ERROR: takes the error that waits, and answers its number, or 0.
    pub(crate) fn take_error(&mut self) -> Answer
        ensures { (result, self.new, nothing) ≡ idle_take_error self.old }
    {
        match self.take() {
            Some(errno) => Answer::Num(u64::from(errno.number())),
            None => Answer::Num(0),
        }
    }

    /// bind(2) by a name of this space, where this one was found free. Refused are a space that isn't the family's,
    /// with EINVAL one that has a name or whose connect failed, and with EADDRINUSE where no name was found.
    pub(crate) fn bind(&mut self, space: Space, found: Option<Name>) -> Answer
        ensures { (result, self.new, nothing) ≡
            attempt (idle_bind_refusals self.old space found) self.old (idle_bind self.old found) }
    {
        if let Some(errno) = misfit(self.family, space) {
            return Answer::Refused(errno);
        }
        if self.has_failed || self.name.is_some() {
            return Answer::Refused(Errno::Einval);
        }
        if found.is_none() {
            return Answer::Refused(Errno::Eaddrinuse);
        }
        self.name = found;
        Answer::Done
    }

    /// The name that a bind of it would give: the one that was found free, unless the bind is refused.
    pub(crate) fn gains_bound(&self, space: Space, found: Option<Name>) -> Option<Name>
        ensures gains { GainsName self.now (attempt (idle_bind_refusals self.now space found) self.now
            (idle_bind self.now found)).1 result }
        ensures found { IfSome result (λ name. found ≡ Some name) }
    {
        if misfit(self.family, space).is_some() || self.has_failed || self.name.is_some() {
            return None;
        }
        found
    }

    /// The name that a connect of it would give: of a fresh TCP socket without a name the one that was found free,
    /// unless the connect is refused.
    pub(crate) fn gains_connected(
        &self,
        space: Space,
        found: Option<Name>,
        heard: Hearing,
    ) -> Option<Name>
        ensures gains { GainsName self.now (attempt (idle_connect_refusals self.now space found heard) self.now
            (idle_connect self.now found)).1 result }
        ensures found { IfSome result (λ name. found ≡ Some name) }
    {
        if !is_tcp(self.family) || misfit(self.family, space).is_some() || is_somebody(heard) {
            return None;
        }
        if self.has_failed || self.name.is_some() {
            return None;
        }
        found
    }

    /// The name that a listen of it would give: of a fresh TCP socket without a name the one that was found free.
    pub(crate) fn gains_listening(&self, found: Option<Name>) -> Option<Name>
        ensures gains { (backlog : ℤ) → Gains (idle self.now) (attempt (idle_listen_refusals self.now found)
            (idle self.now) (listen (idle self.now) backlog found)).1 result }
        ensures found { IfSome result (λ name. found ≡ Some name) }
    {
        if !is_tcp(self.family) || self.has_failed || self.name.is_some() {
            return None;
        }
        found
    }

    /// listen(2), where this name was found free: what it becomes, or with what that is refused. Of Unix it needs a
    /// name of its own, and of TCP it gets one.
    pub(crate) fn to_listener(&self, backlog: i32, found: Option<Name>) -> Result<Listener, Errno>
        ensures ok { IfOk result (λ made. (first (idle_listen_refusals self.now found) ≡ None)
            × (listening self.now backlog (name_or self.now.name found) ≡ listener made)) }
        ensures err { IfErr result (λ errno. first (idle_listen_refusals self.now found) ≡ Some errno) }
    {
        if self.has_failed {
            return Err(Errno::Einval);
        }
        if !is_tcp(self.family) && self.name.is_none() {
            return Err(Errno::Einval);
        }
        match self.name.or(found) {
            Some(name) => Ok(Listener::new(self.alloc, self.family, name, backlog)),
            None => Err(Errno::Eaddrinuse),
        }
    }

    /// connect(2) by a name of this space, where this name was found free, and `heard` tells who listens at the name
    /// that is asked for. A Unix socket is refused: ECONNREFUSED if nobody does, EAGAIN if as many wait there as may,
    /// else EINVAL. A TCP socket that somebody hears is refused, too. Else it takes the name if it has none, and has
    /// failed when the call returns, which raises all five bits; one that failed is told its error, ECONNABORTED if
    /// that was taken, and is fresh again.
    pub(crate) fn connect(
        &mut self,
        space: Space,
        found: Option<Name>,
        heard: Hearing,
    ) -> (Answer, Raised)
        ensures { (result.0, self.new, result.1) ≡
            attempt (idle_connect_refusals self.old space found heard) self.old (idle_connect self.old found) }
    {
        if self.has_failed && is_tcp(self.family) {
            return (self.tell_failure(), NOTHING);
        }
        match self.family {
            Family::Unix => refused(unheard_or(space, heard, Errno::Einval)),
            Family::Tcp => self.fail_to_connect(space, found, heard),
        }
    }

    /// A connect of a TCP socket that failed: it is told so, and is fresh again.
    fn tell_failure(&mut self) -> Answer
        ensures answer { result ≡ Failed (unwrap_or self.old.error Econnaborted) }
        ensures idle { self.new ≡ record self.old { has_failed = false; error = None } }
    {
        let errno = self.take().unwrap_or(Errno::Econnaborted);
        self.has_failed = false;
        Answer::Failed(errno)
    }

    /// A connect of a TCP socket that is fresh: EAFNOSUPPORT by a name that is none of TCP, EADDRNOTAVAIL where it has
    /// no name and none was found, EINVAL where somebody listens.
    fn fail_to_connect(
        &mut self,
        space: Space,
        found: Option<Name>,
        heard: Hearing,
    ) -> (Answer, Raised)
        requires tcp { self.old.family ≡ Tcp }
        requires fresh { self.old.has_failed ≡ false }
        ensures { (result.0, self.new, result.1) ≡
            attempt (connect_refusals_of Tcp self.old space found heard) self.old (idle_connect self.old found) }
    {
        if let Some(errno) = misfit(Family::Tcp, space) {
            return refused(errno);
        }
        let name = self.name.or(found);
        if name.is_none() {
            return refused(Errno::Eaddrnotavail);
        }
        if is_somebody(heard) {
            return refused(Errno::Einval);
        }
        self.name = name;
        self.has_failed = true;
        self.error = Some(Errno::Econnrefused);
        (Answer::Connecting, ALL)
    }
}

/// Whether this is TCP.
fn is_tcp(family: Family) -> bool
    ensures { result ≡ is_tcp family }
{
    match family {
        Family::Tcp => true,
        Family::Unix => false,
    }
}

/// What a family answers a read where no connection ever was.
pub(crate) fn unread(family: Family) -> Errno
    ensures { result ≡ unread_error family }
{
    match family {
        Family::Tcp => Errno::Enotconn,
        Family::Unix => Errno::Einval,
    }
}

/// What a family answers a write where nothing goes.
pub(crate) fn unwritten(family: Family) -> Errno
    ensures { result ≡ unwritten_error family }
{
    match family {
        Family::Tcp => Errno::Epipe,
        Family::Unix => Errno::Enotconn,
    }
}

/// How a family refuses a name of a space that is not its own.
fn misfit(family: Family, space: Space) -> Option<Errno>
    ensures { result ≡ first (family_refusals family space) }
{
    match (family, space) {
        (Family::Tcp, Space::Local) => Some(Errno::Eafnosupport),
        (Family::Tcp, Space::V4 | Space::V6) => None,
        (Family::Unix, Space::Local) => None,
        (Family::Unix, Space::V4 | Space::V6) => Some(Errno::Einval),
    }
}

/// The same, and another refusal of a name of its own.
pub(crate) fn misfit_or(family: Family, space: Space, otherwise: Errno) -> Errno
    ensures { first (family_refusals family space ++ (true, otherwise) ∷ []) ≡ Some result }
{
    misfit(family, space).unwrap_or(otherwise)
}

/// How a connect of a Unix socket is refused: by a name of TCP, where nobody listens or as many wait there as may, and
/// else so.
pub(crate) fn unheard_or(space: Space, heard: Hearing, otherwise: Errno) -> Errno
    ensures { first (unheard_refusals space heard ++ (true, otherwise) ∷ []) ≡ Some result }
{
    let errno = match heard {
        Hearing::Nobody => Errno::Econnrefused,
        Hearing::Full => Errno::Eagain,
        Hearing::Somebody => otherwise,
    };
    misfit_or(Family::Unix, space, errno)
}

/// Whether somebody listens, whether one more may wait there or not.
fn is_somebody(heard: Hearing) -> bool
    ensures { result ≡ not (is_nobody heard) }
{
    match heard {
        Hearing::Nobody => false,
        Hearing::Full | Hearing::Somebody => true,
    }
}
