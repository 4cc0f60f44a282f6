//! Objects of each kind.
ghost use Rattle.std.specs.Prelude.{◌≡◌, ◌≤◌, ◌∷◌, [], ℕ, Bool, min, not, IfOk, IfSome, Some, IsOk, OnErr};
ghost use Rattle.ep_machine.specs.Bits.{raises};
ghost use Rattle.ep_machine.specs.Effect.{attempt};
ghost use Rattle.ep_machine.specs.Objects.{advance, bind, bind_refusals, close_end, connect, connect_refusals, counter};
ghost use Rattle.ep_machine.specs.Objects.{gettime, idle, instance, is_instance, is_listener, is_plain, is_socket};
ghost use Rattle.ep_machine.specs.Objects.{is_timer, listen, listen_refusals, name_in, name_of, name_refusals};
ghost use Rattle.ep_machine.specs.Objects.{object_effect, object_present, object_refusals, of_socket, pair, peek};
ghost use Rattle.ep_machine.specs.Objects.{peeks, pipe, plain, read, read_refusals, reads, settime, shutdown};
ghost use Rattle.ep_machine.specs.Objects.{shutdown_refusals, take_error, timer, write, write_refusals};
ghost use Rattle.ep_machine.specs.Pipe.{new_pipe};
ghost use Rattle.ep_machine.specs.Sockets.{new_pair};
ghost use Rattle.ep_machine.specs.Timer.{new_timer, timer_set_refusals};
ghost use Rattle.ep_machine.specs.Unconnected.{new_idle};
ghost use Rattle.ep_object.specs.Asked.{IsOfSocket, found_in};
ghost use Rattle.ep_object.specs.Memory.{asked_of, object_waiting};
ghost use Rattle.ep_object.specs.Naming.{Gains, called};
ghost use Rattle.ep_object.specs.Next.{IsNextMoment};

use crate::listener::Listener;
use crate::object_call::{NamingCall, ObjectCall};
use crate::refusal::{NOTHING, refused};
use crate::unconnected::{Idle, misfit_or, unheard_or};
use ep_base::{
    Answer, Buffer, Bytes, Call, Errno, Family, Hearing, How, Mask, Moment, Name, Space, Span,
};
use ep_counters::{EventFd, Timer};
use ep_stream::{End, Pipe, Raised, SockPair};
use std::alloc::{AllocError, Global};
use std::marker::Model;

/// What an object is.
#[derive(Drop)]
pub(crate) enum Kind {
    /// A file that can't be polled, with the allocator of the answers that it gives.
    Plain(Global),
    Pipe(Pipe),
    /// In a box, so that other objects are smaller.
    Pair(Box<SockPair>),
    /// A socket without a connection that doesn't listen.
    Idle(Idle),
    Listener(Listener),
    Counter(EventFd),
    Timer(Timer),
    /// An epoll instance, whose registrations are kept elsewhere.
    Instance,
}

/// An object, which its ends' open file descriptions share. A pipe and a socket pair have two ends,
/// any other object has the first alone.
#[derive(Drop)]
pub struct Object {
    pub(crate) kind: Kind,
}

impl Model for Object {
    ghost use Rattle.ep_machine.specs.Objects.{Object as Content};

    ghost Value = { Content };

    ghost use Rattle.ep_object.specs.Content.{content_of};

    ghost view = { λ object. content_of object.kind };
}

impl Object {
    /// A plain file: a read gives no bytes, and a write keeps none.
    pub fn plain(alloc: Global) -> Object
        ensures { result ≡ plain }
    {
        Object {
            kind: Kind::Plain(alloc),
        }
    }

    /// pipe(2): an empty pipe with both ends, which holds at most `capacity` bytes. All memory that
    /// later calls need is taken here, but for the bytes that a read gives.
    pub fn pipe(alloc: Global, capacity: u32) -> Result<Object, AllocError>
        ensures { IfOk result (λ object. object ≡ pipe (new_pipe capacity)) }
    {
        Ok(Object {
            kind: Kind::Pipe(Pipe::new(alloc, capacity)?),
        })
    }

    /// socketpair(2): two open ends, each of which can hold at most `capacity` bytes to be read. All
    /// memory that later calls need is taken here, but for the bytes that a read gives.
    pub fn pair(alloc: Global, capacity: u32) -> Result<Object, AllocError>
        ensures { IfOk result (λ object. object ≡ pair (new_pair capacity)) }
    {
        Ok(Object {
            kind: Kind::Pair(Box::new(alloc, SockPair::new(alloc, capacity)?)?),
        })
    }

    /// socket(2): a socket of this family without a name and without a connection.
    pub fn socket(alloc: Global, family: Family) -> Object
        ensures { result ≡ idle (new_idle family) }
    {
        Object {
            kind: Kind::Idle(Idle::new(alloc, family)),
        }
    }

    /// eventfd(2): a counter that starts at `init`. With `semaphore`, EFD_SEMAPHORE, a read takes 1 from it.
    pub fn counter(alloc: Global, init: u32, semaphore: bool) -> Object
        ensures { result ≡ counter (record { count = init; is_semaphore = semaphore }) }
    {
        Object {
            kind: Kind::Counter(EventFd::new(alloc, init, semaphore)),
        }
    }

    /// timerfd_create(2): a disarmed timer, whose interval is 0.
    pub fn timer(alloc: Global) -> Object
        ensures { result ≡ timer new_timer }
    {
        Object {
            kind: Kind::Timer(Timer::new(alloc)),
        }
    }

    /// An epoll instance.
    pub fn instance() -> Object
        ensures { result ≡ instance }
    {
        Object {
            kind: Kind::Instance,
        }
    }

    /// Whether it is a plain file, which epoll_ctl(2) refuses with EPERM.
    pub fn is_plain(&self) -> bool
        ensures { result ≡ is_plain self.now }
    {
        matches!(self.kind, Kind::Plain(_))
    }

    /// Whether it is an epoll instance.
    pub fn is_instance(&self) -> bool
        ensures { result ≡ is_instance self.now }
    {
        matches!(self.kind, Kind::Instance)
    }

    /// The name that it has and keeps from others: of a socket without a connection, once it is bound or was given one.
    /// A listener has one. Of a connection it is the one of its first end, until that closes.
    pub fn name(&self) -> Option<Name>
        ensures { result ≡ name_in self.now }
    {
        match &self.kind {
            Kind::Idle(idle) => idle.name(),
            Kind::Listener(listener) => Some(listener.name()),
            Kind::Pair(pair) => pair.kept_name(),
            _ => None,
        }
    }

    /// Whether it is a socket that listens.
    pub fn is_listener(&self) -> bool
        ensures { result ≡ is_listener self.now }
    {
        matches!(self.kind, Kind::Listener(_))
    }

    /// Whether it is a socket.
    pub fn is_socket(&self) -> bool
        ensures { result ≡ is_socket self.now }
    {
        matches!(self.kind, Kind::Pair(_) | Kind::Idle(_) | Kind::Listener(_))
    }

    /// The name that it has after this call and had not before.
    #[tactic(auto, using(crate::proofs::NamingLemmas::other_object))]
    pub fn gains(&self, call: &NamingCall<'_>) -> Option<Name>
        ensures gains { (end : End) (now : ℕ)
            → Gains self.now (called self.now end now call.now) result }
        ensures found { IfSome result (λ name. found_in call.now ≡ Some name) }
    {
        let Kind::Idle(idle) = &self.kind else {
            return None;
        };
        match *call.call {
            Call::Bind { name, .. } => idle.gains_bound(name.space, call.found),
            Call::Listen { .. } => idle.gains_listening(call.found),
            Call::Connect { name, .. } => idle.gains_connected(name.space, call.found, call.heard),
            _ => unreachable!(),
        }
    }

    /// The bits that hold at this end at the moment `now`, as poll(2) would report them. None hold of
    /// a plain file, nor of an instance, which is judged by its registrations.
    pub fn present(&self, end: End, now: Moment) -> Mask
        ensures { result.0 ≡ object_present self.now end now }
    {
        match &self.kind {
            Kind::Plain(_) | Kind::Instance => Mask(0),
            Kind::Pipe(pipe) => pipe.present(end),
            Kind::Pair(pair) => pair.present(end),
            Kind::Idle(idle) => idle.present(),
            Kind::Listener(listener) => listener.present(),
            Kind::Counter(counter) => counter.present(),
            Kind::Timer(timer) => timer.present(now),
        }
    }

    /// How many of the bytes that wait at this end a call could give: those at the first end of a pipe, but for a
    /// peek, and those at this end of a socket pair, else 0.
    pub fn waiting(&self, end: End, call: &ObjectCall<'_>) -> usize
        ensures { result ≡ object_waiting self.now end call.now }
    {
        match &self.kind {
            Kind::Pipe(_) if call.is_peek() => 0,
            Kind::Pipe(pipe) => pipe.waiting(end),
            Kind::Pair(pair) => pair.waiting(end),
            Kind::Plain(_)
            | Kind::Idle(_)
            | Kind::Listener(_)
            | Kind::Counter(_)
            | Kind::Timer(_)
            | Kind::Instance => 0,
        }
    }

    /// The first moment after `now` at which the clock raises IN: where a timer's unread expirations
    /// go from none to some. `None` where there is none, and of any other object.
    pub fn next(&self, now: Moment) -> Option<u64>
        ensures { IsNextMoment self.now now result }
    {
        match &self.kind {
            Kind::Timer(timer) => timer.next(now),
            _ => None,
        }
    }

    /// What the clock raises as it goes on from `old` to `new`: IN where a timer's unread expirations
    /// go from none to some, else nothing.
    pub fn advance(&self, old: Moment, new: Moment) -> Raised
        ensures { result ≡ raises (advance self.now old new) 0 }
    {
        match &self.kind {
            Kind::Timer(timer) => Raised {
                first: timer.advance(old, new),
                second: Mask(0),
            },
            _ => NOTHING,
        }
    }

    /// Notes that this end is closed for good, and gives what that raises at the other. An object with
    /// one end stays and raises nothing.
    pub fn close_end(&mut self, end: End) -> Raised
        ensures { (self.new, result) ≡ close_end self.old end }
    {
        match &mut self.kind {
            Kind::Pipe(pipe) => pipe.close_end(end),
            Kind::Pair(pair) => pair.close_end(end),
            Kind::Plain(_)
            | Kind::Idle(_)
            | Kind::Listener(_)
            | Kind::Counter(_)
            | Kind::Timer(_)
            | Kind::Instance => NOTHING,
        }
    }

    /// What a call on this end is answered at the moment `now`, and what it raises. A refusal leaves
    /// the object and raises nothing.
    ///
    /// - read(2) and write(2): EINVAL of an instance, and for a write of a timer; else as the kind's
    ///   own type says. A plain file gives no bytes and takes all.
    /// - recv(2) with MSG_PEEK, shutdown(2), SO_ERROR and names: ENOTSOCK of anything but a socket. A socket pair and a
    ///   connection answer as their own type says. A socket without a connection has ENOTCONN for a shutdown and a
    ///   peer's name.
    /// - timerfd_settime(2) and timerfd_gettime(2) answer the setting that the timer had: EINVAL of
    ///   anything but a timer, and for a `value` or `interval` above `LAST_MOMENT`.
    ///
    /// An `AllocError` leaves the object, and comes only from a read of a pipe, or a read or a peek of a socket pair,
    /// of more than 16 bytes where more than 16 wait.
    pub fn apply(
        &mut self,
        end: End,
        now: Moment,
        call: &ObjectCall<'_>,
    ) -> Result<(Answer, Raised), AllocError>
        ensures ok { IfOk result (λ r. (r.0, self.new, r.1) ≡
            attempt (object_refusals self.old end now call.now) self.old (object_effect self.old end now call.now)) }
        ensures err { OnErr result (self.new ≡ self.old) }
        ensures inline { min (asked_of call.now) (object_waiting self.old end call.now) ≤ 16 → IsOk result }
    {
        match *call.call {
            Call::Read { n, .. } => self.read(end, now, n),
            Call::Write { ref bytes, .. } => Ok(self.write(end, bytes)),
            Call::Peek { .. }
            | Call::Shutdown { .. }
            | Call::TakeError { .. }
            | Call::SocketName { .. } => self.apply_to_socket(end, call),
            Call::SetTime {
                absolute,
                value,
                interval,
                ..
            } => Ok(self.settime(now, absolute, value, interval)),
            Call::GetTime { .. } => Ok(self.gettime(now)),
            _ => unreachable!(),
        }
    }

    /// read(2) of at most `n` bytes at this end.
    fn read(&mut self, end: End, now: Moment, n: u32) -> Result<(Answer, Raised), AllocError>
        ensures ok { IfOk result (λ r. (r.0, self.new, r.1) ≡
            attempt (read_refusals self.old end n now) self.old (read self.old end n now)) }
        ensures err { OnErr result (self.new ≡ self.old) }
        ensures inline { min n (object_waiting self.old end (reads n)) ≤ 16 → IsOk result }
    {
        match &mut self.kind {
            Kind::Plain(alloc) => Ok((Answer::Bytes(Bytes::empty(*alloc)), NOTHING)),
            Kind::Pipe(pipe) => pipe.read(end, n),
            Kind::Pair(pair) => pair.read(end, n),
            Kind::Idle(idle) => Ok((idle.read(n), NOTHING)),
            Kind::Listener(listener) => Ok((listener.read(n), NOTHING)),
            Kind::Counter(counter) => Ok(counter.read(n)),
            Kind::Timer(timer) => Ok(timer.read(now, n)),
            Kind::Instance => Ok(refused(Errno::Einval)),
        }
    }

    /// write(2) of these bytes at this end.
    fn write(&mut self, end: End, bytes: &Buffer) -> (Answer, Raised)
        ensures { (result.0, self.new, result.1) ≡
            attempt (write_refusals self.old end bytes.now) self.old (write self.old end bytes.now) }
    {
        match &mut self.kind {
            Kind::Plain(_) => (Answer::Num(bytes.len() as u64), NOTHING),
            Kind::Pipe(pipe) => pipe.write(end, bytes),
            Kind::Pair(pair) => pair.write(end, bytes),
            Kind::Idle(idle) => (idle.write(bytes), NOTHING),
            Kind::Listener(listener) => (listener.write(bytes), NOTHING),
            Kind::Counter(counter) => counter.write(bytes),
            Kind::Timer(_) | Kind::Instance => refused(Errno::Einval),
        }
    }

    /// A call that only sockets answer. A call of its own would cost reads and writes more than its code does.
    #[inline(always)]
    fn apply_to_socket(
        &mut self,
        end: End,
        call: &ObjectCall<'_>,
    ) -> Result<(Answer, Raised), AllocError>
        requires { IsOfSocket call.now }
        ensures ok { IfOk result (λ r. (now : ℕ) → (r.0, self.new, r.1) ≡
            attempt (object_refusals self.old end now call.now) self.old (object_effect self.old end now call.now)) }
        ensures err { OnErr result (self.new ≡ self.old) }
        ensures inline { min (asked_of call.now) (object_waiting self.old end call.now) ≤ 16 → IsOk result }
    {
        match *call.call {
            Call::Peek { n, .. } => self.peek(end, n),
            Call::Shutdown { how, .. } => Ok(self.shutdown(end, how)),
            Call::TakeError { .. } => Ok(self.take_error(end)),
            Call::SocketName { peer, .. } => Ok(self.named(end, peer)),
            _ => unreachable!(),
        }
    }

    /// What a bind, a listen or a connect is answered, and what it raises: ENOTSOCK of anything but a socket. A refusal
    /// leaves the object and raises nothing.
    ///
    /// - bind(2): EAFNOSUPPORT (TCP) or EINVAL (Unix) by a name that is none of the family, EINVAL of a connection, of
    ///   a listener and of what has a name or failed to connect, EADDRINUSE where no name was found.
    /// - listen(2): EINVAL of a connection, of what failed to connect, and of a Unix socket without a name, EADDRINUSE
    ///   where no name was found.
    /// - connect(2): of a socket without a connection that doesn't listen as its own type says. Any other Unix socket
    ///   has EINVAL by a name of TCP, ECONNREFUSED where nobody listens, EAGAIN where as many wait as may, and then
    ///   EISCONN, a listener EINVAL. A TCP listener has EISCONN.
    pub fn apply_naming(&mut self, call: &NamingCall<'_>) -> (Answer, Raised)
        ensures { (end : End) (now : ℕ) → (result.0, self.new, result.1) ≡
            attempt (object_refusals self.old end now call.now) self.old (object_effect self.old end now call.now) }
    {
        match *call.call {
            Call::Bind { name, .. } => self.bind(name.space, call.found),
            Call::Listen { backlog, .. } => self.listen(backlog, call.found),
            Call::Connect { name, .. } => self.connect(name.space, call.found, call.heard),
            _ => unreachable!(),
        }
    }

    /// recv(2) with MSG_PEEK of at most `n` bytes at this end.
    fn peek(&mut self, end: End, n: u32) -> Result<(Answer, Raised), AllocError>
        ensures ok { IfOk result (λ r. (now : ℕ) → (r.0, self.new, r.1) ≡
            attempt (of_socket self.old (read_refusals self.old end n now)) self.old (peek self.old end n)) }
        ensures err { OnErr result (self.new ≡ self.old) }
        ensures inline { min n (object_waiting self.old end (peeks n)) ≤ 16 → IsOk result }
    {
        match &mut self.kind {
            Kind::Pair(pair) => pair.peek(end, n),
            Kind::Idle(idle) => Ok((idle.read(n), NOTHING)),
            Kind::Listener(listener) => Ok((listener.read(n), NOTHING)),
            _ => Ok(refused(Errno::Enotsock)),
        }
    }

    /// shutdown(2) of what `how` names at this end.
    fn shutdown(&mut self, end: End, how: How) -> (Answer, Raised)
        ensures { (result.0, self.new, result.1) ≡
            attempt (of_socket self.old (shutdown_refusals self.old end)) self.old (shutdown self.old end how) }
    {
        match &mut self.kind {
            Kind::Pair(pair) => pair.shutdown(end, how),
            Kind::Idle(_) | Kind::Listener(_) => refused(Errno::Enotconn),
            _ => refused(Errno::Enotsock),
        }
    }

    /// getsockopt(2) with SO_ERROR at this end.
    fn take_error(&mut self, end: End) -> (Answer, Raised)
        ensures { (result.0, self.new, result.1) ≡
            attempt (of_socket self.old []) self.old (take_error self.old end) }
    {
        match &mut self.kind {
            Kind::Pair(pair) => (pair.take_error(end), NOTHING),
            Kind::Idle(idle) => (idle.take_error(), NOTHING),
            Kind::Listener(_) => (Answer::Num(0), NOTHING),
            _ => refused(Errno::Enotsock),
        }
    }

    /// getsockname(2), or getpeername(2) with `of_peer`, at this end.
    fn named(&self, end: End, of_peer: bool) -> (Answer, Raised)
        ensures { (result.0, self.now, result.1) ≡
            attempt (of_socket self.now (name_refusals self.now end of_peer)) self.now (name_of self.now end of_peer) }
    {
        match &self.kind {
            Kind::Pair(pair) => (Answer::Named(pair.name(end, of_peer)), NOTHING),
            Kind::Idle(_) | Kind::Listener(_) if of_peer => refused(Errno::Enotconn),
            Kind::Idle(idle) => (Answer::Named(idle.name()), NOTHING),
            Kind::Listener(listener) => (Answer::Named(Some(listener.name())), NOTHING),
            _ => refused(Errno::Enotsock),
        }
    }

    /// bind(2) by a name of this space, where this one was found free.
    fn bind(&mut self, space: Space, found: Option<Name>) -> (Answer, Raised)
        ensures { (result.0, self.new, result.1) ≡
            attempt (of_socket self.old (bind_refusals self.old space found)) self.old (bind self.old found) }
    {
        match &mut self.kind {
            Kind::Pair(pair) => refused(misfit_or(pair.family(), space, Errno::Einval)),
            Kind::Idle(idle) => (idle.bind(space, found), NOTHING),
            Kind::Listener(listener) => refused(listener.refuses_bind(space)),
            _ => refused(Errno::Enotsock),
        }
    }

    /// listen(2), where this name was found free.
    fn listen(&mut self, backlog: i32, found: Option<Name>) -> (Answer, Raised)
        ensures { (result.0, self.new, result.1) ≡
            attempt (of_socket self.old (listen_refusals self.old found)) self.old (listen self.old backlog found) }
    {
        match &mut self.kind {
            Kind::Pair(_) => refused(Errno::Einval),
            Kind::Idle(idle) => match idle.to_listener(backlog, found) {
                Ok(listener) => {
                    self.kind = Kind::Listener(listener);
                    (Answer::Done, NOTHING)
                }
                Err(errno) => refused(errno),
            },
            Kind::Listener(listener) => {
                listener.listen(backlog);
                (Answer::Done, NOTHING)
            }
            _ => refused(Errno::Enotsock),
        }
    }

    /// connect(2) by a name of this space, where this one was found free, and `heard` tells who listens at the name
    /// that is asked for.
    fn connect(&mut self, space: Space, found: Option<Name>, heard: Hearing) -> (Answer, Raised)
        ensures { (result.0, self.new, result.1) ≡
            attempt (of_socket self.old (connect_refusals self.old space found heard)) self.old (connect self.old found) }
    {
        match &mut self.kind {
            Kind::Pair(_) => refused(unheard_or(space, heard, Errno::Eisconn)),
            Kind::Idle(idle) => idle.connect(space, found, heard),
            Kind::Listener(listener) => refused(listener.refuses_connect(space, heard)),
            _ => refused(Errno::Enotsock),
        }
    }

    /// timerfd_settime(2), with TFD_TIMER_ABSTIME where `absolute`.
    fn settime(
        &mut self,
        now: Moment,
        absolute: bool,
        value: Span,
        interval: Span,
    ) -> (Answer, Raised)
        ensures { (result.0, self.new, result.1) ≡
            attempt ((not (is_timer self.old), Errno.Einval) ∷ timer_set_refusals value interval) self.old (settime self.old absolute value interval now) }
    {
        match &mut self.kind {
            Kind::Timer(timer) => timer.settime(now, absolute, value, interval),
            _ => refused(Errno::Einval),
        }
    }

    /// timerfd_gettime(2).
    fn gettime(&self, now: Moment) -> (Answer, Raised)
        ensures { (result.0, self.now, result.1) ≡
            attempt ((not (is_timer self.now), Errno.Einval) ∷ []) self.now (gettime self.now now) }
    {
        match &self.kind {
            Kind::Timer(timer) => (timer.gettime(now), NOTHING),
            _ => refused(Errno::Einval),
        }
    }
}
