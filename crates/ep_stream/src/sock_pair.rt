//! Pairs of connected Unix stream sockets: what socketpair(2) makes, and connections by name, which tell of a loss.
ghost use Rattle.std.specs.Prelude.{◌≡◌, ◌≤◌, ◌-◌, ◌||◌, ◌&&◌, None, Some, if◌then◌else◌, length, min, nat_lt, not};
ghost use Rattle.std.specs.Prelude.{false, true, IfOk, IsOk, OnErr};
ghost use Rattle.ep_base.specs.declared.answer.Answer.TheVariants.{Named};
ghost use Rattle.ep_base.specs.declared.socket.Family.TheVariants.{Unix};
ghost use Rattle.ep_machine.specs.Bits.{nothing};
ghost use Rattle.ep_machine.specs.Effect.{attempt, first};
ghost use Rattle.ep_machine.specs.Lists.{is_empty};
ghost use Rattle.ep_machine.specs.Sockets.{comes_no_more, ended, failed, fails_reading, loses, new_connection};
ghost use Rattle.ep_machine.specs.Sockets.{new_pair, new_socket, own, pair_close, pair_name, pair_name_refusals};
ghost use Rattle.ep_machine.specs.Sockets.{pair_peek, pair_present, pair_read, pair_read_refusals, pair_shut};
ghost use Rattle.ep_machine.specs.Sockets.{pair_shut_refusals, pair_shutdown, pair_take_error, pair_write};
ghost use Rattle.ep_machine.specs.Sockets.{pair_write_refusals, peer, shuts_read, shuts_write, socket_present};
ghost use Rattle.ep_machine.specs.Sockets.{unix_closed, wants_more, without_error};
ghost use Rattle.ep_stream.specs.Waiting.{pair_waiting};

use crate::bits::{NONE, beginning, intersection, told_or_begun, union, when};
use crate::ends::{opposite, raised_ends, raises, shuts_read, shuts_write};
use crate::queue::{peek_front, put_back, take_front};
use circular_buffer::HeapCircularBuffer;
use ep_base::{Answer, Buffer, End, Errno, Family, How, Mask, Name, Raised};
use std::alloc::{AllocError, Global};
use std::marker::Model;

/// What an end is told where nothing more comes to it.
const END_OF_INPUT: Mask = Mask(Mask::IN.0 | Mask::RDHUP.0);

/// One end: the bytes that it may read, whether it shut its writing and its reading, whether it is closed, the error
/// that waits to be taken, and its name.
#[derive(Drop)]
struct Socket {
    queue: HeapCircularBuffer<u8>,
    is_shut: bool,
    is_deaf: bool,
    is_closed: bool,
    error: Option<Errno>,
    name: Option<Name>,
}

impl Socket {
    ghost use Rattle.ep_stream.specs.Socket.{socket_of};

    /// An open end of this name with an empty queue of at most `capacity` bytes.
    fn new(alloc: Global, capacity: u32, name: Option<Name>) -> Result<Socket, AllocError>
        ensures socket { IfOk result (λ socket. socket_of false socket ≡ new_socket name) }
        ensures capacity { IfOk result (λ socket. socket.queue.capacity ≡ capacity) }
    {
        Ok(Socket {
            queue: HeapCircularBuffer::with_capacity(alloc, capacity as usize)?,
            is_shut: false,
            is_deaf: false,
            is_closed: false,
            error: None,
            name,
        })
    }

    /// How many more bytes fit in what this end may read.
    fn room(&self) -> usize
        ensures { result ≡ self.now.queue.capacity - length self.now.queue.items }
    {
        self.queue.capacity() - self.queue.len()
    }

    /// Whether nothing more comes to this end, where this is the peer.
    fn comes_no_more(&self, peer: &Socket) -> bool
        ensures { result ≡ (self.now.is_deaf || peer.now.is_shut || peer.now.is_closed) }
    {
        self.is_deaf || peer.is_shut || peer.is_closed
    }

    /// Whether nothing more goes from this end, where this is the peer.
    fn goes_no_more(&self, peer: &Socket) -> bool
        ensures { result ≡ (self.now.is_shut || (peer.now.is_deaf || peer.now.is_closed)) }
    {
        self.is_shut || (peer.is_deaf || peer.is_closed)
    }

    /// Whether a read would not block, where this is the peer.
    fn has_input(&self, peer: &Socket) -> bool
        ensures { result ≡ (not (is_empty self.now.queue.items)
            || (self.now.is_deaf || peer.now.is_shut || peer.now.is_closed)) }
    {
        !self.queue.is_empty() || self.comes_no_more(peer)
    }

    /// Whether nothing more comes to this end or goes from it, where this is the peer.
    fn is_hung_up(&self, peer: &Socket) -> bool
        ensures { result ≡ ((self.now.is_deaf || peer.now.is_shut || peer.now.is_closed)
            && (self.now.is_shut || (peer.now.is_deaf || peer.now.is_closed))) }
    {
        self.comes_no_more(peer) && self.goes_no_more(peer)
    }

    /// Whether a write to this end would not block.
    fn takes_more(&self) -> bool
        ensures { result ≡
            (self.now.is_closed || nat_lt (length self.now.queue.items) self.now.queue.capacity) }
    {
        self.is_closed || self.queue.len() < self.queue.capacity()
    }

    /// The bits that hold now at this end, where this is the peer.
    #[tactic(auto, using(crate::proofs::Unions::or_nothing))]
    fn present(&self, peer: &Socket) -> Mask
        ensures { result.0 ≡
            socket_present Unix peer.now.queue.capacity (socket_of false self.now) (socket_of false peer.now) }
    {
        let input = when(self.has_input(peer), Mask::IN);
        let read_hang_up = when(self.comes_no_more(peer), Mask::RDHUP);
        let hang_up = when(self.is_hung_up(peer), Mask::HUP);
        let output = when(peer.takes_more(), Mask::OUT);
        let error = when(self.error.is_some(), Mask::ERR);
        union(
            input,
            union(read_hang_up, union(hang_up, union(output, error))),
        )
    }

    /// Shuts what `how` names. Whether its reading was open before and no longer is, and whether its writing was.
    fn shut(&mut self, how: How) -> (bool, bool)
        ensures reading { result.0 ≡ (shuts_read how && not self.old.is_deaf) }
        ensures writing { result.1 ≡ (shuts_write how && not self.old.is_shut) }
        ensures socket { self.new ≡ record self.old {
          is_shut = self.old.is_shut || shuts_write how;
          is_deaf = self.old.is_deaf || shuts_read how;
        } }
    {
        let reading = shuts_read(how) && !self.is_deaf;
        let writing = shuts_write(how) && !self.is_shut;
        self.is_deaf = self.is_deaf || shuts_read(how);
        self.is_shut = self.is_shut || shuts_write(how);
        (reading, writing)
    }

    /// Notes that something was lost with the peer, if that is so.
    fn lose(&mut self, is_lost: bool)
        ensures { self.new ≡ (if is_lost then record self.old { error = Some Errno.Econnreset } else self.old) }
    {
        if is_lost {
            self.error = Some(Errno::Econnreset);
        }
    }

    /// Leaves an end of which nobody can tell any more what it was: it and its peer are closed.
    fn end(&mut self)
        ensures socket { socket_of true self.new ≡ ended }
        ensures capacity { self.new.queue.capacity ≡ self.old.queue.capacity }
    {
        self.queue.clear();
        self.is_shut = true;
        self.is_deaf = true;
        self.is_closed = true;
        self.error = Some(Errno::Econnreset);
        self.name = None;
    }
}

/// Two connected ends: what one writes the other reads, in the same order. With them goes whether an end is told what
/// was lost with its peer, and whether the second end was accepted, or never had to be.
#[derive(Drop)]
pub struct SockPair {
    first_end: Socket,
    second_end: Socket,
    tells_loss: bool,
    is_accepted: bool,
}

impl Model for SockPair {
    ghost use Rattle.std.specs.Prelude.{◌≡◌};
    ghost use Rattle.ep_machine.specs.Sockets.{SocketPair};

    ghost Value = { SocketPair };

    ghost use Rattle.ep_stream.specs.Socket.{pair_of};

    ghost view = { pair_of };

    ghost invariant = { λ p. p.second_end.queue.capacity ≡ p.first_end.queue.capacity };
}

impl SockPair {
    ghost use Rattle.ep_stream.specs.Socket.{socket_of};

    /// socketpair(2): open ends without names, each with an empty queue of at most `capacity` bytes. Neither is told
    /// what is lost with its peer. All memory that later calls need is taken here, but for the bytes that a read or a
    /// peek gives.
    pub fn new(alloc: Global, capacity: u32) -> Result<SockPair, AllocError>
        ensures { IfOk result (λ pair. pair ≡ new_pair capacity) }
    {
        Ok(SockPair {
            first_end: Socket::new(alloc, capacity, None)?,
            second_end: Socket::new(alloc, capacity, None)?,
            tells_loss: false,
            is_accepted: true,
        })
    }

    /// What connect(2) makes: the first end, whose name is `own`, connected by `name`, which is the name of the second
    /// end. That one waits to be accepted. Each has an empty queue of at most `capacity` bytes, and is told what is
    /// lost with its peer. All memory is taken here, as for `new`.
    pub fn connection(
        alloc: Global,
        capacity: u32,
        own: Option<Name>,
        name: Name,
    ) -> Result<SockPair, AllocError>
        ensures { IfOk result (λ pair. pair ≡ new_connection Unix capacity own (Some name)) }
    {
        Ok(SockPair {
            first_end: Socket::new(alloc, capacity, own)?,
            second_end: Socket::new(alloc, capacity, Some(name))?,
            tells_loss: true,
            is_accepted: false,
        })
    }

    /// Whether the second end is open and waits to be accepted.
    pub fn is_waiting(&self) -> bool
        ensures { result ≡ (not self.now.is_accepted && not self.now.second_end.is_closed) }
    {
        !self.is_accepted && !self.second_end.is_closed
    }

    /// accept(2) of the second end: it waits no more.
    pub fn accept(&mut self)
        ensures { self.new ≡ record self.old { is_accepted = true } }
    {
        self.is_accepted = true;
    }

    /// read(2) of at most `n` bytes at this end, and what it raises. It gives the first bytes that wait. It gives none
    /// if `n` is 0, or if none wait and this end shut its reading, or the peer closed or shut its writing. For an `n`
    /// of 1 or more where none wait: an error that waits is answered and taken, else EAGAIN if more may come, which
    /// leaves the pair and raises nothing. An `AllocError` leaves the pair, and comes only if more than 16 bytes would
    /// be given.
    #[tactic(auto, using(crate::proofs::Peers::peer_begins))]
    pub fn read(&mut self, end: End, n: u32) -> Result<(Answer, Raised), AllocError>
        ensures ok { IfOk result (λ r. (r.0, self.new, r.1) ≡
            attempt (pair_read_refusals self.old end n) self.old (pair_read self.old end n)) }
        ensures err { OnErr result (self.new ≡ self.old) }
        ensures inline { min n (pair_waiting self.old end) ≤ 16 → IsOk result }
    {
        if self.would_block_read(end, n) {
            return Ok((Answer::Refused(Errno::Eagain), raises(NONE, NONE)));
        }
        if self.fails_to_read(end, n) {
            return Ok((self.fail(end), raises(NONE, NONE)));
        }
        let before = self.present(opposite(end));
        let bytes = match end {
            End::First => take_front(&mut self.first_end.queue, n)?,
            End::Second => take_front(&mut self.second_end.queue, n)?,
        };
        let begun = beginning(before, self.present(opposite(end)));
        let raised = raised_ends(end, NONE, intersection(Mask::OUT, begun));
        Ok((Answer::Bytes(bytes), raised))
    }

    /// recv(2) with MSG_PEEK: as a read, but the bytes stay, and nothing is raised.
    pub fn peek(&mut self, end: End, n: u32) -> Result<(Answer, Raised), AllocError>
        ensures ok { IfOk result (λ r. (r.0, self.new, r.1) ≡
            attempt (pair_read_refusals self.old end n) self.old (pair_peek self.old end n)) }
        ensures err { OnErr result (self.new ≡ self.old) }
        ensures inline { min n (pair_waiting self.old end) ≤ 16 → IsOk result }
    {
        if self.would_block_read(end, n) {
            return Ok((Answer::Refused(Errno::Eagain), raises(NONE, NONE)));
        }
        if self.fails_to_read(end, n) {
            return Ok((self.fail(end), raises(NONE, NONE)));
        }
        let bytes = peek_front(&self.ends(end).0.queue, n)?;
        Ok((Answer::Bytes(bytes), raises(NONE, NONE)))
    }

    /// write(2) of these bytes at this end, and what it raises. It takes as many as fit in the peer's
    /// queue, answers how many, and takes no memory. Refusals of one byte or more, which leave the pair
    /// and raise nothing: EPIPE if this end shut its writing, or the peer shut its reading or closed; EAGAIN if none
    /// fits.
    pub fn write(&mut self, end: End, bytes: &Buffer) -> (Answer, Raised)
        ensures { (result.0, self.new, result.1) ≡
            attempt (pair_write_refusals self.old end bytes.now) self.old (pair_write self.old end bytes.now) }
    {
        if let Some(errno) = self.write_refusal(end, bytes) {
            return (Answer::Refused(errno), raises(NONE, NONE));
        }
        if bytes.is_empty() {
            return (Answer::Num(0), raises(NONE, NONE));
        }
        let count = match end {
            End::First => put_back(&mut self.second_end.queue, bytes),
            End::Second => put_back(&mut self.first_end.queue, bytes),
        };
        (Answer::Num(count as u64), raised_ends(end, NONE, Mask::IN))
    }

    /// shutdown(2) of what `how` names at this end, answered by `Answer::Done`, and what it raises. IN and RDHUP at
    /// this end if its reading is shut by it, and at the peer if its writing is. At both ends whatever begins to hold,
    /// as HUP. What is shut already changes and raises nothing.
    #[tactic(auto, using(crate::proofs::Peers::own_begins, crate::proofs::Peers::peer_begins))]
    pub fn shutdown(&mut self, end: End, how: How) -> (Answer, Raised)
        ensures { (result.0, self.new, result.1) ≡
            attempt (pair_shut_refusals self.old end) self.old (pair_shutdown self.old end how) }
    {
        let own = self.present(end);
        let peer = self.present(opposite(end));
        let (reading, writing) = self.shut(end, how);
        let at_own = when(reading, END_OF_INPUT);
        let at_peer = when(writing, END_OF_INPUT);
        let raised = raised_ends(
            end,
            told_or_begun(at_own, own, self.present(end)),
            told_or_begun(at_peer, peer, self.present(opposite(end))),
        );
        (Answer::Done, raised)
    }

    /// Notes that this end is closed for good, and gives what that raises at the peer: IN, RDHUP and HUP, and whatever
    /// begins to hold, as OUT. If a connection loses something by it, ERR too: ECONNRESET waits at the peer then. If
    /// the peer is closed already, nobody is left who could tell what the ends were: both get one and the same content,
    /// and nothing is raised.
    #[tactic(auto, using(crate::proofs::Peers::peer_begins))]
    pub fn close_end(&mut self, end: End) -> Raised
        ensures { (self.new, result) ≡ pair_close self.old end }
    {
        if self.ends(end).1.is_closed {
            self.end();
            return raises(NONE, NONE);
        }
        let before = self.present(opposite(end));
        let is_lost = self.loses(end);
        self.note_closed(end, is_lost);
        let told = union(END_OF_INPUT, union(Mask::HUP, when(is_lost, Mask::ERR)));
        let after = self.present(opposite(end));
        raised_ends(end, NONE, told_or_begun(told, before, after))
    }

    /// Whether something is lost with this end that its peer is told: bytes that it didn't read, or a connection that
    /// nobody accepted. A socket pair tells of none.
    fn loses(&self, end: End) -> bool
        ensures { result ≡ loses self.now end }
    {
        match end {
            End::First => self.tells_loss && !self.first_end.queue.is_empty(),
            End::Second => {
                self.tells_loss && (!self.second_end.queue.is_empty() || !self.is_accepted)
            }
        }
    }

    /// Leaves a pair of which nobody can tell any more what it was: both ends are closed.
    fn end(&mut self)
        ensures { self.new ≡ record self.old
            { is_confirmed = true; is_accepted = true; first_end = ended; second_end = ended } }
    {
        self.first_end.end();
        self.second_end.end();
        self.is_accepted = true;
    }

    /// getsockopt(2) with SO_ERROR at this end: takes the error that waits there, and answers its number by
    /// `Answer::Num`, or 0 if none waits.
    pub fn take_error(&mut self, end: End) -> Answer
        ensures { (result, self.new, nothing) ≡ pair_take_error self.old end }
    {
        match self.take(end) {
            Some(errno) => Answer::Num(u64::from(errno.number())),
            None => Answer::Num(0),
        }
    }

    /// getsockname(2) at this end, or getpeername(2) with `of_peer`. No end of a socket pair has a name. Of a
    /// connection the first end has the one that it was bound to, if any, and the second that of its listener.
    pub fn name(&self, end: End, of_peer: bool) -> Option<Name>
        ensures { attempt (pair_name_refusals self.now end of_peer) self.now (pair_name self.now end of_peer)
            ≡ (Named result, self.now, nothing) }
    {
        let (own, peer) = self.ends(end);
        if of_peer { peer.name } else { own.name }
    }

    /// The name that the first end keeps from others until it closes.
    pub fn kept_name(&self) -> Option<Name>
        ensures { result ≡ (if self.now.first_end.is_closed then None else self.now.first_end.name) }
    {
        if self.first_end.is_closed {
            None
        } else {
            self.first_end.name
        }
    }

    /// What its ends speak.
    pub fn family(&self) -> Family
        ensures { result ≡ self.now.family }
    {
        let _ends = &self.first_end; // so the prover takes the pair apart
        Family::Unix
    }

    /// How many bytes a read or a peek at this end could give.
    pub fn waiting(&self, end: End) -> usize
        ensures { result ≡ pair_waiting self.now end }
    {
        self.ends(end).0.queue.len()
    }

    /// The bits that hold now at this end, as poll(2) names them. RDHUP once nothing more comes to it: it shut its
    /// reading, or the peer closed or shut its writing. IN then, and while bytes wait. HUP if nothing more goes from
    /// it either: it shut its writing, or the peer closed or shut its reading. OUT while the peer's queue isn't full,
    /// and once the peer closed. ERR while an error waits.
    pub fn present(&self, end: End) -> Mask
        ensures { result.0 ≡ pair_present self.now end }
    {
        let (own, peer) = self.ends(end);
        own.present(peer)
    }

    /// This end and its peer.
    fn ends(&self, end: End) -> (&Socket, &Socket)
        ensures own { socket_of (own self.now end).is_reset result.0.now ≡ own self.now end }
        ensures peer { socket_of (peer self.now end).is_reset result.1.now ≡ peer self.now end }
        ensures capacity { result.1.now.queue.capacity ≡ self.now.capacity }
        ensures family { self.now.family ≡ Unix }
    {
        match end {
            End::First => (&self.first_end, &self.second_end),
            End::Second => (&self.second_end, &self.first_end),
        }
    }

    /// Whether a read of `n` bytes at this end is refused with EAGAIN.
    fn would_block_read(&self, end: End, n: u32) -> bool
        ensures { result ≡
            (wants_more self.now end n && not (fails_reading self.now end)
            && not (comes_no_more self.now.family (own self.now end) (peer self.now end))) }
    {
        let (own, peer) = self.ends(end);
        n > 0 && own.queue.is_empty() && own.error.is_none() && !own.comes_no_more(peer)
    }

    /// Whether a read of `n` bytes at this end is answered with the error that waits there.
    fn fails_to_read(&self, end: End, n: u32) -> bool
        ensures { result ≡ (wants_more self.now end n && fails_reading self.now end) }
    {
        let own = self.ends(end).0;
        n > 0 && own.queue.is_empty() && own.error.is_some()
    }

    /// Shuts what `how` names of this end. Whether its reading was open before and no longer is, and whether its
    /// writing was.
    fn shut(&mut self, end: End, how: How) -> (bool, bool)
        ensures reading { result.0 ≡ (shuts_read how && not (own self.old end).is_deaf) }
        ensures writing { result.1 ≡ (shuts_write how && not (own self.old end).is_shut) }
        ensures pair { self.new ≡ pair_shut self.old end how }
        ensures family { self.old.family ≡ Unix }
    {
        match end {
            End::First => self.first_end.shut(how),
            End::Second => self.second_end.shut(how),
        }
    }

    /// Notes that this end is closed, while its peer isn't, and the error there if something is lost.
    #[tactic(auto, using(crate::proofs::PairMarks::first_closes, crate::proofs::PairMarks::second_closes))]
    fn note_closed(&mut self, end: End, is_lost: bool)
        requires peer { (peer self.old end).is_closed ≡ false }
        requires lost { is_lost ≡ loses self.old end }
        ensures pair { self.new ≡ unix_closed self.old end }
        ensures family { self.old.family ≡ Unix }
    {
        match end {
            End::First => {
                self.first_end.is_closed = true;
                self.second_end.lose(is_lost);
            }
            End::Second => {
                self.second_end.is_closed = true;
                self.first_end.lose(is_lost);
            }
        }
    }

    /// The error that waits at this end, which is taken.
    fn take(&mut self, end: End) -> Option<Errno>
        ensures error { result ≡ (own self.old end).error }
        ensures pair { self.new ≡ without_error self.old end }
    {
        match end {
            End::First => self.first_end.error.take(),
            End::Second => self.second_end.error.take(),
        }
    }

    /// What a call that fails with the error of this end is answered; EPIPE if none waits.
    #[inline(always)]
    fn fail(&mut self, end: End) -> Answer
        ensures { (result, self.new, nothing) ≡ failed self.old end }
    {
        Answer::Failed(self.take(end).unwrap_or(Errno::Epipe))
    }

    /// The error of a write of these bytes at this end.
    fn write_refusal(&self, end: End, bytes: &Buffer) -> Option<Errno>
        ensures { result ≡ first (pair_write_refusals self.now end bytes.now) }
    {
        if bytes.is_empty() {
            return None;
        }
        let (own, peer) = self.ends(end);
        if own.goes_no_more(peer) {
            return Some(Errno::Epipe);
        }
        if peer.room() == 0 {
            Some(Errno::Eagain)
        } else {
            None
        }
    }
}
