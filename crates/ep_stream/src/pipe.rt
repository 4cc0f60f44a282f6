//! Pipes, as pipe(7) describes them.
ghost use Rattle.std.specs.Prelude.{◌≡◌, ◌≤◌, length, min, IfOk, IsOk, OnErr};
ghost use Rattle.ep_machine.specs.Effect.{attempt, first};
ghost use Rattle.ep_machine.specs.Pipe.{new_pipe, pipe_close, pipe_present, pipe_read, pipe_read_refusals};
ghost use Rattle.ep_machine.specs.Pipe.{pipe_room, pipe_write, pipe_write_refusals};
ghost use Rattle.ep_stream.specs.Waiting.{pipe_waiting};

use crate::bits::{NONE, beginning, intersection, union, when};
use crate::ends::raises;
use crate::queue::{put_back, take_front};
use circular_buffer::HeapCircularBuffer;
use ep_base::{Answer, Buffer, End, Errno, Mask, Raised};
use std::alloc::{AllocError, Global};
use std::marker::Model;

/// A write of at most so many bytes is taken whole or not at all: PIPE_BUF of pipe(7).
const PIPE_BUF: usize = 4_096;

/// A pipe: bytes are read at its first end in the order in which they were written at its second.
#[derive(Drop)]
pub struct Pipe {
    buffer: HeapCircularBuffer<u8>,
    has_reader: bool,
    has_writer: bool,
}

impl Model for Pipe {
    ghost use Rattle.ep_machine.specs.Pipe.{Pipe as Content};

    ghost Value = { Content };

    ghost view = { λ p. record { capacity = p.buffer.capacity; bytes = p.buffer.items; has_reader = p.has_reader; has_writer = p.has_writer } };
}

impl Pipe {
    /// An empty pipe with both ends, which holds at most `capacity` bytes.
    /// All memory that later calls need is taken here, but for the bytes that a read gives.
    pub fn new(alloc: Global, capacity: u32) -> Result<Pipe, AllocError>
        ensures { IfOk result (λ pipe. pipe ≡ new_pipe capacity) }
    {
        Ok(Pipe {
            buffer: HeapCircularBuffer::with_capacity(alloc, capacity as usize)?,
            has_reader: true,
            has_writer: true,
        })
    }

    /// read(2) of at most `n` bytes at this end, and what it raises. It gives the first bytes that wait,
    /// and none where `n` is 0, or where the pipe is empty and the writer is gone. Refusals, which
    /// leave the pipe and raise nothing: EBADF at the second end; EAGAIN, for an `n` of 1 or more,
    /// where the pipe is empty and has a writer. An `AllocError` leaves the pipe, and comes only
    /// where more than 16 bytes would be given.
    pub fn read(&mut self, end: End, n: u32) -> Result<(Answer, Raised), AllocError>
        ensures ok { IfOk result (λ r. (r.0, self.new, r.1) ≡
            attempt (pipe_read_refusals self.old end n) self.old (pipe_read self.old n)) }
        ensures err { OnErr result (self.new ≡ self.old) }
        ensures inline { min n (pipe_waiting self.old end) ≤ 16 → IsOk result }
    {
        if let Some(errno) = self.read_refusal(end, n) {
            return Ok((Answer::Refused(errno), raises(NONE, NONE)));
        }
        let before = self.present(End::Second);
        let bytes = take_front(&mut self.buffer, n)?;
        let begun = beginning(before, self.present(End::Second));
        Ok((
            Answer::Bytes(bytes),
            raises(NONE, intersection(Mask::OUT, begun)),
        ))
    }

    /// write(2) of these bytes at this end, and what it raises. It answers how many were taken, and
    /// takes no memory. Refusals, which leave the pipe and raise nothing: EBADF at the first end; else,
    /// for one byte or more, EPIPE where the reader is gone; EAGAIN where they don't fit and are at
    /// most 4,096, or where none fits. Above 4,096 bytes it takes as many as fit.
    pub fn write(&mut self, end: End, bytes: &Buffer) -> (Answer, Raised)
        ensures { (result.0, self.new, result.1) ≡
            attempt (pipe_write_refusals self.old end bytes.now) self.old (pipe_write self.old bytes.now) }
    {
        if let Some(errno) = self.write_refusal(end, bytes) {
            return (Answer::Refused(errno), raises(NONE, NONE));
        }
        let count = put_back(&mut self.buffer, bytes);
        let raised = raises(when(!bytes.is_empty(), Mask::IN), NONE);
        (Answer::Num(count as u64), raised)
    }

    /// Notes that this end is closed for good, and gives what that raises: ERR at the second end
    /// where the first closes, HUP at the first where the second does.
    pub fn close_end(&mut self, end: End) -> Raised
        ensures { (self.new, result) ≡ pipe_close self.old end }
    {
        match end {
            End::First => {
                self.has_reader = false;
                raises(NONE, Mask::ERR)
            }
            End::Second => {
                self.has_writer = false;
                raises(Mask::HUP, NONE)
            }
        }
    }

    /// How many bytes a read at this end could give: those in the pipe at the first end, 0 at the second.
    pub fn waiting(&self, end: End) -> usize
        ensures { result ≡ pipe_waiting self.now end }
    {
        match end {
            End::First => self.buffer.len(),
            End::Second => 0,
        }
    }

    /// The bits that hold now at this end, as poll(2) names them. At the first end IN while bytes wait
    /// and HUP once the writer is gone; at the second OUT while at least 4,096 bytes are free and ERR
    /// once the reader is gone.
    #[tactic(auto, using(crate::proofs::Unions::or_nothing))]
    pub fn present(&self, end: End) -> Mask
        ensures { result.0 ≡ pipe_present self.now end }
    {
        match end {
            End::First => union(
                when(!self.buffer.is_empty(), Mask::IN),
                when(!self.has_writer, Mask::HUP),
            ),
            End::Second => union(
                when(self.room() >= PIPE_BUF, Mask::OUT),
                when(!self.has_reader, Mask::ERR),
            ),
        }
    }

    /// How many bytes are free.
    fn room(&self) -> usize
        ensures { result ≡ pipe_room self.now }
    {
        self.buffer.capacity() - self.buffer.len()
    }

    /// The error of a read of `n` bytes at this end.
    fn read_refusal(&self, end: End, n: u32) -> Option<Errno>
        ensures { result ≡ first (pipe_read_refusals self.now end n) }
    {
        match end {
            End::First if n > 0 && self.buffer.is_empty() && self.has_writer => Some(Errno::Eagain),
            End::First => None,
            End::Second => Some(Errno::Ebadf),
        }
    }

    /// The error of a write of these bytes at this end.
    fn write_refusal(&self, end: End, bytes: &Buffer) -> Option<Errno>
        ensures { result ≡ first (pipe_write_refusals self.now end bytes.now) }
    {
        if end == End::First {
            return Some(Errno::Ebadf);
        }
        if bytes.is_empty() {
            return None;
        }
        if !self.has_reader {
            return Some(Errno::Epipe);
        }
        let needed = if bytes.len() <= PIPE_BUF {
            bytes.len()
        } else {
            1
        };
        if self.room() < needed {
            Some(Errno::Eagain)
        } else {
            None
        }
    }
}
