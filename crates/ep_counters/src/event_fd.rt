//! Event counters, as eventfd(2) has them.
ghost use Rattle.std.specs.Prelude.{◌≡◌, ◌↔◌, ◌<◌, IfSome, IsNone, length};
ghost use Rattle.ep_machine.specs.Counters.{counter_present, counter_read, counter_read_refusals};
ghost use Rattle.ep_machine.specs.Counters.{counter_write, counter_write_refusals, greatest_count, written};
ghost use Rattle.ep_machine.specs.Effect.{attempt};

use crate::outcome::{raised, refused, value_bytes};
use ep_base::{Answer, Buffer, Content, Errno, Mask, Raised};
use std::alloc::Global;
use std::marker::Model;

// 2^64 - 2, the greatest value that eventfd(2) allows.
const GREATEST_COUNT: u64 = u64::MAX - 1;

/// A counter from 0 to 2^64 - 2. Contracts see its count and whether it is a semaphore.
#[derive(Debug, Drop)]
pub struct EventFd {
    alloc: Global,
    count: u64,
    semaphore: bool,
}

impl Model for EventFd {
    ghost use Rattle.std.specs.Prelude.{◌≤◌};
    ghost use Rattle.ep_machine.specs.Counters.{Counter, greatest_count};

    ghost Value = { Counter };

    ghost view = { λ e. record { count = e.count; is_semaphore = e.semaphore } };

    ghost invariant = { λ e. e.count ≤ greatest_count };
}

impl EventFd {
    /// eventfd(2): a counter that starts at `init`. With `semaphore`, EFD_SEMAPHORE, a read takes 1 from it.
    /// No call takes memory: the type of an answer's bytes wants the allocator.
    pub fn new(alloc: Global, init: u32, semaphore: bool) -> EventFd
        ensures { result ≡ record { count = init; is_semaphore = semaphore } }
    {
        EventFd {
            alloc,
            count: init as u64,
            semaphore,
        }
    }

    /// read(2) of `n` bytes, as eventfd(2) has it. It answers the count as 8 bytes, the lowest first,
    /// and sets it to 0; a semaphore answers 1 and takes 1. It raises OUT.
    ///
    /// EINVAL where `n` is below 8, and then EAGAIN where the count is 0; a refusal changes and raises nothing.
    pub fn read(&mut self, n: u32) -> (Answer, Raised)
        ensures { (result.0, self.new, result.1)
            ≡ attempt (counter_read_refusals self.old n) self.old (counter_read self.old) }
    {
        if n < 8 {
            return refused(Errno::Einval);
        }
        if self.count == 0 {
            return refused(Errno::Eagain);
        }
        let given = if self.semaphore { 1 } else { self.count };
        self.count -= given;
        (value_bytes(self.alloc, given), raised(Mask::OUT))
    }

    /// write(2), as eventfd(2) has it: adds the first 8 bytes as a number, the lowest byte first, and answers 8.
    /// It raises IN, for 0 too.
    ///
    /// EINVAL below 8 bytes, then EINVAL for 2^64 - 1, then EAGAIN where the sum would pass 2^64 - 2;
    /// a refusal changes and raises nothing.
    pub fn write(&mut self, bytes: &Buffer) -> (Answer, Raised)
        ensures { (result.0, self.new, result.1)
            ≡ attempt (counter_write_refusals self.old bytes.now) self.old
            (counter_write self.old bytes.now) }
    {
        let Some(value) = written_value(bytes) else {
            return refused(Errno::Einval);
        };
        if value > GREATEST_COUNT {
            return refused(Errno::Einval);
        }
        if value > GREATEST_COUNT - self.count {
            return refused(Errno::Eagain);
        }
        self.count += value;
        (Answer::Num(8), raised(Mask::IN))
    }

    /// The bits that hold now, as poll(2) would report them: IN while the count is above 0,
    /// OUT while 1 can be added.
    pub fn present(&self) -> Mask
        ensures { result.0 ≡ counter_present self.now }
    {
        let readable = if self.count > 0 { Mask::IN.0 } else { 0 };
        let writable = if self.count < GREATEST_COUNT {
            Mask::OUT.0
        } else {
            0
        };
        Mask(readable | writable)
    }
}

// The number that the first 8 bytes stand for, or `None` where there are fewer.
#[tactic(auto, using(crate::proofs::Written::filled_value))]
fn written_value(bytes: &Buffer) -> Option<u64>
    ensures few { IsNone result ↔ (length bytes.now < 8) }
    ensures value { IfSome result (λ value. value ≡ written bytes.now) }
{
    match bytes.content() {
        Content::Listed(listed) => {
            let (first, _) = listed.split_first_chunk::<8>()?;
            Some(u64::from_le_bytes(*first))
        }
        Content::Filled(byte, count) if count >= 8 => Some(u64::from_le_bytes([byte; 8])),
        Content::Filled(_, _) => None,
    }
}
