//! Timers over the simulated clock, as timerfd_create(2) has them.
ghost use Rattle.std.specs.Prelude.{◌≡◌, ◌≤◌, None};
ghost use Rattle.ep_counters.specs.Timer.{IsInRange, IsNextArrival, expiration_after};
ghost use Rattle.ep_machine.specs.Effect.{attempt};
ghost use Rattle.ep_machine.specs.Timer.{expirations, new_timer, timer_advance, timer_present, timer_read};
ghost use Rattle.ep_machine.specs.Timer.{timer_read_refusals, timer_set_refusals, timer_settime};
ghost use Rattle.ep_machine.specs.Timer.{timer_setting, unread};

use crate::outcome::{raised, refused, value_bytes};
use ep_base::{Answer, Errno, LAST_MOMENT, Mask, Moment, Raised, Span};
use std::alloc::Global;
use std::marker::Model;

/// A timer. Contracts see its first moment, its interval and how many expirations were read.
#[derive(Debug, Drop)]
pub struct Timer {
    alloc: Global,
    first_moment: Option<u64>,
    interval: Span,
    taken: u64,
}

impl Model for Timer {
    ghost use Rattle.ep_counters.specs.Timer.{IsInRange};
    ghost use Rattle.ep_machine.specs.Timer.{Timer as Content};

    ghost Value = { Content };

    ghost view = { λ t. record { first_moment = t.first_moment; interval = t.interval; taken = t.taken } };

    ghost invariant = { λ t. IsInRange t.first_moment t.interval t.taken };
}

impl Timer {
    /// timerfd_create(2): a disarmed timer, whose interval is 0.
    /// No call takes memory: the type of an answer's bytes wants the allocator.
    pub fn new(alloc: Global) -> Timer
        ensures { result ≡ new_timer }
    {
        Timer {
            alloc,
            first_moment: None,
            interval: Span(0),
            taken: 0,
        }
    }

    /// timerfd_settime(2) at `now`: answers the setting before, as `gettime` gives it.
    ///
    /// The first expiration is at the moment `value` with `absolute`, TFD_TIMER_ABSTIME, and else `value`
    /// after `now`; one follows after each `interval`, none where that is 0.
    /// A `value` of 0 disarms the timer, and the interval is kept for `gettime`.
    /// None of the expirations counts as read. It raises IN where some are unread then: a moment that has passed
    /// expires at once.
    ///
    /// EINVAL where `value` or `interval` is above `LAST_MOMENT`; that changes and raises nothing.
    pub fn settime(
        &mut self,
        now: Moment,
        absolute: bool,
        value: Span,
        interval: Span,
    ) -> (Answer, Raised)
        ensures { (result.0, self.new, result.1)
            ≡ attempt (timer_set_refusals value interval) self.old
            (timer_settime self.old absolute value interval now) }
    {
        if value.0 > LAST_MOMENT || interval.0 > LAST_MOMENT {
            return refused(Errno::Einval);
        }
        let before = self.gettime(now);
        self.first_moment = match (value.0, absolute) {
            (0, _) => None,
            (_, true) => Some(value.0),
            (_, false) => Some(now.at() + value.0),
        };
        self.interval = interval;
        self.taken = 0;
        (before, raised(self.present(now)))
    }

    /// timerfd_gettime(2) at `now`: the span until the next expiration, 0 where the timer is disarmed
    /// or its one expiration has come, and the interval.
    pub fn gettime(&self, now: Moment) -> Answer
        ensures { result ≡ timer_setting self.now now }
    {
        let interval = self.interval;
        let past = self.expirations(now);
        let value = match self.expiration_after(past) {
            Some(moment) => Span(moment - now.at()),
            None => Span(0),
        };
        Answer::Time { value, interval }
    }

    /// read(2) of `n` bytes at `now`, as timerfd_create(2) has it: answers how many expirations were unread
    /// as 8 bytes, the lowest first, and from then on they count as read. It raises nothing.
    ///
    /// EINVAL where `n` is below 8, and then EAGAIN where none is unread; a refusal changes nothing.
    pub fn read(&mut self, now: Moment, n: u32) -> (Answer, Raised)
        ensures { (result.0, self.new, result.1)
            ≡ attempt (timer_read_refusals self.old n now) self.old (timer_read self.old now) }
    {
        if n < 8 {
            return refused(Errno::Einval);
        }
        let unread = self.unread(now);
        if unread == 0 {
            return refused(Errno::Eagain);
        }
        self.taken = self.expirations(now);
        (value_bytes(self.alloc, unread), raised(Mask(0)))
    }

    /// What the clock raises as it goes on from `old` to `new`: IN exactly where unread goes from 0 to more,
    /// and so nothing at a further expiration while some are unread.
    pub fn advance(&self, old: Moment, new: Moment) -> Mask
        ensures { result.0 ≡ timer_advance self.now old new }
    {
        if self.unread(old) == 0 && self.unread(new) > 0 {
            Mask::IN
        } else {
            Mask(0)
        }
    }

    /// The bits that hold at `now`, as poll(2) would report them: IN while some expiration is unread.
    pub fn present(&self, now: Moment) -> Mask
        ensures { result.0 ≡ timer_present self.now now }
    {
        if self.unread(now) > 0 {
            Mask::IN
        } else {
            Mask(0)
        }
    }

    /// The first moment after `now` at which unread goes from 0 to more, or `None` where there is none:
    /// the timer is disarmed, some are unread at `now`, or its one expiration was read.
    /// It takes constant time.
    pub fn next(&self, now: Moment) -> Option<u64>
        ensures { IsNextArrival self.now now result }
    {
        match self.expiration_after(self.taken) {
            Some(moment) if moment > now.at() => Some(moment),
            _ => None,
        }
    }

    // How often it has expired by `now`.
    fn expirations(&self, now: Moment) -> u64
        ensures count { result ≡ expirations self.now now }
        ensures range { IsInRange self.now.first_moment self.now.interval result }
    {
        match self.first_moment {
            None => 0,
            Some(moment) if now.at() < moment => 0,
            Some(_) if self.interval.0 == 0 => 1,
            Some(moment) => 1 + (now.at() - moment) / self.interval.0,
        }
    }

    // How many of them by `now` were not read.
    fn unread(&self, now: Moment) -> u64
        ensures { result ≡ unread self.now now }
    {
        self.expirations(now).saturating_sub(self.taken)
    }

    // The moment of the expiration that follows so many.
    fn expiration_after(&self, past: u64) -> Option<u64>
        requires { IsInRange self.now.first_moment self.now.interval past }
        ensures { result ≡ expiration_after self.now past }
    {
        let first = self.first_moment?;
        if self.interval.0 == 0 && past > 0 {
            return None;
        }
        Some(first + past * self.interval.0)
    }
}
