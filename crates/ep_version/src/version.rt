//! The versions of a script: the unit of its times, and the number that names each.
ghost use Rattle.std.specs.Prelude.{◌≡◌};
ghost use Rattle.ep_version.specs.Version.{call_in_milliseconds, event_in, in_milliseconds, numbered};
ghost use Rattle.ep_version.specs.Version.{shown_in, thousandfold, thousandfold_signed};

use ep_base::{Call, Event, Span, Timeout};

/// A version of the lines of a script. A script without a header has version 1.
#[derive(Clone, Copy, Debug, PartialEq, Eq)]
pub enum Version {
    /// Times are milliseconds.
    V1,
    /// Times are microseconds.
    V2,
}

fn thousandfold(span: Span) -> Span
    ensures { result ≡ thousandfold span }
{
    Span(span.0.saturating_mul(1_000))
}

fn thousandfold_signed(timeout: Timeout) -> Timeout
    ensures { result ≡ thousandfold_signed timeout }
{
    Timeout(timeout.0.saturating_mul(1_000))
}

/// The number that a line of this version shows for a time: milliseconds are rounded up. So what is
/// left of a running timer never shows 0.
pub fn shown_in(version: Version, time: Span) -> u64
    ensures { result ≡ shown_in version time }
{
    match version {
        Version::V1 => time.0.div_ceil(1_000),
        Version::V2 => time.0,
    }
}

fn call_in_milliseconds(call: Call) -> Call
    ensures { result ≡ call_in_milliseconds call }
{
    match call {
        Call::EpollWait { epfd, max, timeout } => Call::EpollWait {
            epfd,
            max,
            timeout: thousandfold_signed(timeout),
        },
        Call::SetTime {
            fd,
            absolute,
            value,
            interval,
        } => Call::SetTime {
            fd,
            absolute,
            value: thousandfold(value),
            interval: thousandfold(interval),
        },
        other => other,
    }
}

/// What an event means whose times are milliseconds.
fn in_milliseconds(event: Event) -> Event
    ensures { result ≡ in_milliseconds event }
{
    match event {
        Event::Tick { n } => Event::Tick { n: thousandfold(n) },
        Event::Call { pid, call } => Event::Call {
            pid,
            call: call_in_milliseconds(call),
        },
        Event::Resume => Event::Resume,
    }
}

/// What an event means whose numbers stand in a line of this version: its times become microseconds.
/// One that doesn't fit becomes the nearest number of its type.
pub fn event_in(version: Version, event: Event) -> Event
    ensures { result ≡ event_in version event }
{
    match version {
        Version::V1 => in_milliseconds(event),
        Version::V2 => event,
    }
}

/// The version that a header names by this number. `None` unless it is 1 or 2.
pub fn numbered(number: u64) -> Option<Version>
    ensures { result ≡ numbered number }
{
    match number {
        1 => Some(Version::V1),
        2 => Some(Version::V2),
        _ => None,
    }
}
