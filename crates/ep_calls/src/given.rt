//! An event as it is handed to a kernel.
ghost use Rattle.std.specs.Prelude.{◌≡◌, IfOk, IsOk, IsTrue};
ghost use Rattle.ep_calls.specs.Given.{IsShortWrite, TakesNoCopy};

use ep_base::{Call, Event};
use std::alloc::AllocError;
use std::marker::Model;

/// How an event is handed over.
#[derive(Drop)]
enum Kind<'a> {
    Own(Event),
    Lent(&'a Event),
}

/// An event as it is handed to a kernel: given away, or lent if nothing of it is copied beside the slot of its record.
/// Contracts see the event.
#[derive(Drop)]
pub struct Given<'a> {
    kind: Kind<'a>,
}

impl<'a> Model for Given<'a> {
    ghost use Rattle.ep_base.specs.declared.call.Event.{Event as Asked};
    ghost use Rattle.ep_calls.specs.Given.{MayBeLent, event_in};

    ghost Value = { Asked };

    ghost view = { λ given. event_in given.kind };

    ghost invariant = { λ given. MayBeLent given.kind };
}

/// Whether nothing of an event is copied beside the slot of its record, if it is lent.
fn takes_no_copy(event: &Event) -> bool
    ensures takes { TakesNoCopy event.now → IsTrue result }
    ensures none { IsTrue result → TakesNoCopy event.now }
{
    match event {
        Event::Call {
            pid,
            call: Call::Write { bytes, .. },
        } => bytes.is_empty() || (bytes.len() <= 16 && pid.0 < 1 << 32),
        _ => true,
    }
}

impl<'a> Given<'a> {
    /// An event that is given away.
    #[inline(always)]
    pub fn own(event: Event) -> Given<'a>
        ensures { result ≡ event }
    {
        Given {
            kind: Kind::Own(event),
        }
    }

    /// An event that is lent, or a copy of it if something of it is copied. An `Err` is want of memory for the copy.
    #[inline(always)]
    pub fn lent(event: &'a Event) -> Result<Given<'a>, AllocError>
        ensures ok { IfOk result (λ given. given ≡ event.now) }
        ensures no_copy { TakesNoCopy event.now → IsOk result }
    {
        if takes_no_copy(event) {
            return Ok(Given {
                kind: Kind::Lent(event),
            });
        }
        let copy = event.copy()?;
        Ok(Given::own(copy))
    }

    /// The event.
    #[inline(always)]
    pub fn event(&self) -> &Event
        ensures { result.now ≡ self.now }
    {
        match &self.kind {
            Kind::Own(event) => event,
            Kind::Lent(event) => event,
        }
    }

    /// The event, for a record that keeps it whole. It takes no memory.
    pub fn into_event(self) -> Event
        requires { IsShortWrite self → ⊥ }
        ensures { result ≡ self.entry }
    {
        let Given { kind } = self;
        match kind {
            Kind::Own(event) => event,
            Kind::Lent(event) => event.copy().unwrap(),
        }
    }
}
