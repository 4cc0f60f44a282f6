//! What an event raises, and the registrations that it makes fresh.
ghost use Rattle.std.specs.Prelude.{◌≡◌, IsSome, map, ℕ};
ghost use Rattle.ep_interest.specs.Registrations.{raised_on};
ghost use Rattle.ep_machine.specs.Bits.{at_end as bits_at};
ghost use Rattle.ep_calls.specs.Raising.{IsRaising, IsUntimed, RaisesObject, Stirs, raised_there, raised_where};
ghost use Rattle.ep_table.specs.Closing.{opposite};
ghost use Rattle.ep_table.specs.Value.{number_under};

use crate::Parts;
use bitflags::Flags;
use ep_base::{DescId, End, EventNumber, Mask, Moment, Raised};
use ep_interest::Interest;
use ep_table::{Loss, Tables};

/// Where an event raised bits before any description died.
#[derive(Clone, Copy)]
pub enum Raising {
    /// At nothing that can be watched.
    Nowhere,
    /// At the two ends of the object of a description.
    Object { desc: DescId, raised: Raised },
    /// At an instance, in which a registration is reportable that was added or modified.
    Instance { desc: DescId },
    /// At the descriptions whose connections lost their other end by a call on the tables, which tell them.
    Losses,
    /// At timers, by the clock going on from this moment.
    Clock { since: Moment },
}

/// The bits that are raised at an end.
pub fn at_end(raised: Raised, end: End) -> Mask
    ensures { result.0 ≡ bits_at raised end }
{
    match end {
        End::First => raised.first,
        End::Second => raised.second,
    }
}

/// The other end.
pub fn other_end(end: End) -> End
    ensures { result ≡ opposite end }
{
    match end {
        End::First => End::Second,
        End::Second => End::First,
    }
}

/// Raises bits at a description. If there are none no registration is looked at.
#[inline(always)]
pub fn raise_at(interest: &mut Interest, desc: DescId, bits: Mask, step: EventNumber)
    ensures entries { interest.new.entries ≡ map (raised_on desc bits step) interest.old.entries }
    ensures keys { interest.new.keys ≡ interest.old.keys }
    ensures added { interest.new.added ≡ interest.old.added }
{
    if !bits.is_empty() {
        interest.raise(desc, bits, step);
    }
}

/// Raises bits at a description, if there is one.
pub fn raise_there(interest: &mut Interest, desc: Option<DescId>, bits: Mask, step: EventNumber)
    ensures entries { interest.new.entries
        ≡ map (raised_there desc bits step) interest.old.entries }
    ensures keys { interest.new.keys ≡ interest.old.keys }
    ensures added { interest.new.added ≡ interest.old.added }
{
    if let Some(desc) = desc {
        raise_at(interest, desc, bits, step);
    }
}

/// Raises bits at the two ends of the object of a description.
#[inline(always)]
fn raise_object(
    tables: &Tables,
    interest: &mut Interest,
    desc: DescId,
    raised: Raised,
    step: EventNumber,
)
    requires { IsSome (number_under tables.now desc) }
    ensures { RaisesObject tables.now desc raised step interest.old interest.new }
{
    let end = tables.end(desc);
    raise_at(interest, desc, at_end(raised, end), step);
    raise_there(
        interest,
        tables.other(desc),
        at_end(raised, other_end(end)),
        step,
    );
}

/// Raises at each description whose connection lost its other end.
fn raise_losses(interest: &mut Interest, losses: &[Loss], step: EventNumber)
    ensures entries { interest.new.entries ≡ raised_where step losses.now interest.old.entries }
    ensures keys { interest.new.keys ≡ interest.old.keys }
    ensures added { interest.new.added ≡ interest.old.added }
{
    for loss in losses {
        raise_at(interest, loss.desc, loss.raised, step);
    }
}

/// Notes in registrations what an event raised other than by the clock.
#[inline(always)]
fn raise_all(tables: &Tables, interest: &mut Interest, raising: Raising, step: EventNumber)
    requires raising { IsRaising raising tables.now }
    requires untimed { IsUntimed raising }
    ensures stirs { (now : ℕ) → Stirs raising tables.now now step interest.old interest.new }
    ensures keys { interest.new.keys ≡ interest.old.keys }
{
    match raising {
        Raising::Nowhere => {}
        Raising::Object { desc, raised } => raise_object(tables, interest, desc, raised, step),
        Raising::Instance { desc } => raise_at(interest, desc, Mask::IN, step),
        Raising::Losses => raise_losses(interest, tables.losses(), step),
        Raising::Clock { .. } => unreachable!(),
    }
}

impl Parts {
    /// Notes in registrations what an event raised other than by the clock.
    #[inline(always)]
    pub fn raise(&mut self, step: EventNumber, raising: Raising)
        requires raises { IsRaising raising self.old.tables }
        requires untimed { IsUntimed raising }
        ensures stirs { Stirs raising self.old.tables self.old.clock step self.old.interest
            self.new.interest }
        ensures ids { self.new.interest.keys ≡ self.old.interest.keys }
        ensures others { self.new ≡ record self.old { interest = self.new.interest } }
    {
        self.tables.known();
        raise_all(&self.tables, &mut self.interest, raising, step);
    }
}
