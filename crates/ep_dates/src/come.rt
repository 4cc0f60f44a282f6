//! Which registrations come to be reportable in an event.
ghost use Rattle.std.specs.Prelude.{◌≡◌, ◌<◌, ◌||◌, ◌∷◌, [], false, true, ℕ};
ghost use Rattle.ep_dates.specs.Ask.{AreHomes, AreSettled, AreTurned, Asks, shows_over};
ghost use Rattle.ep_dates.specs.Dates.{forgot};
ghost use Rattle.ep_dates.specs.Kept.{AreKept};
ghost use Rattle.ep_dates.specs.Touched.{is_it, may_come, touched_of, watches_fresh};
ghost use Rattle.ep_interest.specs.Passes.{has_id};

use crate::ask::{Question, ask, ask_each, ask_turned, ask_watchers};
use crate::dates::Dates;
use crate::touched::Touched;
use ep_base::{DescId, EntryId, EventNumber};
use ep_calls::Parts;
use ep_walk::Walk;
use std::alloc::Global;

/// Asks the registration that an epoll_ctl altered, if it did.
pub fn ask_altered(parts: &Parts, question: Question, altered: Option<EntryId>, dates: &mut Dates)
    requires event { 0 < question.event }
    requires kept { AreKept parts.now.interest dates.old }
    requires turned { AreTurned question.comes dates.old }
    ensures { Asks question.comes question.event parts.now (is_it altered) dates.old dates.new }
{
    match altered {
        Some(id) => ask(parts, question, id, dates),
        None => {}
    }
}

/// Asks the registrations on an instance, if that isn't noted: else they are asked with what turned.
fn ask_on(parts: &Parts, question: Question, instance: DescId, dates: &mut Dates)
    requires event { 0 < question.event }
    requires kept { AreKept parts.now.interest dates.old }
    requires turned { AreTurned question.comes dates.old }
    ensures { Asks question.comes question.event parts.now
        (watches_fresh parts.now.interest dates.old.turned.reached (instance.0 ∷ [])) dates.old
        dates.new }
{
    if !dates.has_turned(instance) {
        ask_watchers(parts, question, instance, dates);
    }
}

/// Asks the registrations on each of these instances that isn't noted.
#[inline(always)]
pub fn ask_above(parts: &Parts, question: Question, instances: &Walk<Global>, dates: &mut Dates)
    requires event { 0 < question.event }
    requires kept { AreKept parts.now.interest dates.old }
    requires turned { AreTurned question.comes dates.old }
    ensures { Asks question.comes question.event parts.now
        (watches_fresh parts.now.interest dates.old.turned.reached instances.now.reached) dates.old
        dates.new }
{
    for index in 0..instances.count() {
        let asked = question;
        ask_on(parts, asked, DescId(instances.at(index)), dates);
    }
}

/// Dates the registrations that came to be reportable in an event, one after another as far as that makes instances
/// ready. None loses its date.
pub fn come(parts: &Parts, event: EventNumber, touched: &Touched<'_>, dates: &mut Dates)
    requires event { 0 < event }
    requires kept { AreKept parts.now.interest dates.old }
    requires homes { AreHomes parts.now }
    ensures comes { Asks true event parts.now (λ k. false) (forgot dates.old) dates.new }
    ensures settled { AreSettled true parts.now.interest (shows_over parts.now) dates.new []
        (may_come parts.now.interest (touched_of touched.now)) }
{
    let question = &Question { event, comes: true };
    dates.forget();
    parts.interest.known();
    ask_altered(parts, *question, touched.altered, dates);
    ask_each(parts, *question, parts.interest.passing(), dates);
    ask_turned(parts, *question, 0, dates);
    let turned = dates.turned_count();
    ask_above(parts, *question, touched.reached, dates);
    ask_turned(parts, *question, turned, dates);
}
