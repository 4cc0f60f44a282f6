//! Which registrations are reportable no more after an event.
ghost use Rattle.std.specs.Prelude.{◌≡◌, ◌<◌, [], Some, false, true, ℕ};
ghost use Rattle.ep_base.specs.declared.ids.EntryId.{EntryId as Id};
ghost use Rattle.ep_dates.specs.Ask.{AreHomes, AreSettled, AreTurned, Asks, shows_by, shows_over};
ghost use Rattle.ep_dates.specs.Dates.{forgot, is_dated};
ghost use Rattle.ep_dates.specs.Kept.{AreKept};
ghost use Rattle.ep_dates.specs.Touched.{has_number, may_go, touched_of, watches_maybe};
ghost use Rattle.ep_interest.specs.Registrations.{entry_under};
ghost use Rattle.ep_interest.specs.declared.entry.Entry.{Entry};

use crate::ask::{Question, ask, ask_turned, ask_watchers};
use crate::come::{ask_above, ask_altered};
use crate::dates::Dates;
use crate::touched::Touched;
use ep_base::{DescId, EntryNumber, EventNumber};
use ep_calls::Parts;

/// Asks the registrations with these numbers whether they are still reportable. One without a date isn't.
pub fn ask_reported(parts: &Parts, event: EventNumber, reported: &[EntryNumber], dates: &mut Dates)
    requires event { 0 < event }
    requires kept { AreKept parts.now.interest dates.old }
    requires turned { AreTurned false dates.old }
    ensures { Asks false event parts.now (has_number parts.now.interest reported.now) dates.old
        dates.new }
{
    let question = Question {
        event,
        comes: false,
    };
    for number in reported {
        let asked = question;
        ask(parts, asked, dates.id(*number), dates);
    }
}

/// Asks the registrations on a description, if there is one.
pub fn ask_called(parts: &Parts, question: Question, called: Option<DescId>, dates: &mut Dates)
    requires event { 0 < question.event }
    requires kept { AreKept parts.now.interest dates.old }
    requires turned { AreTurned question.comes dates.old }
    ensures { Asks question.comes question.event parts.now
        (watches_maybe parts.now.interest called) dates.old dates.new }
{
    match called {
        Some(desc) => ask_watchers(parts, question, desc, dates),
        None => {}
    }
}

/// Takes the dates away of registrations that an event ended, one after another as far as that makes instances idle.
/// What it can't have ended isn't asked.
pub fn go(parts: &Parts, event: EventNumber, touched: &Touched<'_>, dates: &mut Dates)
    requires event { 0 < event }
    requires kept { AreKept parts.now.interest dates.old }
    requires homes { AreHomes parts.now }
    requires others { (id : Id) (x : Entry) → entry_under parts.now.interest id ≡ Some x
        → may_go parts.now.interest (touched_of touched.now) id.0 ≡ false
        → is_dated dates.old x ≡ true → shows_by (shows_over parts.now) dates.old x ≡ true }
    ensures goes { Asks false event parts.now (λ k. false) (forgot dates.old) dates.new }
    ensures settled { AreSettled false parts.now.interest (shows_over parts.now) dates.new []
        (λ k. true) }
{
    let question = &Question {
        event,
        comes: false,
    };
    dates.forget();
    ask_altered(parts, *question, touched.altered, dates);
    ask_reported(parts, event, touched.reported, dates);
    ask_called(parts, *question, touched.called, dates);
    ask_above(parts, *question, touched.gone, dates);
    ask_turned(parts, *question, 0, dates);
}
