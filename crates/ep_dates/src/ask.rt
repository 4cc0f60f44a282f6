//! Asking registrations whether they have come to be reportable, or are so no more.
ghost use Rattle.std.specs.Prelude.{◌≡◌, ◌<◌, ◌≤◌, ◌==◌, ℕ, [], Bool, IsSome, drop, false, length, take, true};
ghost use Rattle.ep_calls.specs.Climb.{is_nested_key};
ghost use Rattle.ep_dates.specs.Ask.{AreHomes, AreInstances, AreSettled, AreTurned, AreWatched, Asks};
ghost use Rattle.ep_dates.specs.Ask.{IsOnTurned, shows_by, shows_over, shows_ready, watches};
ghost use Rattle.ep_dates.specs.Dates.{is_ready};
ghost use Rattle.ep_dates.specs.Kept.{AreKept};
ghost use Rattle.ep_interest.specs.Passes.{has_id};
ghost use Rattle.ep_table.specs.Value.{number_under};

use crate::dates::Dates;
use bitflags::Flags;
use ep_base::{DescId, EntryId, EventNumber, Mask};
use ep_calls::{Parts, is_reportable, shown_at};
use ep_climb::has_links;
use ep_interest::Entry;

/// What registrations are asked at the end of an event. The prover takes a question that is passed on as moved, so who
/// asks more than once passes copies.
#[derive(Clone, Copy)]
pub struct Question {
    /// The number of the event.
    pub event: EventNumber,
    /// Whether they have come to be reportable; else, whether they are so no more.
    pub comes: bool,
}

/// Whether a registration is reportable, if what it watches is ready exactly if its row isn't empty. An edge-triggered
/// one to which nothing arrived since its last report isn't, whatever its target shows.
#[inline(always)]
fn shows(parts: &Parts, dates: &Dates, entry: &Entry) -> bool
    requires { IsSome (number_under parts.now.tables entry.now.desc) }
    ensures { result ≡ shows_by (shows_over parts.now) dates.now entry.now }
{
    parts.known();
    if entry.mask.intersects(Mask::ET) && !entry.fresh {
        return false;
    }
    let below = dates.is_ready(entry.desc);
    is_reportable(entry, shown_at(&parts.tables, parts.clock, entry, below))
}

/// Asks the registration under a key. If it has come to be reportable, or is so no more, its date says so. The rows say
/// which instances are ready.
#[inline(always)]
pub fn ask(parts: &Parts, question: Question, id: EntryId, dates: &mut Dates)
    requires event { 0 < question.event }
    requires kept { AreKept parts.now.interest dates.old }
    requires turned { AreTurned question.comes dates.old }
    ensures { Asks question.comes question.event parts.now (λ k. k == id.0) dates.old dates.new }
{
    parts.known();
    parts.interest.known();
    let Some(entry) = parts.interest.get(id) else {
        return;
    };
    if dates.is_dated(entry.number) == question.comes {
        return;
    }
    if shows(parts, dates, entry) != question.comes {
        return;
    }
    if question.comes {
        dates.begin(id, entry, question.event);
    } else {
        dates.end(id, entry);
    }
}

/// Asks the registrations under these keys, one after another.
pub fn ask_each(parts: &Parts, question: Question, ids: &[EntryId], dates: &mut Dates)
    requires event { 0 < question.event }
    requires kept { AreKept parts.now.interest dates.old }
    requires turned { AreTurned question.comes dates.old }
    ensures { Asks question.comes question.event parts.now (has_id ids.now) dates.old dates.new }
{
    for id in ids {
        let asked = question;
        ask(parts, asked, *id, dates);
    }
}

/// Asks the registrations on a description, in order of registration.
pub fn ask_watchers(parts: &Parts, question: Question, desc: DescId, dates: &mut Dates)
    requires event { 0 < question.event }
    requires kept { AreKept parts.now.interest dates.old }
    requires turned { AreTurned question.comes dates.old }
    ensures { Asks question.comes question.event parts.now (watches parts.now.interest desc.0)
        dates.old dates.new }
{
    parts.interest.known();
    for id in parts.interest.watchers(desc) {
        let asked = question;
        ask(parts, asked, id, dates);
    }
}

/// Whether a registration on an instance is reportable while that is ready: it is armed and asks for IN, and an
/// edge-triggered one needs something that arrived since its last report.
fn shows_in(entry: &Entry) -> bool
    ensures { result ≡ shows_ready entry.now }
{
    entry.armed
        && entry.mask.intersects(Mask::IN)
        && (!entry.mask.intersects(Mask::ET) || entry.fresh)
}

/// Asks the registration under a key, which is on an instance that turned. On one that is idle nothing is reportable.
fn ask_on_turned(parts: &Parts, question: Question, id: EntryId, dates: &mut Dates)
    requires event { 0 < question.event }
    requires kept { AreKept parts.now.interest dates.old }
    requires turned { AreTurned question.comes dates.old }
    requires there { IsOnTurned question.comes parts.now dates.old id }
    ensures { Asks question.comes question.event parts.now (λ k. k == id.0) dates.old dates.new }
{
    parts.interest.known();
    let Some(entry) = parts.interest.get(id) else {
        return;
    };
    if dates.is_dated(entry.number) == question.comes {
        return;
    }
    if !question.comes {
        dates.end(id, entry);
        return;
    }
    if shows_in(entry) {
        dates.begin(id, entry, question.event);
    }
}

/// Asks the registrations on an instance that turned, in order of registration.
fn ask_turned_watchers(parts: &Parts, question: Question, instance: DescId, dates: &mut Dates)
    requires event { 0 < question.event }
    requires kept { AreKept parts.now.interest dates.old }
    requires turned { AreTurned question.comes dates.old }
    requires nested { is_nested_key parts.now.tables instance ≡ true }
    requires ready { is_ready dates.old instance.0 ≡ question.comes }
    ensures { Asks question.comes question.event parts.now
        (watches parts.now.interest instance.0) dates.old dates.new }
{
    parts.interest.known();
    for id in parts.interest.watchers(instance) {
        let asked = question;
        ask_on_turned(parts, asked, id, dates);
    }
}

/// Asks the registrations on each instance whose readiness turned, from the one with this index on, and on each that
/// turns by that. Those on the instances before were asked since these turned.
#[inline(always)]
pub fn ask_turned(parts: &Parts, question: Question, from: usize, dates: &mut Dates)
    requires event { 0 < question.event }
    requires kept { AreKept parts.now.interest dates.old }
    requires turned { AreTurned question.comes dates.old }
    requires homes { AreHomes parts.now }
    requires instances { AreInstances parts.now dates.old.turned.reached }
    requires within { from ≤ length dates.old.turned.reached }
    ensures asks { Asks question.comes question.event parts.now (λ k. false) dates.old dates.new }
    ensures settled { (asked : ℕ → Bool)
        → AreSettled question.comes parts.now.interest (shows_over parts.now) dates.old
        (drop from dates.old.turned.reached) asked
        → AreSettled question.comes parts.now.interest (shows_over parts.now) dates.new [] asked }
    ensures watched { AreWatched question.comes parts.now dates.old
        (take from dates.old.turned.reached)
        → AreWatched question.comes parts.now dates.new dates.new.turned.reached }
{
    dates.known();
    if !has_links(&parts.graph) {
        return;
    }
    let mut index = from;
    while index < dates.turned_count() {
        let asked = question;
        ask_turned_watchers(parts, asked, dates.turned_at(index), dates);
        dates.known();
        index += 1;
    }
}
