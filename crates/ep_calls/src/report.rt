//! What a wait reports, and what it leaves of the registrations that it does.
ghost use Rattle.std.specs.Prelude.{◌≡◌, All, IfOk, None, OnErr, Some, map, true};
ghost use Rattle.ep_base.specs.declared.answer.Answer.TheVariants.{Events};
ghost use Rattle.ep_interest.specs.Registrations.{number_under as number_of_entry};
ghost use Rattle.ep_calls.specs.Kept.{IsKept};
ghost use Rattle.ep_calls.specs.KeptRecords.{AreCopies, IsInline, spare_in};
ghost use Rattle.ep_calls.specs.Reports.{Reports};
ghost use Rattle.ep_calls.specs.Wait.{with_report, numbers_of, report_of};
ghost use Rattle.ep_calls.specs.declared.raising.Raising.TheVariants.{Nowhere};

use crate::copies::Copies;
use crate::picks::Picks;
use crate::raising::Raising;
use crate::reply::Reply;
use crate::wait::Reportable;
use crate::{Outcome, Spare};
use ep_base::{Answer, EventNumber, Picked, Report, Reports as ReportList};
use ep_interest::Interest;
use smallvec::SmallVec;
use std::alloc::{AllocError, Global};

/// As many reports as take no memory.
const INLINE: usize = 4;

/// What is reported of a registration.
fn report_of(x: &Reportable) -> Report
    ensures { result ≡ report_of x.now }
{
    Report {
        bits: x.bits,
        tag: x.entry.tag,
    }
}

/// What is reported of them.
fn reports_of(alloc: Global, chosen: &[Reportable]) -> Result<ReportList, AllocError>
    ensures { IfOk result (λ reports. reports ≡ map report_of chosen.now) }
{
    let mut reports = SmallVec::with_capacity(alloc, chosen.len())?;
    for x in chosen {
        reports.push_reserved(report_of(x));
    }
    Ok(ReportList::new(reports))
}

/// Their numbers.
fn picked_of(alloc: Global, chosen: &[Reportable]) -> Result<Picked, AllocError>
    ensures { IfOk result (λ picked. picked ≡ numbers_of chosen.now) }
{
    let mut picked = SmallVec::with_capacity(alloc, chosen.len())?;
    for x in chosen {
        picked.push_reserved(x.entry.number);
    }
    Ok(Picked::new(picked))
}

/// Notes that they are reported in this step.
#[inline(always)]
fn note(interest: &mut Interest, step: EventNumber, chosen: &[Reportable])
    requires { All (λ x. number_of_entry interest.old x.id ≡ Some x.entry.number) chosen.now }
    ensures entries { interest.new.entries
        ≡ map (with_report step (numbers_of chosen.now)) interest.old.entries }
    ensures keys { interest.new.keys ≡ interest.old.keys }
    ensures added { interest.new.added ≡ interest.old.added }
{
    for x in chosen {
        interest.report(x.id, step);
    }
}

/// The copies of such a report that take memory: the reports for the history, and both for a second record if one is
/// asked for.
#[cold]
#[inline(never)]
fn copies_of(
    alloc: Global,
    reports: &ReportList,
    picked: &Picked,
    kept: bool,
) -> Result<Box<Copies>, AllocError>
    ensures copied { IfOk result
        (λ copies. AreCopies (Some copies) (Events reports.now) picked.now) }
    ensures kept { IfOk result (λ copies. kept ≡ true → spare_in (Some copies) ≡ None → ⊥) }
{
    let recorded = Answer::Events(reports.copy()?);
    let spare = if kept {
        let answer = Answer::Events(reports.copy()?);
        let picked = picked.copy()?;
        Some(Spare { answer, picked })
    } else {
        None
    };
    Ok(Box::new(alloc, Copies { recorded, spare })?)
}

/// What a wait answers, by whom, and what is copied of it.
#[derive(Drop)]
struct Told {
    answer: Reply,
    picked: Picks,
    copies: Option<Box<Copies>>,
}

/// What is told of several.
#[inline(never)]
fn told_of_many(alloc: Global, chosen: &[Reportable], kept: bool) -> Result<Told, AllocError>
    ensures answer { IfOk result (λ told. told.answer ≡ Events (map report_of chosen.now)) }
    ensures picked { IfOk result (λ told. told.picked ≡ numbers_of chosen.now) }
    ensures copied { IfOk result (λ told. AreCopies told.copies told.answer told.picked) }
    ensures kept { IfOk result (λ told. kept ≡ true → spare_in told.copies ≡ None
        → IsInline told.answer told.picked) }
{
    let reports = reports_of(alloc, chosen)?;
    let picked = picked_of(alloc, chosen)?;
    let copies = if chosen.len() > INLINE {
        Some(copies_of(alloc, &reports, &picked, kept)?)
    } else {
        None
    };
    Ok(Told {
        answer: Reply::many(Box::new(alloc, reports)?),
        picked: Picks::many(Box::new(alloc, picked)?),
        copies,
    })
}

/// What is told of them. One report takes no memory. `kept`: a second record of it is asked for.
#[inline(always)]
fn told_of(alloc: Global, chosen: &[Reportable], kept: bool) -> Result<Told, AllocError>
    ensures answer { IfOk result (λ told. told.answer ≡ Events (map report_of chosen.now)) }
    ensures picked { IfOk result (λ told. told.picked ≡ numbers_of chosen.now) }
    ensures copied { IfOk result (λ told. AreCopies told.copies told.answer told.picked) }
    ensures kept { IfOk result (λ told. kept ≡ true → spare_in told.copies ≡ None
        → IsInline told.answer told.picked) }
{
    if chosen.len() > 1 {
        return told_of_many(alloc, chosen, kept);
    }
    let (answer, picked) = match chosen.first() {
        Some(x) => (Reply::one(report_of(x)), Picks::one(x.entry.number)),
        None => (
            Reply::of(Answer::Events(ReportList::empty(alloc))),
            Picks::none(),
        ),
    };
    Ok(Told {
        answer,
        picked,
        copies: None,
    })
}

/// Reports them, and notes that it did. `kept`: a second record of it is asked for.
/// An `Err` is want of memory and leaves the registrations.
#[inline(always)]
pub fn report(
    alloc: Global,
    interest: &mut Interest,
    step: EventNumber,
    chosen: &[Reportable],
    kept: bool,
) -> Result<Outcome, AllocError>
    requires keyed { All (λ x. number_of_entry interest.old x.id ≡ Some x.entry.number) chosen.now }
    ensures keys { interest.new.keys ≡ interest.old.keys }
    ensures ok { IfOk result
        (λ outcome. Reports interest.old interest.new step chosen.now outcome.answer
        outcome.picked) }
    ensures kept { IfOk result (λ outcome. IsKept kept outcome) }
    ensures raising { IfOk result (λ outcome. outcome.raising ≡ Nowhere) }
    ensures err { OnErr result (interest.new ≡ interest.old) }
{
    let told = told_of(alloc, chosen, kept)?;
    note(interest, step, chosen);
    Ok(Outcome::new(told.answer, told.picked, told.copies, Raising::Nowhere))
}
