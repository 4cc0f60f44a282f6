//! Which registrations a wait reports: of those of its instance that are reportable the longest unreported.
ghost use Rattle.std.specs.Prelude.{◌≡◌, IfOk, IsSome, map, true};
ghost use Rattle.ep_calls.specs.Readiness.{entry_bits, readiness};
ghost use Rattle.ep_table.specs.Value.{number_under};
ghost use Rattle.ep_machine.specs.Waits.{is_positive};
ghost use Rattle.ep_machine.specs.Watches.{number_in};
ghost use Rattle.ep_calls.specs.Wait.{AreKeyed};
ghost use Rattle.ep_plain.specs.Choose.{IsChosen, reportables_at};
ghost use Rattle.ep_plain.specs.Exact.{TellsReady, TellsShown};

use ep_base::{DescId, EntryId};
use ep_calls::{Parts, Reportable, shown_at};
use ep_dates::Dates;
use ep_interest::Entry;
use std::alloc::AllocError;

/// A registration with its key and what it shows. Of the instance that it watches only the dates are asked.
pub fn reportable(parts: &Parts, dates: &Dates, id: EntryId, entry: &Entry) -> Reportable
    requires target { IsSome (number_under parts.now.tables entry.now.desc) }
    requires ready { TellsReady parts.now dates.now }
    ensures id { result.id ≡ id }
    ensures entry { result.entry ≡ entry.now }
    ensures bits { result.bits.0
        ≡ entry_bits (readiness parts.now.tables parts.now.clock parts.now.interest)
        parts.now.tables parts.now.clock entry.now }
{
    parts.known();
    let below = dates.is_ready(entry.desc);
    Reportable {
        id,
        entry: *entry,
        bits: shown_at(&parts.tables, parts.clock, entry, below),
    }
}

/// The registrations of an instance that are reportable, in order of registration. The dates say which are.
fn reportables(
    parts: &Parts,
    dates: &Dates,
    instance: DescId,
) -> Result<Vec<Reportable>, AllocError>
    requires shown { TellsShown parts.now dates.now }
    requires ready { TellsReady parts.now dates.now }
    ensures entries { IfOk result
        (λ found. map (λ x. x.entry) found.items
        ≡ reportables_at parts.now.tables parts.now.clock parts.now.interest instance) }
    ensures keyed { IfOk result
        (λ found. AreKeyed parts.now.tables parts.now.clock parts.now.interest found.items) }
{
    parts.known();
    parts.interest.known();
    let mut found = Vec::new(parts.alloc);
    for (id, entry) in parts.interest.entries(instance) {
        if dates.is_dated(entry.number) {
            found.push(reportable(parts, dates, id, entry))?;
        }
    }
    Ok(found)
}

/// How many reports are asked for.
pub fn most(max: i32) -> usize
    requires { is_positive max ≡ true }
    ensures { result ≡ number_in max }
{
    max as usize
}

/// At most `max` of those of an instance that are reportable, the longest unreported first, so that none is passed over
/// for ever.
pub fn choose(
    parts: &Parts,
    dates: &Dates,
    instance: DescId,
    max: i32,
) -> Result<Vec<Reportable>, AllocError>
    requires positive { is_positive max ≡ true }
    requires shown { TellsShown parts.now dates.now }
    requires ready { TellsReady parts.now dates.now }
    ensures { IfOk result
        (λ chosen. IsChosen parts.now.tables parts.now.clock parts.now.interest instance
        (number_in max) chosen.items) }
{
    let mut chosen = reportables(parts, dates, instance)?;
    chosen.sort_by_key(|x| x.entry.reported_in.0)?;
    chosen.truncate(most(max));
    Ok(chosen)
}
