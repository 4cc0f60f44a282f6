//! Which instances lose a registration that may have guarded them.
ghost use Rattle.std.specs.List.{list_any};
ghost use Rattle.std.specs.Prelude.{◌≡◌, List, Some, map};
ghost use Rattle.ep_base.specs.declared.ids.DescId.{DescId as Key};
ghost use Rattle.ep_choice.specs.Lost.{deleted_by, dying_homes, guard_home, guard_homes, with_home};
ghost use Rattle.ep_climb.specs.Reach.{AreRoomy, Reaches};
ghost use Rattle.ep_interest.specs.Registrations.{entry_under};
ghost use Rattle.ep_table.specs.Value.{number_under};

use bitflags::Flags;
use ep_base::{DescId, EntryId, Mask};
use ep_calls::{Operation, Parts, Plan};
use ep_walk::Walk;
use std::alloc::Global;

/// The instance of the registration under a key, if that is exclusive or on an instance.
fn find_home(parts: &Parts, id: EntryId) -> Option<DescId>
    ensures { result ≡ guard_home parts.now.tables (entry_under parts.now.interest id) }
{
    parts.known();
    let entry = parts.interest.get(id)?;
    if entry.mask.intersects(Mask::EXCLUSIVE) || parts.tables.object(entry.desc).is_instance() {
        return Some(entry.instance);
    }
    None
}

/// Notes the instance of the registration under a key, if that is exclusive or on an instance.
#[cold]
#[inline(never)]
fn note(parts: &Parts, lost: &mut Walk<Global>, id: EntryId)
    requires room { AreRoomy parts.now.interest lost.old }
    ensures { lost.new
        ≡ with_home (guard_home parts.now.tables (entry_under parts.now.interest id)) lost.old }
{
    if let Some(instance) = find_home(parts, id) {
        lost.reach(instance.0);
    }
}

/// The same of each registration on a description.
fn note_watchers(parts: &Parts, lost: &mut Walk<Global>, desc: DescId)
    requires room { AreRoomy parts.now.interest lost.old }
    ensures { Reaches (guard_homes parts.now.tables parts.now.interest desc) lost.old lost.new }
{
    parts.interest.known();
    for id in parts.interest.watchers(desc) {
        note(parts, lost, id);
    }
}

/// The same of each registration on a description that nothing names or holds any more.
#[cold]
#[inline(never)]
fn note_each(parts: &Parts, lost: &mut Walk<Global>)
    requires room { AreRoomy parts.now.interest lost.old }
    ensures { (dying : List Key)
        × (map (number_under parts.now.tables) dying ≡ map Some parts.now.tables.dying)
        × Reaches
        (λ k. list_any (λ (d : Key). guard_homes parts.now.tables parts.now.interest d k) dying)
        lost.old lost.new }
{
    for desc in parts.tables.dying() {
        note_watchers(parts, lost, desc);
    }
}

/// Notes, before a DEL, the instance that loses a registration by it, if that is exclusive or on an instance and so may
/// guard it, or what is above it. Nothing is noted while no registration is exclusive.
#[inline(always)]
pub fn note_deleted(parts: &Parts, lost: &mut Walk<Global>, plan: Plan)
    requires room { AreRoomy parts.now.interest lost.old }
    ensures { lost.new ≡ with_home (deleted_by plan parts.now) lost.old }
{
    if parts.interest.guards() == 0 {
        return;
    }
    let Operation::Delete = plan.operation else {
        return;
    };
    if let Some(id) = plan.found {
        note(parts, lost, id);
    }
}

/// Notes, before a burial, the same of each registration on a description that nothing names or holds any more. Those
/// of instances that die, too, may be noted: nobody waits there, and nothing is above them. The time grows with the
/// registrations on the dying; nothing is looked at while no registration is exclusive.
#[inline(always)]
pub fn note_dying(parts: &Parts, lost: &mut Walk<Global>)
    requires room { AreRoomy parts.now.interest lost.old }
    ensures { (dying : List Key)
        × (map (number_under parts.now.tables) dying ≡ map Some parts.now.tables.dying)
        × Reaches (dying_homes parts.now dying) lost.old lost.new }
{
    parts.known();
    if parts.interest.guards() == 0 {
        return;
    }
    note_each(parts, lost);
}
