//! The descriptor tables of all processes, by process number. A process that has ended has none.
ghost use Rattle.std.specs.Prelude.{◌+◌, ◌<◌, ◌≡◌, ◌^◌, None, OnErr, OnOk, option_copied, slice_index_or, slice_set};
ghost use Rattle.ep_machine.specs.Lists.{enter as entered_at, lowest_free};
ghost use Rattle.ep_table.specs.Processes.{HasRoom, change_at, entered, items_of, kept_in, left, lists, process_of, put_at, slots_of};
ghost use Rattle.ep_table.specs.declared.words.Descriptor.{Descriptor as the_descriptor};

use crate::table::Table;
use crate::words::Descriptor;
use ep_base::Pid;
use std::alloc::{AllocError, Allocator};

/// The table of a process.
pub fn table_at<A: Allocator>(processes: &[Option<Table<A>>], pid: Pid) -> Option<&Table<A>>
    ensures { option_copied result ≡ slice_index_or processes.now pid.0 None }
{
    match processes.get(pid.0 as usize) {
        Some(Some(table)) => Some(table),
        _ => None,
    }
}

/// The lowest free number of a process.
pub fn lowest<A: Allocator>(processes: &[Option<Table<A>>], pid: Pid) -> usize
    ensures { result ≡ lowest_free (slots_of (process_of processes.now pid.0)) }
{
    match table_at(processes, pid) {
        Some(table) => table.lowest(),
        None => 0,
    }
}

/// The lowest free number of a process once the lowest one is taken.
pub fn second<A: Allocator>(processes: &[Option<Table<A>>], pid: Pid) -> usize
    ensures { (x : the_descriptor)
        → result ≡ lowest_free (entered_at (slots_of (process_of processes.now pid.0)) x) }
{
    match table_at(processes, pid) {
        Some(table) => table.second(),
        None => 1,
    }
}

/// What a number of a process names.
pub fn descriptor_at<A: Allocator>(
    processes: &[Option<Table<A>>],
    pid: Pid,
    number: usize,
) -> Option<Descriptor>
    ensures { result ≡ slice_index_or (slots_of (process_of processes.now pid.0)) number None }
{
    match table_at(processes, pid) {
        Some(table) => table.get(number),
        None => None,
    }
}

fn reserve_in<A: Allocator>(
    process: &mut Option<Table<A>>,
    additional: usize,
) -> Result<(), AllocError>
    ensures items { items_of process.new ≡ items_of process.old }
    ensures room { OnOk result (HasRoom process.new additional) }
{
    match process {
        Some(table) => table.reserve(additional),
        None => Ok(()),
    }
}

fn enter_in<A: Allocator>(process: &mut Option<Table<A>>, descriptor: Descriptor)
    requires { HasRoom process.old 1 }
    ensures { items_of process.new ≡ entered (items_of process.old) descriptor }
{
    if let Some(table) = process {
        table.enter(descriptor);
    }
}

fn enter_two_in<A: Allocator>(process: &mut Option<Table<A>>, first: Descriptor, second: Descriptor)
    requires { HasRoom process.old 2 }
    ensures { items_of process.new ≡ entered (entered (items_of process.old) first) second }
{
    if let Some(table) = process {
        table.enter(first);
        table.enter(second);
    }
}

/// Makes room for so many more numbers of a process.
pub fn reserve<A: Allocator>(
    processes: &mut Vec<Option<Table<A>>, A>,
    pid: Pid,
    additional: usize,
) -> Result<(), AllocError>
    ensures lists { lists processes.new.items ≡ lists processes.old.items }
    ensures room { OnOk result
        (HasRoom (slice_index_or processes.new.items pid.0 None) additional) }
{
    let at = pid.0 as usize;
    if at < processes.len() {
        reserve_in(&mut processes[at], additional)?;
    }
    Ok(())
}

/// Puts a descriptor at the lowest free number of a process.
pub fn enter<A: Allocator>(
    processes: &mut Vec<Option<Table<A>>, A>,
    pid: Pid,
    descriptor: Descriptor,
)
    requires { HasRoom (slice_index_or processes.old.items pid.0 None) 1 }
    ensures { lists processes.new.items
        ≡ change_at processes.old.items pid.0 (λ q. entered q descriptor) }
{
    let at = pid.0 as usize;
    if at < processes.len() {
        enter_in(&mut processes[at], descriptor);
    }
}

/// Puts two descriptors at the lowest free numbers of a process, the first at the lower one.
pub fn enter_two<A: Allocator>(
    processes: &mut Vec<Option<Table<A>>, A>,
    pid: Pid,
    first: Descriptor,
    second: Descriptor,
)
    requires { HasRoom (slice_index_or processes.old.items pid.0 None) 2 }
    ensures { lists processes.new.items
        ≡ change_at processes.old.items pid.0 (λ q. entered (entered q first) second) }
{
    let at = pid.0 as usize;
    if at < processes.len() {
        enter_two_in(&mut processes[at], first, second);
    }
}

fn leave_in<A: Allocator>(process: &mut Option<Table<A>>, number: usize)
    ensures { items_of process.new ≡ left (items_of process.old) number }
{
    if let Some(table) = process {
        table.leave(number);
    }
}

/// Frees a number of a process.
pub fn leave<A: Allocator>(processes: &mut Vec<Option<Table<A>>, A>, pid: Pid, number: usize)
    ensures { lists processes.new.items ≡ change_at processes.old.items pid.0 (λ q. left q number) }
{
    let at = pid.0 as usize;
    if at < processes.len() {
        leave_in(&mut processes[at], number);
    }
}

fn put_in<A: Allocator>(
    process: &mut Option<Table<A>>,
    number: usize,
    descriptor: Descriptor,
) -> Result<(), AllocError>
    requires { number + 1 < 2 ^ 64 }
    ensures ok { OnOk result
        (items_of process.new ≡ put_at (items_of process.old) number descriptor) }
    ensures err { OnErr result (items_of process.new ≡ items_of process.old) }
{
    match process {
        Some(table) => table.put(number, descriptor),
        None => Ok(()),
    }
}

/// Puts a descriptor at a number of a process. An `AllocError` leaves the tables.
pub fn put<A: Allocator>(
    processes: &mut Vec<Option<Table<A>>, A>,
    pid: Pid,
    number: usize,
    descriptor: Descriptor,
) -> Result<(), AllocError>
    requires { number + 1 < 2 ^ 64 }
    ensures ok { OnOk result
        (lists processes.new.items
        ≡ change_at processes.old.items pid.0 (λ q. put_at q number descriptor)) }
    ensures err { OnErr result (lists processes.new.items ≡ lists processes.old.items) }
{
    let at = pid.0 as usize;
    if at < processes.len() {
        put_in(&mut processes[at], number, descriptor)?;
    }
    Ok(())
}

fn close_flagged_in<A: Allocator>(process: &mut Option<Table<A>>)
    ensures { items_of process.new ≡ kept_in (items_of process.old) }
{
    if let Some(table) = process {
        table.close_flagged();
    }
}

/// Frees the numbers of a process whose close-on-exec flag is on.
pub fn close_flagged<A: Allocator>(processes: &mut Vec<Option<Table<A>>, A>, pid: Pid)
    ensures { lists processes.new.items ≡ change_at processes.old.items pid.0 kept_in }
{
    let at = pid.0 as usize;
    if at < processes.len() {
        close_flagged_in(&mut processes[at]);
    }
}

/// Takes the table of a process away.
pub fn end<A: Allocator>(processes: &mut Vec<Option<Table<A>>, A>, pid: Pid)
    ensures { lists processes.new.items ≡ slice_set (lists processes.old.items) pid.0 None }
{
    let at = pid.0 as usize;
    if at < processes.len() {
        processes[at] = None;
    }
}
