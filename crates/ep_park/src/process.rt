//! How many callers of each process are parked, so that no question about it looks at other waiters.
ghost use Rattle.std.specs.Prelude.{◌≡◌, ◌<◌, IsSome, Some, nat_eq, unwrap_or};
ghost use Rattle.indexmap.specs.IndexMap.{get, spare};
ghost use Rattle.ep_park.specs.Processes.{one_less, one_more};
ghost use Rattle.ep_park.specs.Tallies.{Rewrites};

use ep_base::Pid;
use indexmap::IndexMap;
use std::alloc::Allocator;
use std::hash::{BuildHasherDefault, FoldHasher};

/// The number of parked callers by process. A process without any isn't there.
pub type Processes<A> = IndexMap<u64, usize, BuildHasherDefault<FoldHasher>, A>;

/// Counts a caller of a process more, where there is room for a process more.
pub fn join<A: Allocator>(processes: &mut Processes<A>, process: Pid)
    requires room { 0 < spare processes.old }
    requires most { unwrap_or (get nat_eq processes.old process.0) 0 < usize.MAX }
    ensures { Rewrites processes.old.entries processes.new.entries process.0
        (one_more (get nat_eq processes.old process.0)) }
{
    let others = processes.get(&process.0).copied().unwrap_or(0);
    processes.insert(process.0, others + 1).unwrap();
}

/// Counts a caller of a process less.
pub fn quit<A: Allocator>(processes: &mut Processes<A>, process: Pid)
    requires { IsSome (get nat_eq processes.old process.0) }
    ensures { Rewrites processes.old.entries processes.new.entries process.0
        (one_less (unwrap_or (get nat_eq processes.old process.0) 0)) }
{
    let callers = processes[&process.0];
    if callers > 1 {
        rewrite(processes, process, callers - 1);
    } else {
        processes.swap_remove(&process.0);
    }
}

/// Writes the number of a process that has one.
fn rewrite<A: Allocator>(processes: &mut Processes<A>, process: Pid, callers: usize)
    requires { IsSome (get nat_eq processes.old process.0) }
    ensures { Rewrites processes.old.entries processes.new.entries process.0 (Some callers) }
{
    if let Some(place) = processes.get_mut(&process.0) {
        *place = callers;
    }
}
