//! Worked runs of registrations with EXCLUSIVE.
ghost use Rattle.std.specs.Prelude.{◌≡◌, [], true, false};
ghost use Rattle.ep_base.specs.Limits.{default_limits};
ghost use Rattle.ep_base.specs.declared.answer.Answer.TheVariants.{Still};
ghost use Rattle.ep_base.specs.declared.errno.Errno.TheVariants.{Einval, Enoent};
ghost use Rattle.ep_machine.specs.Run.{is_run};
ghost use Rattle.ep_runs.specs.ExclusiveRuns.{added_run, leaving_run, shared_run, unguarded_run};
ghost use Rattle.ep_runs.specs.ParkRuns.{told};
ghost use Rattle.ep_runs.specs.Records.{resumed};

/// EPOLLEXCLUSIVE of epoll_ctl(2): of the instances that watch a file so, a write wakes the one that was registered
/// first.
pub fn shared()
    ensures run { is_run default_limits
        (shared_run (resumed 2 Still []) (told 1 4 1) (told 2 5 2) Einval) ≡ true }
    ensures no_last { is_run default_limits
        (shared_run (told 2 5 2) (told 1 4 1) (resumed 2 Still []) Einval) ≡ false }
    ensures no_none { is_run default_limits
        (shared_run (resumed 2 Still []) (resumed 1 Still []) (told 2 5 2) Einval) ≡ false }
    ensures no_mod { is_run default_limits
        (shared_run (resumed 2 Still []) (told 1 4 1) (told 2 5 2) Enoent) ≡ false }
{}

/// ADD of what is reportable wakes its instance, with EXCLUSIVE too.
pub fn added()
    ensures run { is_run default_limits (added_run (told 1 4 1)) ≡ true }
    ensures no_run { is_run default_limits (added_run (resumed 1 Still [])) ≡ false }
{}

/// An instance that loses its guard is marked as any other, if its waiter was passed over before.
pub fn unguarded()
    ensures run { is_run default_limits (unguarded_run (told 2 7 4)) ≡ true }
    ensures no_run { is_run default_limits (unguarded_run (resumed 2 Still [])) ≡ false }
{}

/// If a caller leaves a guarded instance that is still ready, the next one is marked.
pub fn leaving()
    ensures run { is_run default_limits (leaving_run (told 2 4 1)) ≡ true }
    ensures no_run { is_run default_limits (leaving_run (resumed 2 Still [])) ≡ false }
{}
