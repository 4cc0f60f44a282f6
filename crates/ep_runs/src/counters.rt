//! Worked runs of counters.
ghost use Rattle.std.specs.Prelude.{◌≡◌, true, false};
ghost use Rattle.ep_base.specs.Limits.{default_limits};
ghost use Rattle.ep_base.specs.declared.errno.Errno.TheVariants.{Eagain, Einval};
ghost use Rattle.ep_runs.specs.CounterRuns.{greatest_run, semaphore_run};
ghost use Rattle.ep_machine.specs.Run.{is_run};

/// eventfd(2): the greatest value of a counter is 2^64 - 2.
pub fn greatest_count()
    ensures run { is_run default_limits (greatest_run Eagain) ≡ true }
    ensures no_run { is_run default_limits (greatest_run Einval) ≡ false }
{}

/// EFD_SEMAPHORE of eventfd(2).
pub fn semaphore()
    ensures run { is_run default_limits (semaphore_run 1) ≡ true }
    ensures no_run { is_run default_limits (semaphore_run 2) ≡ false }
{}
