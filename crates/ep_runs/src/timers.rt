//! Worked runs of timers.
ghost use Rattle.std.specs.Prelude.{◌≡◌, true, false};
ghost use Rattle.ep_base.specs.Limits.{default_limits};
ghost use Rattle.ep_base.specs.declared.errno.Errno.TheVariants.{Eagain, Ebadf, Einval};
ghost use Rattle.ep_runs.specs.Records.{small_limits};
ghost use Rattle.ep_machine.specs.Run.{is_run};
ghost use Rattle.ep_runs.specs.TimerRuns.{once_run, passed_run, timer_refused_run};

/// TFD_TIMER_ABSTIME of timerfd_settime(2), with a moment that has passed.
pub fn passed_moment()
    ensures run { is_run default_limits (passed_run 2) ≡ true }
    ensures no_run { is_run default_limits (passed_run 1) ≡ false }
{}

/// timerfd_create(2): a timer that expires once, and the last moment of the clock.
pub fn last_moment()
    ensures run { is_run default_limits (once_run Einval) ≡ true }
    ensures no_run { is_run default_limits (once_run Eagain) ≡ false }
{}

/// EBADF, EINVAL and EMFILE of timers.
pub fn timer_refusals()
    ensures run { is_run (small_limits 6 16 8) (timer_refused_run Einval) ≡ true }
    ensures no_run { is_run (small_limits 6 16 8) (timer_refused_run Ebadf) ≡ false }
{}
