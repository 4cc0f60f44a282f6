//! Worked runs of instances that watch instances.
ghost use Rattle.std.specs.Prelude.{◌≡◌, ◌∷◌, [], true, false};
ghost use Rattle.ep_base.specs.Limits.{default_limits};
ghost use Rattle.ep_base.specs.declared.errno.Errno.TheVariants.{Einval, Eloop, Enospc};
ghost use Rattle.ep_runs.specs.NestRuns.{added_below_run, depth_run, disarmed_run, emptied_run, levels_run, loop_first_run};
ghost use Rattle.ep_runs.specs.Records.{report, small_limits};
ghost use Rattle.ep_machine.specs.Run.{is_run};

/// ELOOP of epoll_ctl(2): five instances may watch each other in a chain.
pub fn depth()
    ensures run { is_run default_limits (depth_run Eloop) ≡ true }
    ensures no_run { is_run default_limits (depth_run Einval) ≡ false }
{}

/// ELOOP is tested before ENOSPC.
pub fn loop_first()
    ensures run { is_run (small_limits 16 16 1) (loop_first_run Eloop) ≡ true }
    ensures no_run { is_run (small_limits 16 16 1) (loop_first_run Enospc) ≡ false }
{}

/// epoll(7): an instance is readable while something is ready in it.
pub fn emptied()
    ensures run { is_run default_limits (emptied_run [] []) ≡ true }
    ensures no_run { is_run default_limits (emptied_run (report 1 4 ∷ []) (2 ∷ [])) ≡ false }
{}

/// EPOLLONESHOT of epoll_ctl(2), within an instance that is watched.
pub fn disarmed()
    ensures run { is_run default_limits (disarmed_run [] []) ≡ true }
    ensures no_run { is_run default_limits (disarmed_run (report 1 5 ∷ []) (3 ∷ [])) ≡ false }
{}

/// EPOLLET of epoll(7), through five instances.
pub fn levels()
    ensures run { is_run default_limits (levels_run (report 1 7 ∷ []) (5 ∷ [])) ≡ true }
    ensures no_run { is_run default_limits (levels_run [] []) ≡ false }
{}

/// EPOLL_CTL_ADD of epoll_ctl(2) looks at its target at once, and so do the instances above.
pub fn added_below()
    ensures run { is_run default_limits (added_below_run (report 1 7 ∷ []) (1 ∷ [])) ≡ true }
    ensures no_run { is_run default_limits (added_below_run [] []) ≡ false }
{}
