//! Worked runs of edge-triggered registrations.
ghost use Rattle.std.specs.Prelude.{◌≡◌, ◌∷◌, [], true, false};
ghost use Rattle.ep_base.specs.Limits.{default_limits};
ghost use Rattle.ep_runs.specs.EdgeRuns.{armed_again_run, drained_run, edge_run, modified_run, periodic_run, shut_again_run};
ghost use Rattle.ep_runs.specs.Records.{report, small_limits};
ghost use Rattle.ep_machine.specs.Run.{is_run};

/// EPOLLET of epoll(7): an arrival is reported once, whatever goes on being readable.
pub fn edge()
    ensures run { is_run default_limits (edge_run [] []) ≡ true }
    ensures no_run { is_run default_limits (edge_run (report 1 3 ∷ []) (1 ∷ [])) ≡ false }
{}

/// timerfd_create(2): a periodic timer becomes readable again only after a read.
pub fn periodic()
    ensures run { is_run default_limits (periodic_run [] []) ≡ true }
    ensures no_run { is_run default_limits (periodic_run (report 1 9 ∷ []) (1 ∷ [])) ≡ false }
{}

/// EPOLL_CTL_MOD of epoll_ctl(2) looks at the target anew.
pub fn modified()
    ensures run { is_run default_limits (modified_run (report 1 5 ∷ []) (1 ∷ [])) ≡ true }
    ensures no_run { is_run default_limits (modified_run [] []) ≡ false }
{}

/// shutdown(2) of an end that is shut.
pub fn shut_again()
    ensures run { is_run default_limits (shut_again_run [] []) ≡ true }
    ensures no_run { is_run default_limits (shut_again_run (report 8193 3 ∷ []) (1 ∷ [])) ≡ false }
{}

/// pipe(7): the read that makes room for 4,096 bytes makes the other end writable.
pub fn drained()
    ensures run { is_run (small_limits 16 16 8) (drained_run [] []) ≡ true }
    ensures no_run { is_run (small_limits 16 16 8) (drained_run (report 4 4 ∷ []) (1 ∷ []))
        ≡ false }
{}

/// timerfd_settime(2) to a moment that has passed.
pub fn armed_again()
    ensures run { is_run default_limits (armed_again_run (report 1 3 ∷ []) (1 ∷ [])) ≡ true }
    ensures no_run { is_run default_limits (armed_again_run [] []) ≡ false }
{}
