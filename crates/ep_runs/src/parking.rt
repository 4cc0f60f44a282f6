//! Worked runs of waits that park.
ghost use Rattle.std.specs.Prelude.{◌≡◌, ◌∷◌, [], true, false};
ghost use Rattle.ep_base.specs.Limits.{default_limits};
ghost use Rattle.ep_base.specs.declared.answer.Answer.TheVariants.{Done, Events, Refused, Still};
ghost use Rattle.ep_base.specs.declared.errno.Errno.TheVariants.{Ebusy, Einval, Enospc};
ghost use Rattle.ep_runs.specs.ParkRuns.{busy_run, closed_run, expired_run, taken_run, told, turns_run};
ghost use Rattle.ep_runs.specs.Records.{report, resumed, small_limits};
ghost use Rattle.ep_machine.specs.Run.{is_run};

/// epoll_wait(2): of the callers that wait at one instance the one that was parked first is woken first.
pub fn turns()
    ensures run { is_run default_limits (turns_run (resumed 2 Still []) (told 1 3 1) (told 2 4 2))
        ≡ true }
    ensures other_run { is_run default_limits
        (turns_run (resumed 2 Still []) (told 1 4 2) (told 2 3 1)) ≡ true }
    ensures no_run { is_run default_limits
        (turns_run (resumed 2 Still []) (told 1 3 1) (told 2 3 1)) ≡ false }
    ensures no_turn { is_run default_limits
        (turns_run (told 2 3 1) (told 1 4 2) (resumed 2 (Refused Einval) [])) ≡ false }
{}

/// EBUSY of a parked caller, and of exit(2) and execve(2) beside one.
pub fn busy()
    ensures run { is_run default_limits (busy_run Ebusy) ≡ true }
    ensures no_run { is_run default_limits (busy_run Einval) ≡ false }
{}

/// epoll(7): a wait holds its instance when the last descriptor of it is closed.
pub fn held()
    ensures run { is_run (small_limits 16 16 1) (closed_run Done) ≡ true }
    ensures no_run { is_run (small_limits 16 16 1) (closed_run (Refused Enospc)) ≡ false }
{}

/// epoll_wait(2): a timeout ends a wait, with what is ready by then.
pub fn timed_out()
    ensures run { is_run default_limits (expired_run (report 1 3 ∷ report 1 4 ∷ []) (1 ∷ 2 ∷ []))
        ≡ true }
    ensures other_run { is_run default_limits
        (expired_run (report 1 4 ∷ report 1 3 ∷ []) (2 ∷ 1 ∷ [])) ≡ true }
    ensures no_run { is_run default_limits (expired_run [] []) ≡ false }
{}

/// epoll_wait(2): a caller that is woken for what another caller has taken waits on.
pub fn taken()
    ensures run { is_run default_limits (taken_run (resumed 1 Still [])) ≡ true }
    ensures no_run { is_run default_limits (taken_run (resumed 1 (Events []) [])) ≡ false }
{}
