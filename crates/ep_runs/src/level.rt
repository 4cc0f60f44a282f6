//! Worked runs of level-triggered registrations.
ghost use Rattle.std.specs.Prelude.{◌≡◌, ◌∷◌, [], true, false, Some};
ghost use Rattle.ep_base.specs.Limits.{default_limits};
ghost use Rattle.ep_base.specs.declared.answer.Answer.TheVariants.{Num, Refused};
ghost use Rattle.ep_base.specs.declared.errno.Errno.TheVariants.{Eagain};
ghost use Rattle.ep_runs.specs.LevelRuns.{fair_run, full_pipe_run, level_run};
ghost use Rattle.ep_runs.specs.Records.{answered, create_call, report};
ghost use Rattle.ep_machine.specs.Run.{is_run, run};
ghost use Rattle.ep_machine.specs.State.{opening};

/// A run of no records ends in the opening state; in that state the lowest free descriptor number is 3.
pub fn empty()
    ensures run { run default_limits opening [] ≡ Some opening }
    ensures no_run { is_run default_limits (answered create_call (Num 4) ∷ []) ≡ false }
{}

/// epoll(7), level-triggered: what is not read yet is reported again.
pub fn level()
    ensures run { is_run default_limits (level_run (report 1 3 ∷ []) (1 ∷ [])) ≡ true }
    ensures no_run { is_run default_limits (level_run [] []) ≡ false }
    ensures no_pick { is_run default_limits (level_run (report 1 3 ∷ []) []) ≡ false }
{}

/// pipe(7): a full pipe takes nothing, and is writable again once there is room for 4,096 bytes.
pub fn full_pipe()
    ensures run { is_run default_limits (full_pipe_run (Refused Eagain)) ≡ true }
    ensures no_run { is_run default_limits (full_pipe_run (Num 4095)) ≡ false }
{}

/// epoll_wait(2): of three ready descriptors waits for one event report each once before any again, and then in the
/// same order.
pub fn fair()
    ensures run { is_run default_limits (fair_run (1 ∷ 2 ∷ 3 ∷ 1 ∷ 2 ∷ 3 ∷ [])) ≡ true }
    ensures other_run { is_run default_limits (fair_run (2 ∷ 3 ∷ 1 ∷ 2 ∷ 3 ∷ 1 ∷ [])) ≡ true }
    ensures no_run { is_run default_limits (fair_run (1 ∷ 2 ∷ 1 ∷ [])) ≡ false }
    ensures no_next_run { is_run default_limits (fair_run (1 ∷ 2 ∷ 3 ∷ 1 ∷ 3 ∷ [])) ≡ false }
{}
