//! Worked runs of one-shots and of the key of a registration.
ghost use Rattle.std.specs.Prelude.{◌≡◌, ◌∷◌, [], true, false};
ghost use Rattle.ep_base.specs.Limits.{default_limits};
ghost use Rattle.ep_base.specs.declared.errno.Errno.TheVariants.{Eexist, Enoent};
ghost use Rattle.ep_runs.specs.Records.{report};
ghost use Rattle.ep_runs.specs.RegistrationRuns.{key_run, one_shot_run};
ghost use Rattle.ep_machine.specs.Run.{is_run};

/// EPOLLONESHOT of epoll_ctl(2): after its report a registration shows nothing until MOD.
pub fn one_shot()
    ensures run { is_run default_limits (one_shot_run [] []) ≡ true }
    ensures no_run { is_run default_limits (one_shot_run (report 17 7 ∷ []) (1 ∷ [])) ≡ false }
{}

/// epoll(7): an interest set holds pairs of a descriptor number and an open file description.
pub fn key()
    ensures run { is_run default_limits (key_run Enoent) ≡ true }
    ensures no_run { is_run default_limits (key_run Eexist) ≡ false }
{}
