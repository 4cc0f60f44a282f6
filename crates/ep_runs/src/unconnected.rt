//! Worked runs of sockets without a connection.
ghost use Rattle.std.specs.Prelude.{◌≡◌, true, false};
ghost use Rattle.ep_base.specs.Limits.{default_limits};
ghost use Rattle.ep_base.specs.declared.errno.Errno.TheVariants.{Eagain, Econnaborted, Econnrefused, Einval};
ghost use Rattle.ep_machine.specs.Run.{is_run};
ghost use Rattle.ep_runs.specs.UnconnectedRuns.{fresh_run, names_run, refused_connect};

/// connect(2) of a TCP socket where nobody listens.
pub fn connect_refused()
    ensures run { is_run default_limits (refused_connect Econnaborted) ≡ true }
    ensures no_run { is_run default_limits (refused_connect Econnrefused) ≡ false }
{}

/// Sockets that were never connected.
pub fn fresh_sockets()
    ensures run { is_run default_limits (fresh_run Einval) ≡ true }
    ensures no_run { is_run default_limits (fresh_run Eagain) ≡ false }
{}

/// The names that sockets are bound to.
pub fn names()
    ensures run { is_run default_limits (names_run 32768) ≡ true }
    ensures no_run { is_run default_limits (names_run 32770) ≡ false }
{}
