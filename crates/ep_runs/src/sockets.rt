//! Worked runs of socket pairs.
ghost use Rattle.std.specs.Prelude.{◌≡◌, true, false};
ghost use Rattle.ep_base.specs.Limits.{default_limits};
ghost use Rattle.ep_base.specs.declared.errno.Errno.TheVariants.{Eagain, Einval, Emfile, Enfile, Enotsock, Epipe};
ghost use Rattle.ep_runs.specs.Records.{small_limits, socket_limits};
ghost use Rattle.ep_machine.specs.Run.{is_run};
ghost use Rattle.ep_runs.specs.SocketRuns.{full_run, last_description_run, no_socket_run, shut_run};

/// shutdown(2) of a Unix stream socket for writing.
pub fn shut_socket()
    ensures run { is_run default_limits (shut_run Epipe) ≡ true }
    ensures no_run { is_run default_limits (shut_run Eagain) ≡ false }
{}

/// A direction of a socket pair that is full.
pub fn full_socket()
    ensures run { is_run (socket_limits 4) (full_run 4) ≡ true }
    ensures no_run { is_run (socket_limits 4) (full_run 5) ≡ false }
{}

/// ENOTSOCK of shutdown(2), EMFILE of socketpair(2), and files that can't be polled.
pub fn no_socket()
    ensures run { is_run (small_limits 5 16 8) (no_socket_run Enotsock) ≡ true }
    ensures no_run { is_run (small_limits 5 16 8) (no_socket_run Einval) ≡ false }
{}

/// ENFILE of socketpair(2) and eventfd(2).
pub fn last_description()
    ensures run { is_run (small_limits 16 2 8) (last_description_run Enfile) ≡ true }
    ensures no_run { is_run (small_limits 16 2 8) (last_description_run Emfile) ≡ false }
{}
