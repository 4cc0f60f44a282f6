//! Worked runs of socket pairs of which an end reads no more.
ghost use Rattle.std.specs.Prelude.{◌≡◌, true, false};
ghost use Rattle.ep_base.specs.Limits.{default_limits};
ghost use Rattle.ep_base.specs.declared.errno.Errno.TheVariants.{Eagain, Epipe};
ghost use Rattle.ep_machine.specs.Run.{is_run};
ghost use Rattle.ep_runs.specs.HalfClosedRuns.{deaf_run, unread_run};

/// shutdown(2) of a Unix stream socket for reading.
pub fn deaf_socket()
    ensures run { is_run default_limits (deaf_run Epipe) ≡ true }
    ensures no_run { is_run default_limits (deaf_run Eagain) ≡ false }
{}

/// The close of an end with bytes that nobody read: 104 is ECONNRESET.
pub fn unread_socket()
    ensures run { is_run default_limits (unread_run 0) ≡ true }
    ensures no_run { is_run default_limits (unread_run 104) ≡ false }
{}
