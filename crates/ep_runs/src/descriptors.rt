//! Worked runs of descriptors and processes.
ghost use Rattle.std.specs.Prelude.{◌≡◌, true, false};
ghost use Rattle.ep_base.specs.Limits.{default_limits};
ghost use Rattle.ep_base.specs.declared.errno.Errno.TheVariants.{Eagain, Enfile};
ghost use Rattle.ep_runs.specs.DescriptorRuns.{closed_reader_run, closed_socket_run, exec_run, full_tables_run, numbers_run};
ghost use Rattle.ep_runs.specs.Records.{socket_limits, tight_limits};
ghost use Rattle.ep_machine.specs.Run.{is_run};

/// pipe(7): a pipe that nobody reads.
pub fn closed_reader()
    ensures run { is_run default_limits (closed_reader_run 12) ≡ true }
    ensures no_run { is_run default_limits (closed_reader_run 4) ≡ false }
{}

/// A Unix stream socket whose peer is closed.
pub fn closed_socket()
    ensures run { is_run (socket_limits 4) (closed_socket_run 20) ≡ true }
    ensures no_run { is_run (socket_limits 4) (closed_socket_run 16) ≡ false }
{}

/// EMFILE, ENFILE and EAGAIN of full tables, and exit(2) of a process that shares them.
pub fn full_tables()
    ensures run { is_run tight_limits (full_tables_run Eagain) ≡ true }
    ensures no_run { is_run tight_limits (full_tables_run Enfile) ≡ false }
{}

/// epoll(7): a registration lives until each descriptor of its description is closed; close-on-exec of execve(2).
pub fn exec()
    ensures run { is_run default_limits (exec_run 17) ≡ true }
    ensures no_run { is_run default_limits (exec_run 1) ≡ false }
{}

/// dup(2) and dup2(2).
pub fn numbers()
    ensures run { is_run default_limits (numbers_run 3) ≡ true }
    ensures no_run { is_run default_limits (numbers_run 5) ≡ false }
{}
