//! Worked runs that end in each refusal.
ghost use Rattle.std.specs.Prelude.{◌≡◌, true, false};
ghost use Rattle.ep_base.specs.Limits.{default_limits};
ghost use Rattle.ep_base.specs.declared.answer.Answer.TheVariants.{Done, Refused};
ghost use Rattle.ep_base.specs.declared.errno.Errno.TheVariants.{Eagain, Ebadf, Eexist, Einval, Emfile, Enfile, Enospc, Eperm, Esrch};
ghost use Rattle.ep_runs.specs.Records.{small_limits, two};
ghost use Rattle.ep_runs.specs.RefusalRuns.{ctl_run, descriptors_first_run, descriptors_run, files_run};
ghost use Rattle.ep_runs.specs.RefusalRuns.{masks_run, process_run, read_run, wait_run, watches_run};
ghost use Rattle.ep_runs.specs.RefusalRuns.{write_run};
ghost use Rattle.ep_machine.specs.Run.{is_run};

/// EMFILE of pipe2(2) and epoll_create1(2).
pub fn descriptors()
    ensures run { is_run (small_limits 4 16 8) (descriptors_run (Refused Emfile)) ≡ true }
    ensures no_run { is_run (small_limits 4 16 8) (descriptors_run (two 3 4)) ≡ false }
{}

/// ENFILE of pipe2(2) and epoll_create1(2).
pub fn files()
    ensures run { is_run (small_limits 16 2 8) (files_run (Refused Enfile)) ≡ true }
    ensures no_run { is_run (small_limits 16 2 8) (files_run (two 3 4)) ≡ false }
{}

/// EMFILE is tested before ENFILE.
pub fn descriptors_first()
    ensures run { is_run (small_limits 3 1 8) (descriptors_first_run Emfile) ≡ true }
    ensures no_run { is_run (small_limits 3 1 8) (descriptors_first_run Enfile) ≡ false }
{}

/// ESRCH of every call, before all else.
pub fn process()
    ensures run { is_run default_limits (process_run Esrch) ≡ true }
    ensures no_run { is_run default_limits (process_run Ebadf) ≡ false }
{}

/// EBADF, EPERM and EINVAL of epoll_ctl(2), by what its numbers name.
pub fn ctl()
    ensures run { is_run default_limits (ctl_run Eperm) ≡ true }
    ensures no_run { is_run default_limits (ctl_run Einval) ≡ false }
{}

/// EINVAL and EEXIST of epoll_ctl(2), by its operation, its mask and its key.
pub fn masks()
    ensures run { is_run default_limits (masks_run Done) ≡ true }
    ensures no_run { is_run default_limits (masks_run (Refused Einval)) ≡ false }
{}

/// ENOSPC of epoll_ctl(2).
pub fn watches()
    ensures run { is_run (small_limits 16 16 1) (watches_run Enospc) ≡ true }
    ensures no_run { is_run (small_limits 16 16 1) (watches_run Eexist) ≡ false }
{}

/// EINVAL and EBADF of epoll_wait(2).
pub fn wait()
    ensures run { is_run default_limits (wait_run Einval) ≡ true }
    ensures no_run { is_run default_limits (wait_run Ebadf) ≡ false }
{}

/// EBADF, EAGAIN and EINVAL of read(2).
pub fn read()
    ensures run { is_run default_limits (read_run Eagain) ≡ true }
    ensures no_run { is_run default_limits (read_run Ebadf) ≡ false }
{}

/// EBADF, EAGAIN and EINVAL of write(2).
pub fn write()
    ensures run { is_run (small_limits 16 16 8) (write_run Eagain) ≡ true }
    ensures no_run { is_run (small_limits 16 16 8) (write_run Ebadf) ≡ false }
{}
