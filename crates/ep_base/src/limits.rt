//! The limits of a kernel.
ghost use Rattle.std.specs.Prelude.{◌≡◌, ◌↔◌, IsSome, IfSome};
ghost use Rattle.ep_base.specs.Limits.{AreInRange, IsBetween};

use std::marker::Model;

/// How much of each thing a kernel allows, always in range. Contracts see a record of the numbers.
#[derive(Clone, Copy, Debug, PartialEq, Eq)]
pub struct Limits {
    descriptors: u32,
    files: u32,
    processes: u32,
    watches: u32,
    pipe_bytes: u32,
    sock_bytes: u32,
}

impl Model for Limits {
    ghost use Rattle.ep_base.specs.Limits.{Limits as Numbers};

    ghost Value = { Numbers };

    ghost view = { λ l. record {
      descriptors = l.descriptors;
      files = l.files;
      processes = l.processes;
      watches = l.watches;
      pipe_bytes = l.pipe_bytes;
      sock_bytes = l.sock_bytes;
    } };

    ghost inverse = { λ v. record {
      descriptors = v.descriptors;
      files = v.files;
      processes = v.processes;
      watches = v.watches;
      pipe_bytes = v.pipe_bytes;
      sock_bytes = v.sock_bytes;
    } };

    ghost use Rattle.ep_base.specs.Limits.{AreInRange};

    ghost invariant = { λ l. AreInRange (record {
      descriptors = l.descriptors;
      files = l.files;
      processes = l.processes;
      watches = l.watches;
      pipe_bytes = l.pipe_bytes;
      sock_bytes = l.sock_bytes;
    }) };
}

impl Limits {
    /// The limits of these numbers, or `None` exactly where one is out of its range:
    /// descriptors 3 to 65,536, files 1 to 1,000,000, processes 1 to 10,000,
    /// watches 0 to 1,000,000, pipe_bytes 4,096 to 1,048,576, sock_bytes 1 to 1,048,576.
    pub fn new(
        descriptors: u32,
        files: u32,
        processes: u32,
        watches: u32,
        pipe_bytes: u32,
        sock_bytes: u32,
    ) -> Option<Limits>
        ensures in_range { IsSome result ↔ AreInRange (record {
          descriptors = descriptors;
          files = files;
          processes = processes;
          watches = watches;
          pipe_bytes = pipe_bytes;
          sock_bytes = sock_bytes;
        }) }
        ensures value { IfSome result (λ limits. limits ≡ record {
          descriptors = descriptors;
          files = files;
          processes = processes;
          watches = watches;
          pipe_bytes = pipe_bytes;
          sock_bytes = sock_bytes;
        }) }
    {
        let in_range = descriptors >= 3
            && descriptors <= 65_536
            && files >= 1
            && files <= 1_000_000
            && processes >= 1
            && processes <= 10_000
            && watches <= 1_000_000
            && pipe_bytes >= 4_096
            && pipe_bytes <= 1_048_576
            && sock_bytes >= 1
            && sock_bytes <= 1_048_576;
        if !in_range {
            return None;
        }
        Some(Limits {
            descriptors,
            files,
            processes,
            watches,
            pipe_bytes,
            sock_bytes,
        })
    }

    /// How many descriptor numbers a process has, from 0 on; past them a call answers EMFILE.
    pub fn descriptors(&self) -> u32
        ensures value { result ≡ self.now.descriptors }
        ensures in_range { IsBetween 3 65536 result }
    {
        self.descriptors
    }

    /// Live open file descriptions, past which a call answers ENFILE.
    pub fn files(&self) -> u32
        ensures { result ≡ self.now.files }
    {
        self.files
    }

    /// Living processes, past which fork answers EAGAIN.
    pub fn processes(&self) -> u32
        ensures { result ≡ self.now.processes }
    {
        self.processes
    }

    /// Registrations in the kernel, past which epoll_ctl answers ENOSPC.
    pub fn watches(&self) -> u32
        ensures { result ≡ self.now.watches }
    {
        self.watches
    }

    /// The capacity of a pipe, in bytes.
    pub fn pipe_bytes(&self) -> u32
        ensures { result ≡ self.now.pipe_bytes }
    {
        self.pipe_bytes
    }

    /// The bytes that may wait in one direction of a socket pair.
    pub fn sock_bytes(&self) -> u32
        ensures { result ≡ self.now.sock_bytes }
    {
        self.sock_bytes
    }
}

impl Default for Limits {
    ghost use Rattle.ep_base.specs.Limits.{default_limits};
    ghost use Rattle.std.specs.Prelude.{◌≡◌};

    ghost is_default = { λ limits. limits ≡ default_limits };

    /// Descriptors 1,024, files 4,096, processes 64, watches 4,096, pipe_bytes and sock_bytes 65,536.
    fn default() -> Limits {
        Limits {
            descriptors: 1_024,
            files: 4_096,
            processes: 64,
            watches: 4_096,
            pipe_bytes: 65_536,
            sock_bytes: 65_536,
        }
    }
}
