//! Errors.
ghost use Rattle.std.specs.Prelude.{◌≡◌};
ghost use Rattle.ep_base.specs.Errno.{errno_name, errno_number};

/// An error, as errno(3) names it.
#[derive(Clone, Copy, Debug, PartialEq, Eq)]
pub enum Errno {
    /// The target can't be polled.
    Eperm,
    /// No such registration.
    Enoent,
    /// No such process.
    Esrch,
    /// No such descriptor, or the wrong end of a pipe.
    Ebadf,
    /// The call would block.
    Eagain,
    /// No memory.
    Enomem,
    /// The caller is parked, or a caller of the process is.
    Ebusy,
    /// The registration is there already.
    Eexist,
    /// A bad argument.
    Einval,
    /// The kernel has as many descriptions as it may.
    Enfile,
    /// The process has as many descriptors as it may.
    Emfile,
    /// The kernel has as many registrations as it may.
    Enospc,
    /// Nobody reads.
    Epipe,
    /// Instances would watch each other in a loop, or too deep.
    Eloop,
    /// The object is no socket.
    Enotsock,
    /// The name is none of the socket's family.
    Eafnosupport,
    /// The name is taken, or none is free.
    Eaddrinuse,
    /// No name is free to connect from.
    Eaddrnotavail,
    /// The connection is gone, and its error was taken.
    Econnaborted,
    /// The peer closed and left bytes unread.
    Econnreset,
    /// The socket is connected, or listens.
    Eisconn,
    /// The socket is not connected.
    Enotconn,
    /// Nobody listens there.
    Econnrefused,
    /// The socket is connecting already.
    Ealready,
}

impl Errno {
    /// The number that Linux gives it.
    pub fn number(self) -> u32
        ensures { result ≡ errno_number self }
    {
        match self {
            Errno::Eperm => 1,
            Errno::Enoent => 2,
            Errno::Esrch => 3,
            Errno::Ebadf => 9,
            Errno::Eagain => 11,
            Errno::Enomem => 12,
            Errno::Ebusy => 16,
            Errno::Eexist => 17,
            Errno::Einval => 22,
            Errno::Enfile => 23,
            Errno::Emfile => 24,
            Errno::Enospc => 28,
            Errno::Epipe => 32,
            Errno::Eloop => 40,
            Errno::Enotsock => 88,
            Errno::Eafnosupport => 97,
            Errno::Eaddrinuse => 98,
            Errno::Eaddrnotavail => 99,
            Errno::Econnaborted => 103,
            Errno::Econnreset => 104,
            Errno::Eisconn => 106,
            Errno::Enotconn => 107,
            Errno::Econnrefused => 111,
            Errno::Ealready => 114,
        }
    }

    /// Its name in capitals, as `EPERM`.
    pub fn name(self) -> &'static str
        ensures { result.now ≡ errno_name self }
    {
        match self {
            Errno::Eperm => "EPERM",
            Errno::Enoent => "ENOENT",
            Errno::Esrch => "ESRCH",
            Errno::Ebadf => "EBADF",
            Errno::Eagain => "EAGAIN",
            Errno::Enomem => "ENOMEM",
            Errno::Ebusy => "EBUSY",
            Errno::Eexist => "EEXIST",
            Errno::Einval => "EINVAL",
            Errno::Enfile => "ENFILE",
            Errno::Emfile => "EMFILE",
            Errno::Enospc => "ENOSPC",
            Errno::Epipe => "EPIPE",
            Errno::Eloop => "ELOOP",
            Errno::Enotsock => "ENOTSOCK",
            Errno::Eafnosupport => "EAFNOSUPPORT",
            Errno::Eaddrinuse => "EADDRINUSE",
            Errno::Eaddrnotavail => "EADDRNOTAVAIL",
            Errno::Econnaborted => "ECONNABORTED",
            Errno::Econnreset => "ECONNRESET",
            Errno::Eisconn => "EISCONN",
            Errno::Enotconn => "ENOTCONN",
            Errno::Econnrefused => "ECONNREFUSED",
            Errno::Ealready => "EALREADY",
        }
    }
}
