//! The structs that cross to C. None of them holds a pointer.

/// The limits of a kernel, each in its range as `ep_base::Limits::new` has them.
#[repr(C)]
#[derive(Clone, Copy, Debug)]
pub struct FlatLimits {
    /// Descriptor numbers of a process: 3 to 65,536.
    pub descriptors: u32,
    /// Living open file descriptions: 1 to 1,000,000.
    pub files: u32,
    /// Living processes: 1 to 10,000.
    pub processes: u32,
    /// Registrations: 0 to 1,000,000.
    pub watches: u32,
    /// The capacity of a pipe, in bytes: 4,096 to 1,048,576.
    pub pipe_bytes: u32,
    /// The bytes that may wait in one direction of a socket pair: 1 to 1,048,576.
    pub sock_bytes: u32,
}

/// An event that is asked for, by its number:
///
/// | number | event | fields beside `caller` and `pid` |
/// |---|---|---|
/// | 1 | pipe2 | flags |
/// | 2 | eventfd2 | count (where it starts), flags |
/// | 3 | timerfd_create | number (the clock), flags |
/// | 4 | socketpair | flags |
/// | 5 | a file that can't be polled | flags |
/// | 6 | epoll_create1 | flags |
/// | 7 | epoll_ctl | fd (the instance), number (the operation), target, count (the mask), value (the data) |
/// | 8 | epoll_wait | fd, number (the most reports), timeout |
/// | 9 | read | fd, count (the most bytes) |
/// | 10 | write | fd, and the bytes beside the request |
/// | 11 | shutdown | fd, number (0 the reading, 1 the writing, 2 both) |
/// | 12 | timerfd_settime | fd, flags, value, interval |
/// | 13 | timerfd_gettime | fd |
/// | 14 | dup | fd |
/// | 15 | dup2 | fd, target |
/// | 16 | close | fd |
/// | 17 | fork | |
/// | 18 | execve | |
/// | 19 | exit | |
/// | 20 | a resumption | no `pid` |
/// | 21 | a tick | value (how long), no `pid` |
/// | 22 | socket | number (0 TCP, 1 Unix), flags |
/// | 23 | bind | fd, number (the space: 0 IPv4, 1 IPv6, 2 Unix), count (the name in it) |
/// | 24 | listen | fd, number (the backlog) |
/// | 25 | connect | fd, number and count as of bind |
/// | 26 | accept4 | fd, flags |
/// | 27 | recv with MSG_PEEK | fd, count (the most bytes) |
/// | 28 | getsockname, or getpeername | fd, flags |
/// | 29 | getsockopt with SO_ERROR | fd |
///
/// Fields that an event doesn't name are not looked at. Times are in microseconds.
#[repr(C)]
#[derive(Clone, Copy, Debug)]
pub struct FlatRequest {
    /// The process of a call.
    pub pid: u64,
    /// The data of a registration, how long a tick is, or the first expiration of a timer, in microseconds.
    pub value: u64,
    /// Of a timer the microseconds between two expirations, 0 for one alone.
    pub interval: u64,
    /// Of a wait the microseconds at most, below 0 for a wait without end.
    pub timeout: i64,
    /// The number of the event.
    pub event: u32,
    /// Who makes it.
    pub caller: u32,
    /// The descriptor that the event is about.
    pub fd: i32,
    /// The descriptor that is registered, or of dup2 the new one.
    pub target: i32,
    /// A clock, the operation of an epoll_ctl, the most reports of a wait, a backlog, or a word of a socket.
    pub number: i32,
    /// Where an eventfd starts, the mask of a registration, the most bytes of a read or a peek, or a name.
    pub count: u32,
    /// 1: close-on-exec; 2: an eventfd as a semaphore; 4: a timer's moment is absolute; 8: the name of
    /// the other end is asked for.
    pub flags: u32,
}

/// What an event is answered.
#[repr(C)]
#[derive(Clone, Copy, Debug)]
pub struct FlatReply {
    /// A descriptor, a process, how many bytes or reports there are, or 0 if a call is done and answers no number;
    /// minus the error number if it is refused, or if the error waited at a socket; -115, which is EINPROGRESS, if a
    /// connection has begun; 1 if a name is asked for and there is one; -4096 if its caller is parked, or after a
    /// resumption is parked still.
    pub result: i64,
    /// The lower one of two descriptors that a call made, or the space of a name, as bind numbers it.
    pub first: i32,
    /// The other one.
    pub second: i32,
    /// Of a timer the microseconds until its next expiration, 0 if none comes, or a name in its space.
    pub value: u64,
    /// Of a timer the microseconds between two expirations, 0 if there is one alone.
    pub interval: u64,
    /// The simulated clock after the event, in microseconds.
    pub now: u64,
}

/// One report of a wait. It is laid out as C lays out such a struct, and so not as Linux does `struct epoll_event`.
#[repr(C)]
#[derive(Clone, Copy, Debug)]
pub struct FlatReport {
    /// The bits that hold.
    pub events: u32,
    /// The data of the registration.
    pub tag: u64,
}

/// What is told of one registration of an instance.
#[repr(C)]
#[derive(Clone, Copy, Debug, PartialEq, Eq)]
pub struct FlatWatch {
    /// The data of the registration.
    pub tag: u64,
    /// The event of its last report, by its place in the history, from 1 on; 0 if it was never reported.
    pub reported_in: u64,
    /// The caller that got that report; 0 if it was never reported.
    pub reported_to: u32,
    /// The descriptor number under which it was added.
    pub fd: i32,
    /// The bits that it asks for, and its modes.
    pub mask: u32,
    /// The bits that hold at its target, whether it asks for them or not.
    pub shown: u32,
    /// 1 if it is armed, else 0.
    pub is_armed: u32,
    /// 1 if a wait would report it, else 0.
    pub is_reportable: u32,
}
