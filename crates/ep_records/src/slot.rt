//! A record in 48 bytes.
use ep_base::{CallerId, Errno, Fd};

/// What was asked.
#[derive(Clone, Copy)]
pub enum Kind {
    Pipe,
    SocketPair,
    Socket,
    EventFd,
    TimerFd,
    Plain,
    EpollCreate,
    EpollCtl,
    EpollWait,
    Read,
    /// A write that lists its bytes.
    Write,
    /// A write of one byte, over and over.
    Fill,
    Shutdown,
    Peek,
    TakeError,
    SocketName,
    Bind,
    Listen,
    Connect,
    Accept,
    SetTime,
    GetTime,
    Dup,
    Dup2,
    Close,
    Fork,
    Exec,
    Exit,
    Resume,
    Tick,
}

/// What it was answered.
#[derive(Clone, Copy)]
pub enum What {
    Done,
    Num,
    Two,
    Bytes,
    NoReports,
    OneReport,
    Time,
    Parked,
    Still,
    Connecting,
    Failed,
    /// A socket has no name.
    Unnamed,
    /// The name of a socket: its space is `x`, its number `n`.
    Named,
    Refused,
    /// A wait made `n` reports, from the place `y` on among the reports, with their numbers from `z` on.
    WaitReports,
    /// The same of a resumption.
    ResumeReports,
    /// A read gave `y` bytes, from the place `x` on among the bytes.
    LongRead,
    /// A write of `y` bytes, from the place `x` on among the bytes, was answered by a number.
    LongWrite,
    /// The record stands whole among the long ones, at the place `x`.
    Whole,
}

/// A record, or where it stands among the long ones. Its fields are numbers side by side, which are moved faster than
/// an enum with fields. What was asked says which of them tell it, and what it was answered says the same of the rest.
#[derive(Clone, Copy)]
pub struct Slot {
    pub(crate) caller: CallerId,
    pub(crate) pid: u32,
    pub(crate) fd: Fd,
    pub(crate) kind: Kind,
    pub(crate) what: What,
    pub(crate) errno: Errno,
    pub(crate) count: u8,
    pub(crate) n: u32,
    pub(crate) m: i32,
    pub(crate) x: u64,
    pub(crate) y: u64,
    pub(crate) z: u64,
}

const _: () = prove!(size_of::<Slot>() == 48);

/// A slot of which nothing is said yet.
pub(crate) const BLANK: Slot = Slot {
    caller: CallerId(0),
    pid: 0,
    fd: Fd(0),
    kind: Kind::Resume,
    what: What::Still,
    errno: Errno::Eperm,
    count: 0,
    n: 0,
    m: 0,
    x: 0,
    y: 0,
    z: 0,
};
