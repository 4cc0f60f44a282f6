//! The operations of a script.
ghost use Rattle.std.specs.Prelude.{◌≡◌, option_map};
ghost use Rattle.ep_text.specs.Event.{call_operations, named, operations};
ghost use Rattle.ep_text.specs.Ops.{call_operation_of, operation_of};

use crate::key::Key;

/// A call of a process.
#[derive(Clone, Copy, Debug, PartialEq, Eq)]
pub enum CallOp {
    Pipe,
    SocketPair,
    Plain,
    Epoll,
    EventFd,
    TimerFd,
    Ctl,
    Wait,
    Read,
    Write,
    Shutdown,
    GetTime,
    SetTime,
    Dup,
    Dup2,
    Close,
    Fork,
    Exec,
    Exit,
    Socket,
    Bind,
    Listen,
    Connect,
    Accept,
    Peek,
    SockName,
    PeerName,
    SockErr,
}

/// What the `op` of a line may name.
#[derive(Clone, Copy, Debug, PartialEq, Eq)]
pub enum Op {
    Call(CallOp),
    Resume,
    Tick,
}

impl CallOp {
    fn named(name: &str) -> Option<CallOp>
        ensures { option_map call_operation_of result ≡ named call_operations name.now }
    {
        match name {
            "pipe" => Some(CallOp::Pipe),
            "socketpair" => Some(CallOp::SocketPair),
            "plain" => Some(CallOp::Plain),
            "epoll" => Some(CallOp::Epoll),
            "eventfd" => Some(CallOp::EventFd),
            "timerfd" => Some(CallOp::TimerFd),
            "ctl" => Some(CallOp::Ctl),
            "wait" => Some(CallOp::Wait),
            "read" => Some(CallOp::Read),
            "write" => Some(CallOp::Write),
            "shutdown" => Some(CallOp::Shutdown),
            "gettime" => Some(CallOp::GetTime),
            "settime" => Some(CallOp::SetTime),
            "dup" => Some(CallOp::Dup),
            "dup2" => Some(CallOp::Dup2),
            "close" => Some(CallOp::Close),
            "fork" => Some(CallOp::Fork),
            "exec" => Some(CallOp::Exec),
            "exit" => Some(CallOp::Exit),
            "socket" => Some(CallOp::Socket),
            "bind" => Some(CallOp::Bind),
            "listen" => Some(CallOp::Listen),
            "connect" => Some(CallOp::Connect),
            "accept" => Some(CallOp::Accept),
            "peek" => Some(CallOp::Peek),
            "sockname" => Some(CallOp::SockName),
            "peername" => Some(CallOp::PeerName),
            "sockerr" => Some(CallOp::SockErr),
            _ => None,
        }
    }

    /// The keys that it may have, beside `op` and `by`, in the order of docs/script.md, and `pid` last.
    fn keys(self) -> &'static [Key]
        ensures { result.now ≡ (call_operation_of self).keys }
    {
        match self {
            CallOp::Pipe | CallOp::SocketPair | CallOp::Plain | CallOp::Epoll => {
                &[Key::Cloexec, Key::Pid]
            }
            CallOp::EventFd => &[Key::Init, Key::Sem, Key::Cloexec, Key::Pid],
            CallOp::TimerFd => &[Key::Clock, Key::Cloexec, Key::Pid],
            CallOp::Ctl => &[Key::Ep, Key::Fd, Key::Act, Key::Mask, Key::Data, Key::Pid],
            CallOp::Wait => &[Key::Ep, Key::Max, Key::Timeout, Key::Pid],
            CallOp::Read | CallOp::Peek => &[Key::Fd, Key::N, Key::Pid],
            CallOp::Write => &[Key::Fd, Key::Hex, Key::Fill, Key::Pid],
            CallOp::Shutdown => &[Key::Fd, Key::How, Key::Pid],
            CallOp::GetTime | CallOp::Dup | CallOp::Close => &[Key::Fd, Key::Pid],
            CallOp::SockName | CallOp::PeerName | CallOp::SockErr => &[Key::Fd, Key::Pid],
            CallOp::Dup2 => &[Key::Fd, Key::To, Key::Pid],
            CallOp::Fork | CallOp::Exec | CallOp::Exit => &[Key::Pid],
            CallOp::SetTime => &[Key::Fd, Key::Value, Key::Interval, Key::Abs, Key::Pid],
            CallOp::Socket => &[Key::Family, Key::Cloexec, Key::Pid],
            CallOp::Bind | CallOp::Connect => &[Key::Fd, Key::Space, Key::Name, Key::Pid],
            CallOp::Listen => &[Key::Fd, Key::Backlog, Key::Pid],
            CallOp::Accept => &[Key::Fd, Key::Cloexec, Key::Pid],
        }
    }
}

impl Op {
    pub(crate) fn named(name: &str) -> Option<Op>
        ensures { option_map operation_of result ≡ named operations name.now }
    {
        match name {
            "tick" => Some(Op::Tick),
            "resume" => Some(Op::Resume),
            _ => Some(Op::Call(CallOp::named(name)?)),
        }
    }

    /// The keys that it may have, beside `op` and `by`, in the order of docs/script.md, and `pid` last.
    pub(crate) fn keys(self) -> &'static [Key]
        ensures { result.now ≡ (operation_of self).keys }
    {
        match self {
            Op::Call(op) => op.keys(),
            Op::Resume => &[],
            Op::Tick => &[Key::N],
        }
    }
}
