//! The keys of a line.
ghost use Rattle.std.specs.Prelude.{◌≡◌, IfSome};
ghost use Rattle.ep_text.specs.Key.{key_name, key_number};

/// A key that a line of a script may have. docs/script.md says of which operation.
#[derive(Clone, Copy)]
pub enum Key {
    Op,
    By,
    Pid,
    Cloexec,
    Init,
    Sem,
    Clock,
    Ep,
    Fd,
    Act,
    Mask,
    Data,
    Max,
    Timeout,
    N,
    Hex,
    Fill,
    Value,
    Interval,
    Abs,
    To,
    How,
    Family,
    Space,
    Name,
    Backlog,
}

impl Key {
    /// The key as a line has it.
    pub fn name(self) -> &'static str
        ensures { result.now ≡ key_name self }
    {
        match self {
            Key::Op => "op",
            Key::By => "by",
            Key::Pid => "pid",
            Key::Cloexec => "cloexec",
            Key::Init => "init",
            Key::Sem => "sem",
            Key::Clock => "clock",
            Key::Ep => "ep",
            Key::Fd => "fd",
            Key::Act => "act",
            Key::Mask => "mask",
            Key::Data => "data",
            Key::Max => "max",
            Key::Timeout => "timeout",
            Key::N => "n",
            Key::Hex => "hex",
            Key::Fill => "fill",
            Key::Value => "value",
            Key::Interval => "interval",
            Key::Abs => "abs",
            Key::To => "to",
            Key::How => "how",
            Key::Family => "family",
            Key::Space => "space",
            Key::Name => "name",
            Key::Backlog => "backlog",
        }
    }

    /// The key of this name.
    pub(crate) fn named(name: &str) -> Option<Key>
        ensures { IfSome result (λ key. name.now ≡ key_name key) }
    {
        match name {
            "op" => Some(Key::Op),
            "by" => Some(Key::By),
            "pid" => Some(Key::Pid),
            "cloexec" => Some(Key::Cloexec),
            "init" => Some(Key::Init),
            "sem" => Some(Key::Sem),
            "clock" => Some(Key::Clock),
            "ep" => Some(Key::Ep),
            "fd" => Some(Key::Fd),
            "act" => Some(Key::Act),
            "mask" => Some(Key::Mask),
            "data" => Some(Key::Data),
            "max" => Some(Key::Max),
            "timeout" => Some(Key::Timeout),
            "n" => Some(Key::N),
            "hex" => Some(Key::Hex),
            "fill" => Some(Key::Fill),
            "value" => Some(Key::Value),
            "interval" => Some(Key::Interval),
            "abs" => Some(Key::Abs),
            "to" => Some(Key::To),
            "how" => Some(Key::How),
            "family" => Some(Key::Family),
            "space" => Some(Key::Space),
            "name" => Some(Key::Name),
            "backlog" => Some(Key::Backlog),
            _ => None,
        }
    }

    /// Its place among the keys.
    pub(crate) fn number(self) -> u8
        ensures { result ≡ key_number self }
    {
        match self {
            Key::Op => 0,
            Key::By => 1,
            Key::Pid => 2,
            Key::Cloexec => 3,
            Key::Init => 4,
            Key::Sem => 5,
            Key::Clock => 6,
            Key::Ep => 7,
            Key::Fd => 8,
            Key::Act => 9,
            Key::Mask => 10,
            Key::Data => 11,
            Key::Max => 12,
            Key::Timeout => 13,
            Key::N => 14,
            Key::Hex => 15,
            Key::Fill => 16,
            Key::Value => 17,
            Key::Interval => 18,
            Key::Abs => 19,
            Key::To => 20,
            Key::How => 21,
            Key::Family => 22,
            Key::Space => 23,
            Key::Name => 24,
            Key::Backlog => 25,
        }
    }
}
