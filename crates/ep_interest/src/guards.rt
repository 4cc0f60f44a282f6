//! How many registrations are exclusive.
ghost use Rattle.std.specs.Prelude.{◌≡◌, ◌<◌, ◌+◌, if◌then◌else◌, true};

/// One more, if that is counted.
pub(crate) fn with_one(count: u64, is_counted: bool) -> u64
    requires { is_counted ≡ true → count < u64.MAX }
    ensures { result ≡ count + (if is_counted then 1 else 0) }
{
    if is_counted { count + 1 } else { count }
}

/// One less, if that was counted.
pub(crate) fn without_one(count: u64, is_counted: bool) -> u64
    requires { is_counted ≡ true → 0 < count }
    ensures { result + (if is_counted then 1 else 0) ≡ count }
{
    if is_counted { count - 1 } else { count }
}
