//! A reader or a writer that remembers whether it ever failed, and whether it was asked after that.
ghost use Rattle.std.specs.Io.{ReadsAtMost, WritesAtMost};
ghost use Rattle.std.specs.Io.KnownBytes.{Keeps, ReadConsumes, WriteAppends};
ghost use Rattle.std.specs.Prelude.{◌≡◌, ◌||◌, false, is_err, length};
ghost use Rattle.ep_script.specs.Known.{write_failed};

use std::io::{self, Read, Write};

/// A reader or a writer that answers what the one inside answered, and remembers whether a read,
/// a write or a flush answered an error, or a write of a byte or more took none. It remembers, too,
/// whether it was asked for anything after that.
#[derive(Drop)]
pub struct Watched<T> {
    inner: T,
    failed: bool,
    asked_after: bool,
}

impl<T> Watched<T> {
    /// One that has not failed.
    pub fn new(inner: T) -> Watched<T>
        ensures inner { result.inner ≡ inner }
        ensures fresh { result.failed ≡ false }
        ensures unasked { result.asked_after ≡ false }
    {
        Watched {
            inner,
            failed: false,
            asked_after: false,
        }
    }

    /// The reader or writer inside.
    pub fn into_inner(self) -> T
        ensures { result ≡ self.inner }
    {
        self.inner
    }

    /// Whether a read, a write or a flush answered an error, or a write of a byte or more took none.
    pub fn failed(&self) -> bool
        ensures { result ≡ self.now.failed }
    {
        self.failed
    }

    /// Whether a read, a write or a flush was asked of it after it had failed. Such a call is handed on
    /// as any other.
    pub fn asked_after_failure(&self) -> bool
        ensures { result ≡ self.now.asked_after }
    {
        self.asked_after
    }
}

impl<R: Read> Read for Watched<R> {
    ghost remaining = { λ w. R.remaining w.inner };

    fn read(&mut self, buf: &mut [u8]) -> io::Result<usize>
        ensures bound { ReadsAtMost result buf.new }
        ensures bytes { ReadConsumes (R.remaining self.old.inner) (R.remaining self.new.inner)
            result buf.new }
        ensures watched { self.new.failed ≡ (is_err result || self.old.failed) }
        ensures after { self.new.asked_after ≡ (self.old.failed || self.old.asked_after) }
    {
        self.asked_after |= self.failed;
        let result = self.inner.read(buf);
        if result.is_err() {
            self.failed = true;
        }
        result
    }
}

impl<W: Write> Write for Watched<W> {
    ghost contents = { λ w. W.contents w.inner };

    fn write(&mut self, buf: &[u8]) -> io::Result<usize>
        ensures bound { WritesAtMost result buf.now }
        ensures bytes { WriteAppends (W.contents self.old.inner) (W.contents self.new.inner) result
            buf.now }
        ensures watched { self.new.failed
            ≡ (write_failed result (length buf.now) || self.old.failed) }
        ensures after { self.new.asked_after ≡ (self.old.failed || self.old.asked_after) }
    {
        self.asked_after |= self.failed;
        let result = self.inner.write(buf);
        let failed = match &result {
            Ok(taken) => *taken == 0 && !buf.is_empty(),
            Err(_) => true,
        };
        if failed {
            self.failed = true;
        }
        result
    }

    fn flush(&mut self) -> io::Result<()>
        ensures bytes { Keeps (W.contents self.old.inner) (W.contents self.new.inner) }
        ensures watched { self.new.failed ≡ (is_err result || self.old.failed) }
        ensures after { self.new.asked_after ≡ (self.old.failed || self.old.asked_after) }
    {
        self.asked_after |= self.failed;
        let result = self.inner.flush();
        if result.is_err() {
            self.failed = true;
        }
        result
    }
}
