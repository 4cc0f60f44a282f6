//! Reads chunks of the input, and cuts lines from them.
ghost use Rattle.std.specs.Io.KnownBytes.{prepend_known};
ghost use Rattle.std.specs.Prelude.{◌≡◌, ◌+◌, ◌++◌, ◌<◌, ◌≤◌, ◌⊎◌, ◌∷◌, IfErr, IfOk, IsErrOf, OnErr, OnOk};
ghost use Rattle.std.specs.Prelude.{[], drop, false, length, take, true};
ghost use Rattle.ep_script.specs.Known.{Leads};
ghost use Rattle.ep_script.specs.Lines.{IsPlain};
ghost use Rattle.ep_script.specs.Steps.{IsTooLong};
ghost use Rattle.ep_script.specs.Unread.{unread};

use crate::chunk::Input;
use crate::fault::ScriptFault;
use crate::watched::Watched;
use memchr::memchr;
use std::alloc::{AllocError, Global};
use std::io::Read;

/// How many bytes a read asks for at most.
const CHUNK: usize = 65_536;

/// The most bytes of a script's line, without the byte that ends it.
pub(crate) const LONGEST_LINE: usize = 65_536;

/// How many bytes stand before the first byte 10, or how many there are if there is none.
fn plain_front(bytes: &[u8]) -> usize
    ensures within { result ≤ length bytes.now }
    ensures plain { IsPlain (take result bytes.now) }
    ensures cut { result < length bytes.now
        → bytes.now ≡ take result bytes.now ++ 10 ∷ drop (result + 1) bytes.now }
{
    match memchr(b'\n', bytes) {
        Some(place) => place,
        None => bytes.len(),
    }
}

impl Input {
    /// No bytes yet.
    pub(crate) fn new(alloc: Global) -> Result<Input, AllocError>
        ensures { IfOk result (λ input. unread input ≡ []) }
    {
        let chunk = vec![in alloc; 0; CHUNK]?;
        Ok(Input {
            chunk,
            start: 0,
            end: 0,
        })
    }

    /// The bytes that were read and not yet used.
    fn unread(&self) -> &[u8]
        ensures { result.now ≡ unread self.now }
    {
        &self.chunk[self.start..self.end]
    }

    /// Uses the first of them.
    fn skip(&mut self, count: usize)
        requires { count ≤ length (unread self.old) }
        ensures { unread self.new ≡ drop count (unread self.old) }
    {
        self.start += count;
    }

    /// Reads on, in place of what was read before.
    fn fill<R: Read>(&mut self, reader: &mut Watched<R>) -> Result<(), ScriptFault>
        ensures ok { OnOk result
            (Leads (R.remaining reader.old.inner)
            (prepend_known (unread self.new) (R.remaining reader.new.inner)) (λ xs ys. xs ≡ ys)) }
        ensures end { OnOk result
            (unread self.new ≡ []
            → Leads (R.remaining reader.old.inner) (R.remaining reader.new.inner)
            (λ xs ys. ys ≡ [])) }
        ensures flag { OnOk result (reader.new.failed ≡ reader.old.failed) }
        ensures once { reader.old.failed ≡ false → reader.new.asked_after ≡ reader.old.asked_after }
        ensures err { IfErr result (λ e. (e ≡ ScriptFault.Read) × (reader.new.failed ≡ true)) }
        ensures kept { OnErr result
            (Leads (R.remaining reader.old.inner) (R.remaining reader.new.inner)
            (λ xs ys. xs ≡ ys)) }
    {
        self.start = 0;
        self.end = 0;
        match reader.read(self.chunk.as_mut_slice()) {
            Ok(count) => {
                self.end = count;
                Ok(())
            }
            Err(_) => Err(ScriptFault::Read),
        }
    }

    /// Whether a byte is left. It reads on only if none is at hand.
    pub(crate) fn has_more<R: Read>(&mut self, reader: &mut Watched<R>) -> Result<bool, ScriptFault>
        ensures ok { OnOk result (Leads
            (prepend_known (unread self.old) (R.remaining reader.old.inner))
            (prepend_known (unread self.new) (R.remaining reader.new.inner))
            (λ xs ys. xs ≡ ys)) }
        ensures some { IfOk result (λ more. more ≡ true → 0 < length (unread self.new)) }
        ensures none { IfOk result (λ more. more ≡ false → Leads
            (prepend_known (unread self.old) (R.remaining reader.old.inner))
            (prepend_known (unread self.new) (R.remaining reader.new.inner))
            (λ xs ys. (xs ≡ []) × (ys ≡ []))) }
        ensures flag { OnOk result (reader.new.failed ≡ reader.old.failed) }
        ensures once { reader.old.failed ≡ false → reader.new.asked_after ≡ reader.old.asked_after }
        ensures err { IfErr result (λ e. (e ≡ ScriptFault.Read) × (reader.new.failed ≡ true)) }
        ensures kept { OnErr result (Leads
            (prepend_known (unread self.old) (R.remaining reader.old.inner))
            (R.remaining reader.new.inner)
            (λ xs ys. xs ≡ ys)) }
    {
        if !self.unread().is_empty() {
            return Ok(true);
        }
        match self.fill(reader) {
            Ok(()) => Ok(!self.unread().is_empty()),
            Err(fault) => Err(fault),
        }
    }

    /// Moves bytes at hand behind the line, up to the byte that ends it, and says whether there was one. The line gets
    /// `most` bytes at most.
    pub(crate) fn take_piece(
        &mut self,
        line: &mut Vec<u8>,
        number: u64,
        most: usize,
    ) -> Result<bool, ScriptFault>
        requires plain { IsPlain line.old.items }
        requires short { length line.old.items ≤ most }
        ensures ended { IfOk result
            (λ is_whole. is_whole ≡ true
            → line.old.items ++ unread self.old ≡ line.new.items ++ 10 ∷ unread self.new) }
        ensures open { IfOk result
            (λ is_whole. is_whole ≡ false
            → (line.new.items ≡ line.old.items ++ unread self.old) × (unread self.new ≡ [])) }
        ensures plain { OnOk result (IsPlain line.new.items) }
        ensures short { OnOk result (length line.new.items ≤ most) }
        ensures long { IsErrOf result (ScriptFault.Line number)
            → IsTooLong most (line.old.items ++ unread self.old) }
        ensures err { IfErr result (λ e. (e ≡ ScriptFault.Memory) ⊎ (e ≡ ScriptFault.Line number)) }
    {
        let unread = self.unread();
        let count = plain_front(unread);
        let is_whole = count < unread.len();
        if count > most - line.len() {
            return Err(ScriptFault::Line(number));
        }
        if line.extend_from_slice(&unread[..count]).is_err() {
            return Err(ScriptFault::Memory);
        }
        self.skip(if is_whole { count + 1 } else { count });
        Ok(is_whole)
    }

    /// Puts the next line into `line`, without the byte that ends it, if it is at hand to its end, and says so. Else it
    /// uses nothing. The error is want of memory for the line.
    pub(crate) fn take_whole(&mut self, line: &mut Vec<u8>) -> Result<bool, AllocError>
        ensures whole { IfOk result (λ is_whole. is_whole ≡ true
            → unread self.old ≡ line.new.items ++ 10 ∷ unread self.new) }
        ensures plain { IfOk result (λ is_whole. is_whole ≡ true → IsPlain line.new.items) }
        ensures none { IfOk result (λ is_whole. is_whole ≡ false → self.new ≡ self.old) }
    {
        line.clear();
        let unread = self.unread();
        let count = plain_front(unread);
        if count == unread.len() {
            return Ok(false);
        }
        line.extend_from_slice(&unread[..count])?;
        self.skip(count + 1);
        Ok(true)
    }
}
