//! Gathers answers, and writes many of them at once.
ghost use Rattle.std.specs.Io.KnownBytes.{Appends, prepend_known};
ghost use Rattle.std.specs.Prelude.{◌≡◌, ◌++◌, ◌≤◌, IfErr, IfOk, OnOk, [], false, if◌then◌else◌, length, true};
ghost use Rattle.ep_script.specs.Known.{Leads};
ghost use Rattle.ep_script.specs.Lines.{longest_line};
ghost use Rattle.ep_script.specs.Steps.{EndsWith, Gathers, LineFault, Misses, MissesOf, TakesLine};
ghost use Rattle.ep_script.specs.Unread.{unread};

use crate::chunk::Input;
use crate::emit::emit;
use crate::fault::ScriptFault;
use crate::held::Gathered;
use crate::input::LONGEST_LINE;
use crate::next_line::next_line;
use crate::watched::Watched;
use std::alloc::Global;
use std::io::{Read, Write};

/// An answer of more bytes is written by itself: to copy it would cost more than a write.
const LONG_ANSWER: usize = 4_096;

impl Gathered {
    /// None yet.
    pub(crate) fn new(alloc: Global, room: usize) -> Gathered
        ensures none { result.bytes.items ≡ [] }
        ensures room { result.room ≡ room }
    {
        Gathered {
            bytes: Vec::new(alloc),
            room,
        }
    }

    /// Writes them.
    pub(crate) fn write_out<W: Write>(&mut self, writer: &mut Watched<W>) -> Result<(), ScriptFault>
        ensures room { self.new.room ≡ self.old.room }
        ensures none { OnOk result (self.new.bytes.items ≡ []) }
        ensures ok { OnOk result (Appends (W.contents writer.old.inner)
            (W.contents writer.new.inner) self.old.bytes.items) }
        ensures flag { OnOk result (writer.new.failed ≡ writer.old.failed) }
        ensures once { writer.old.failed ≡ false → writer.new.asked_after ≡ writer.old.asked_after }
        ensures err { IfErr result (λ e. (e ≡ ScriptFault.Write) × (writer.new.failed ≡ true)
            × MissesOf (W.contents writer.old.inner) (W.contents writer.new.inner)
            self.old.bytes.items) }
    {
        if self.bytes.is_empty() {
            return Ok(());
        }
        match emit(writer, self.bytes.as_slice()) {
            Ok(()) => {
                self.bytes.clear();
                Ok(())
            }
            Err(fault) => Err(fault),
        }
    }

    /// Puts an answer behind them, if it is short, and there is room for it, and memory. Else it does nothing.
    fn take(&mut self, answer: &[u8]) -> bool
        ensures room { self.new.room ≡ self.old.room }
        ensures bytes { self.new.bytes.items
            ≡ (if result then self.old.bytes.items ++ answer.now else self.old.bytes.items) }
    {
        if answer.len() > LONG_ANSWER || answer.len() > self.room - self.bytes.len() {
            return false;
        }
        self.bytes.extend_from_slice(answer).is_ok()
    }

    /// Puts an answer behind them. If it is long, or there is no room for it, or no memory, all of them are written,
    /// and the answer.
    pub(crate) fn add<W: Write>(
        &mut self,
        writer: &mut Watched<W>,
        answer: &[u8],
    ) -> Result<(), ScriptFault>
        ensures room { self.new.room ≡ self.old.room }
        ensures ok { OnOk result (Gathers (W.contents writer.old.inner)
            (W.contents writer.new.inner) self.old.bytes.items self.new.bytes.items answer.now) }
        ensures flag { OnOk result (writer.new.failed ≡ writer.old.failed) }
        ensures once { writer.old.failed ≡ false → writer.new.asked_after ≡ writer.old.asked_after }
        ensures err { IfErr result (λ e. (e ≡ ScriptFault.Write) × (writer.new.failed ≡ true)
            × Misses (W.contents writer.old.inner) (W.contents writer.new.inner)
            self.old.bytes.items answer.now) }
    {
        if self.take(answer) {
            return Ok(());
        }
        match self.write_out(writer) {
            Ok(()) => emit(writer, answer),
            Err(fault) => Err(fault),
        }
    }

    /// Writes them behind a fault. The fault stays, unless the writer has one.
    pub(crate) fn write_behind<W: Write>(
        &mut self,
        writer: &mut Watched<W>,
        fault: ScriptFault,
    ) -> ScriptFault
        ensures room { self.new.room ≡ self.old.room }
        ensures once { writer.old.failed ≡ false → writer.new.asked_after ≡ writer.old.asked_after }
        ensures ended { EndsWith fault result (writer.new.failed ≡ true)
            (W.contents writer.old.inner) (W.contents writer.new.inner) self.old.bytes.items }
    {
        match self.write_out(writer) {
            Ok(()) => fault,
            Err(other) => other,
        }
    }

    /// Puts the next line into `line`, as `next_line` does. If it is not at hand to its end, they are written before
    /// the reader is asked for more. So they are if there is no memory for a line at hand.
    pub(crate) fn read_line<R: Read, W: Write>(
        &mut self,
        reader: &mut Watched<R>,
        writer: &mut Watched<W>,
        input: &mut Input,
        line: &mut Vec<u8>,
        number: u64,
    ) -> Result<bool, ScriptFault>
        ensures room { self.new.room ≡ self.old.room }
        ensures line { IfOk result (λ more. more ≡ true → Leads
            (prepend_known (unread input.old) (R.remaining reader.old.inner))
            (prepend_known (unread input.new) (R.remaining reader.new.inner))
            (λ xs ys. TakesLine xs line.new.items ys)) }
        ensures end { IfOk result (λ more. more ≡ false → Leads
            (prepend_known (unread input.old) (R.remaining reader.old.inner))
            (prepend_known (unread input.new) (R.remaining reader.new.inner))
            (λ xs ys. (xs ≡ []) × (ys ≡ []))) }
        ensures none { IfOk result (λ more. more ≡ false → self.new.bytes.items ≡ []) }
        ensures short { OnOk result (length line.new.items ≤ longest_line) }
        ensures ok { OnOk result (Gathers (W.contents writer.old.inner)
            (W.contents writer.new.inner) self.old.bytes.items self.new.bytes.items []) }
        ensures reader_flag { OnOk result (reader.new.failed ≡ reader.old.failed) }
        ensures writer_flag { OnOk result (writer.new.failed ≡ writer.old.failed) }
        ensures reader_once { reader.old.failed ≡ false
            → reader.new.asked_after ≡ reader.old.asked_after }
        ensures writer_once { writer.old.failed ≡ false
            → writer.new.asked_after ≡ writer.old.asked_after }
        ensures err { IfErr result (λ e. LineFault e number (reader.new.failed ≡ true)
            (writer.new.failed ≡ true)
            (prepend_known (unread input.old) (R.remaining reader.old.inner))
            (R.remaining reader.new.inner)
            (W.contents writer.old.inner) (W.contents writer.new.inner) self.old.bytes.items) }
    {
        match input.take_whole(line) {
            Ok(true) => return Ok(true),
            Ok(false) => {}
            Err(_) => return Err(self.write_behind(writer, ScriptFault::Memory)),
        }
        match self.write_out(writer) {
            Ok(()) => next_line(reader, input, line, number, LONGEST_LINE),
            Err(fault) => Err(fault),
        }
    }
}
