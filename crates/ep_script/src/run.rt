//! Runs a script, and writes the history that it makes.
ghost use Rattle.std.specs.Io.KnownBytes.{prepend_known};
ghost use Rattle.std.specs.Prelude.{◌≡◌, ◌≤◌, IfErr, IfOk, IfSome, IsErrOf, OnErr, OnOk, false, true};
ghost use Rattle.ep_script.specs.Known.{Leads};
ghost use Rattle.ep_script.specs.Lines.{IsPlain, most_gathered};
ghost use Rattle.ep_script.specs.Outcome.{Cut, Faulted, Gains, IsHeld, Whole};
ghost use Rattle.ep_script.specs.Recorded.{EndsBy, Writes, WritesPart};
ghost use Rattle.ep_script.specs.Steps.{IsOfScript};

use crate::answer::{Desk, answer_line};
use crate::chunk::Input;
use crate::fault::{RecordedFault, ScriptFault};
use crate::keep::{Keeper, Nothing};
use crate::summary::Summary;
use crate::watched::Watched;
use ep_calls::Kernel;
use std::alloc::Global;
use std::io::{Read, Write};

/// The most lines of a script.
const MOST_LINES: u64 = 100_000;

/// Runs a script on a kernel: answers every line that it has read whole before it asks the reader
/// for more. An answer is the line that tells what the kernel answered, or says that the line is no
/// command. While a further whole line is at hand, answers wait to be written together, at most
/// 65,536 bytes of them.
///
/// A first line that is a header is answered by itself, and names the version of the lines behind it.
/// Without one that is version 1.
///
/// A line ends at byte 10, which the last may lack, and has at most 65,536 bytes; a script has at
/// most 100,000 lines. Every error of the reader or the writer ends the run, and so does a write
/// that takes no byte: nothing more is asked of the one that failed. An ENOMEM of the kernel is an
/// answer as any other.
///
/// After `Read`, `Line`, `Lines` and `Memory` the answers to all lines before stand written, and
/// nothing else. After `Write` the first bytes of them do. Those that are missing are of the lines
/// since the last write: of the last of these lines, and of the others at most 65,536 bytes.
///
/// Of what was read, after `Read` every line that was read to its end is answered, and after
/// `Memory` all but one line and what one read of at most 65,536 bytes gave behind it. After `Write`
/// the history has the records of all lines since the last write, though their answers are not
/// written whole. After `Memory` it may have one record whose answer is not written.
///
/// All this is said of a reader that tells its bytes, and what was written of a writer that does.
/// Of any, the history gained as many records as are counted.
pub fn run_script<K: Kernel, R: Read, W: Write>(
    alloc: Global,
    kernel: &mut K,
    reader: &mut Watched<R>,
    writer: &mut Watched<W>,
) -> Result<Summary, ScriptFault>
    requires fresh_reader { reader.old.failed ≡ false }
    requires fresh_writer { writer.old.failed ≡ false }
    ensures limits { K.bounds kernel.new ≡ K.bounds kernel.old }
    ensures taken { K.taken kernel.new ≡ K.taken kernel.old }
    ensures transcript { IfOk result (λ summary. IfSome (R.remaining reader.old.inner) (λ input.
        Whole input (W.contents writer.old.inner) (W.contents writer.new.inner)
        (K.past kernel.old) (K.past kernel.new) summary)) }
    ensures records { IfOk result (λ summary.
        Gains (K.past kernel.old) (K.past kernel.new) summary.records) }
    ensures few { IfOk result (λ summary. summary.lines ≤ 100000) }
    ensures reader_flag { OnOk result (reader.new.failed ≡ false) }
    ensures writer_flag { OnOk result (writer.new.failed ≡ false) }

    // How far it came where it did not come to the end.
    ensures fault { IfErr result (λ e. IfSome (R.remaining reader.old.inner) (λ input.
        Faulted most_gathered e input (W.contents writer.old.inner) (W.contents writer.new.inner)
        (K.past kernel.old) (K.past kernel.new))) }
    ensures read { IsErrOf result ScriptFault.Read → Leads
        (R.remaining reader.old.inner) (R.remaining reader.new.inner) (λ input rest.
        Cut IsPlain 0 input rest (W.contents writer.old.inner) (W.contents writer.new.inner)
        (K.past kernel.old) (K.past kernel.new)) }
    ensures memory { IsErrOf result ScriptFault.Memory → Leads
        (R.remaining reader.old.inner) (R.remaining reader.new.inner) (λ input rest.
        Cut IsHeld 1 input rest (W.contents writer.old.inner) (W.contents writer.new.inner)
        (K.past kernel.old) (K.past kernel.new)) }
    ensures read_flag { IsErrOf result ScriptFault.Read → reader.new.failed ≡ true }
    ensures write_flag { IsErrOf result ScriptFault.Write → writer.new.failed ≡ true }

    // After its failure neither is asked again.
    ensures reader_once { reader.new.asked_after ≡ reader.old.asked_after }
    ensures writer_once { writer.new.asked_after ≡ writer.old.asked_after }
{
    match run_keeping(alloc, kernel, reader, writer, &mut Nothing) {
        Ok(summary) => Ok(summary),
        Err(RecordedFault::Script(fault)) => Err(fault),
        Err(_) => unreachable!(),
    }
}

/// Runs a script as `run_script` does, and writes each record that it makes to `history`: a line
/// as `ep_history` prints it, flushed before the next line of the script is looked at. No answer
/// waits: each is written before its record is. So after `Write` only a part of the last answer is
/// missing, or all of it.
///
/// Every error of that writer ends the run, and so does a write that takes no byte, or want of
/// memory for a line of the history: the answers to all lines up to then stand written. Nothing
/// more is asked of a reader or writer that failed. Whatever ends the run, what stands in the
/// history's writer are the first bytes of the lines of the records that the kernel's history
/// gained; if the run came to its end, all of them.
pub fn run_recorded<K: Kernel, R: Read, W: Write, H: Write>(
    alloc: Global,
    kernel: &mut K,
    reader: &mut Watched<R>,
    writer: &mut Watched<W>,
    history: &mut Watched<H>,
) -> Result<Summary, RecordedFault>
    requires fresh_reader { reader.old.failed ≡ false }
    requires fresh_writer { writer.old.failed ≡ false }
    requires fresh_history { history.old.failed ≡ false }
    ensures limits { K.bounds kernel.new ≡ K.bounds kernel.old }
    ensures taken { K.taken kernel.new ≡ K.taken kernel.old }
    ensures transcript { IfOk result (λ summary. IfSome (R.remaining reader.old.inner) (λ input.
        Whole input (W.contents writer.old.inner) (W.contents writer.new.inner)
        (K.past kernel.old) (K.past kernel.new) summary)) }
    ensures records { IfOk result (λ summary.
        Gains (K.past kernel.old) (K.past kernel.new) summary.records) }
    ensures few { IfOk result (λ summary. summary.lines ≤ 100000) }
    ensures reader_flag { OnOk result (reader.new.failed ≡ false) }
    ensures writer_flag { OnOk result (writer.new.failed ≡ false) }
    ensures history_flag { OnOk result (history.new.failed ≡ false) }
    ensures history { OnOk result
        (Writes (H.contents history.old.inner) (H.contents history.new.inner)
        (K.past kernel.old) (K.past kernel.new)) }

    // How far it came where it did not come to the end.
    ensures fault { IfErr result (λ e. IfSome (R.remaining reader.old.inner) (λ input.
        EndsBy 0 e input (W.contents writer.old.inner) (W.contents writer.new.inner)
        (K.past kernel.old) (K.past kernel.new))) }
    ensures read { IsErrOf result (RecordedFault.Script ScriptFault.Read) → Leads
        (R.remaining reader.old.inner) (R.remaining reader.new.inner) (λ input rest.
        Cut IsPlain 0 input rest (W.contents writer.old.inner) (W.contents writer.new.inner)
        (K.past kernel.old) (K.past kernel.new)) }
    ensures memory { IsErrOf result (RecordedFault.Script ScriptFault.Memory) → Leads
        (R.remaining reader.old.inner) (R.remaining reader.new.inner) (λ input rest.
        Cut IsHeld 1 input rest (W.contents writer.old.inner) (W.contents writer.new.inner)
        (K.past kernel.old) (K.past kernel.new)) }
    ensures read_flag { IsErrOf result (RecordedFault.Script ScriptFault.Read)
        → reader.new.failed ≡ true }
    ensures write_flag { IsErrOf result (RecordedFault.Script ScriptFault.Write)
        → writer.new.failed ≡ true }
    ensures history_fault_flag { IsErrOf result RecordedFault.History → history.new.failed ≡ true }

    // After its failure none of the three is asked again.
    ensures reader_once { reader.new.asked_after ≡ reader.old.asked_after }
    ensures writer_once { writer.new.asked_after ≡ writer.old.asked_after }
    ensures history_once { history.new.asked_after ≡ history.old.asked_after }

    // What stands in the history's writer.
    ensures part { OnErr result
        (WritesPart (H.contents history.old.inner) (H.contents history.new.inner)
        (K.past kernel.old) (K.past kernel.new)) }
{
    run_keeping(alloc, kernel, reader, writer, history)
}

/// Runs a script, and hands each record that it makes to the keeper, before the next line of the script is looked at.
fn run_keeping<K: Kernel, R: Read, W: Write, T: Keeper>(
    alloc: Global,
    kernel: &mut K,
    reader: &mut Watched<R>,
    writer: &mut Watched<W>,
    keeper: &mut T,
) -> Result<Summary, RecordedFault>
    requires fresh_reader { reader.old.failed ≡ false }
    requires fresh_writer { writer.old.failed ≡ false }
    requires fresh_history { T.failed keeper.old ≡ false }
    ensures limits { K.bounds kernel.new ≡ K.bounds kernel.old }
    ensures taken { K.taken kernel.new ≡ K.taken kernel.old }
    ensures transcript { IfOk result (λ summary. IfSome (R.remaining reader.old.inner) (λ input.
        Whole input (W.contents writer.old.inner) (W.contents writer.new.inner)
        (K.past kernel.old) (K.past kernel.new) summary)) }
    ensures records { IfOk result (λ summary.
        Gains (K.past kernel.old) (K.past kernel.new) summary.records) }
    ensures few { IfOk result (λ summary. summary.lines ≤ 100000) }
    ensures reader_flag { OnOk result (reader.new.failed ≡ false) }
    ensures writer_flag { OnOk result (writer.new.failed ≡ false) }
    ensures history_flag { OnOk result (T.failed keeper.new ≡ false) }
    ensures history { OnOk result
        (Writes (T.contents keeper.old) (T.contents keeper.new)
        (K.past kernel.old) (K.past kernel.new)) }

    // How far it came where it did not come to the end.
    ensures fault { IfErr result (λ e. IfSome (R.remaining reader.old.inner) (λ input.
        EndsBy T.room e input (W.contents writer.old.inner) (W.contents writer.new.inner)
        (K.past kernel.old) (K.past kernel.new))) }
    ensures read { IsErrOf result (RecordedFault.Script ScriptFault.Read) → Leads
        (R.remaining reader.old.inner) (R.remaining reader.new.inner) (λ input rest.
        Cut IsPlain 0 input rest (W.contents writer.old.inner) (W.contents writer.new.inner)
        (K.past kernel.old) (K.past kernel.new)) }
    ensures memory { IsErrOf result (RecordedFault.Script ScriptFault.Memory) → Leads
        (R.remaining reader.old.inner) (R.remaining reader.new.inner) (λ input rest.
        Cut IsHeld 1 input rest (W.contents writer.old.inner) (W.contents writer.new.inner)
        (K.past kernel.old) (K.past kernel.new)) }
    ensures read_flag { IsErrOf result (RecordedFault.Script ScriptFault.Read)
        → reader.new.failed ≡ true }
    ensures write_flag { IsErrOf result (RecordedFault.Script ScriptFault.Write)
        → writer.new.failed ≡ true }
    ensures history_fault_flag { IsErrOf result RecordedFault.History → T.failed keeper.new ≡ true }

    // After its failure none of the three is asked again.
    ensures reader_once { reader.new.asked_after ≡ reader.old.asked_after }
    ensures writer_once { writer.new.asked_after ≡ writer.old.asked_after }
    ensures history_once { T.asked_after keeper.new ≡ T.asked_after keeper.old }

    // What stands in the history's writer.
    ensures part { OnErr result
        (WritesPart (T.contents keeper.old) (T.contents keeper.new)
        (K.past kernel.old) (K.past kernel.new)) }
    ensures script { IfErr result (λ e. T.may_fail ≡ false → IsOfScript e) }
{
    let Ok(mut input) = Input::new(alloc) else {
        return Err(RecordedFault::Script(ScriptFault::Memory));
    };
    let mut line = Vec::new(alloc);
    let mut desk = Desk::new(alloc, keeper.room());
    let mut summary = Summary {
        lines: 0,
        records: 0,
        bad: 0,
    };
    for done in 0..MOST_LINES {
        match desk
            .gathered
            .read_line(reader, writer, &mut input, &mut line, done + 1)
        {
            Ok(true) => {}
            Ok(false) => return Ok(summary),
            Err(fault) => return Err(RecordedFault::Script(fault)),
        }
        let number = kernel.history().next_number();
        match answer_line(alloc, kernel, writer, line.as_slice(), done + 1, &mut desk) {
            Ok(kind) => summary = summary.with(kind),
            Err(fault) => return Err(RecordedFault::Script(fault)),
        }
        match keeper.keep(alloc, kernel, number) {
            Ok(()) => {}
            Err(fault) => return Err(fault),
        }
    }
    match desk.gathered.write_out(writer) {
        Ok(()) => {}
        Err(fault) => return Err(RecordedFault::Script(fault)),
    }
    match input.has_more(reader) {
        Ok(false) => Ok(summary),
        Ok(true) => Err(RecordedFault::Script(ScriptFault::Lines)),
        Err(fault) => Err(RecordedFault::Script(fault)),
    }
}
