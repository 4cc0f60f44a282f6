//! The law of what is raised.
ghost use Rattle.ep_stream.specs.Law.{PairCloseLaw, PairErrorLaw, PairPeekLaw, PairReadLaw, PairShutdownLaw};
ghost use Rattle.ep_stream.specs.Law.{PairWriteLaw, PipeCloseLaw, PipeReadLaw, PipeWriteLaw};

/// A bit that begins to hold at an end of a pipe or of a socket pair, which is there before and
/// after, is raised at that end, by a read, a peek, a write, a shutdown, a close, and as an error is taken. This does
/// nothing: its contract is the law, of every pipe and every pair.
#[tactic(auto, using(crate::proofs::Laws::laws))]
pub fn arrivals_are_raised()
    ensures pipe_read { PipeReadLaw }
    ensures pipe_write { PipeWriteLaw }
    ensures pipe_close { PipeCloseLaw }
    ensures pair_read { PairReadLaw }
    ensures pair_peek { PairPeekLaw }
    ensures pair_write { PairWriteLaw }
    ensures pair_shutdown { PairShutdownLaw }
    ensures pair_error { PairErrorLaw }
    ensures pair_close { PairCloseLaw }
{}
