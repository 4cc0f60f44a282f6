//! The abstract machine: definitions alone, which compute. There is no function here and no proof; what is proved of
//! these definitions stands in the crates above.
//!
//! A reader believes the files of `specs/`, in this order:
//!
//! 1. `Lists`, `Bits`, `Counts`: words on lists, sets of bits, and how often each bit arrived.
//! 2. `Effect`, `Pipe`, `Sockets`, `Names`, `Unconnected`, `Listening`, `Counters`, `Timer`, `Objects`: the eight
//!    kinds of object, and what a call on one gives.
//! 3. `Files`, `State`: descriptors, open file descriptions and objects; the whole state.
//! 4. `Readiness`: what holds at a description, and what is reportable.
//! 5. `Tables`, `Watches`, `FilesCalls`, `Report`, `Waits`: what each call changes; of a call on the tables alone
//!    its refusals and its answer, too.
//! 6. `Deaths`, `Spread`, `Exclusive`, `Marks`, `Settle`: the end of each event, and whom it marks.
//! 7. `Refusal`, `Step`, `Run`: the refusals of every call, one step, and which lists of records are runs.
//!
//! These are all files of `specs/`; `Lib` only loads them.
#![tactic(auto)]
