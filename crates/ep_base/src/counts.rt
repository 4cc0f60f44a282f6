//! How often bits arrived.

/// How often each bit arrived at an open file description, at most once in each event.
#[derive(Clone, Copy, Debug, Default, PartialEq, Eq)]
pub struct Counts {
    /// IN.
    pub of_in: u64,
    /// OUT.
    pub of_out: u64,
    /// ERR.
    pub of_err: u64,
    /// HUP.
    pub of_hup: u64,
    /// RDHUP.
    pub of_rdhup: u64,
}
