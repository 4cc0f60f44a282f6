//! Small facts of tests, numbers, options and lists, for the proofs of the other crates. The toolchain's library has
//! none of them.
#![tactic(auto)]
