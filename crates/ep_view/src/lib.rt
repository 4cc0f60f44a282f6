//! The machine as a kernel sees it, which keeps of a registration only whether it is fresh: definitions and lemmas, for
//! the proofs of kernels. No reader has to believe them.
#![tactic(auto)]
