//! Copies of an answer that take memory.
use crate::spare::Spare;
use ep_base::Answer;

/// The copies of an answer that take memory, which are made before anything changes.
#[derive(Drop)]
pub struct Copies {
    /// The same answer for the history.
    pub recorded: Answer,
    /// What a second record is made of, if one is asked for.
    pub spare: Option<Spare>,
}
