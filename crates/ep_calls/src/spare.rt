//! Copies for a second record.
ghost use Rattle.std.specs.Prelude.{◌≡◌, None};
ghost use Rattle.ep_calls.specs.KeptRecords.{IsCopied, IsInline};

use ep_base::{Answer, Picked};

/// What a second record of one event is made of, beside its caller and the event.
#[derive(Drop)]
pub struct Spare {
    /// A copy of the answer.
    pub answer: Answer,
    /// A copy of the numbers of the registrations that it reports.
    pub picked: Picked,
}

impl Spare {
    /// The copies of an answer and of the numbers that it reports: those that were made, or else new ones, which take
    /// no memory.
    pub fn of(made: Option<Spare>, answer: &Answer, picked: &Picked) -> Spare
        requires inline { made ≡ None → IsInline answer.now picked.now }
        requires copied { IsCopied made answer.now picked.now }
        ensures answer { result.answer ≡ answer.now }
        ensures picked { result.picked ≡ picked.now }
    {
        match made {
            Some(spare) => spare,
            None => Spare {
                answer: answer.copy().unwrap(),
                picked: picked.copy().unwrap(),
            },
        }
    }
}
