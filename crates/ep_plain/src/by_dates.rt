//! The dates tell whether an instance is ready.
ghost use Rattle.ep_plain.specs.Exact.{TellsReadyIn};

use ep_base::DescId;
use ep_calls::Parts;
use ep_climb::Readiness;
use ep_dates::Dates;

/// The dates of registrations, asked whether an instance is ready: exactly if one of its registrations has a date.
#[derive(Drop)]
pub struct ByDates<'a> {
    /// The dates.
    pub dates: &'a Dates,
}

impl Readiness for ByDates<'_> {
    ghost knows = { λ by tables clock interest. TellsReadyIn tables clock interest by.dates.now };

    fn is_ready(&mut self, _parts: &Parts, instance: DescId) -> bool {
        self.dates.is_ready(instance)
    }
}
