//! The laws of objects of every kind.
ghost use Rattle.ep_object.specs.Law.{AdvanceLaw, ApplyLaw, CloseLaw, ObjectLaws};

/// The laws of objects, whatever their kind. Calls and closes keep the kind and the ends. What begins
/// to hold is raised, and what holds ends only at the end on which a call is made. The clock raises
/// something at timers only, once it has come to the next moment. A call gives no more than it asks for
/// and than waits. This does nothing: its contract is the laws, and rests on those of the kinds.
pub fn objects_keep_laws()
    ensures laws { ObjectLaws }
{
    ep_stream::arrivals_are_raised();
    ep_counters::arrivals_are_raised();
    ep_counters::next_arrivals();
}

/// A bit that begins to hold at an end of an object, which is there before and after, is raised at
/// that end: by every call, by a close, and as the clock goes on. This does nothing: its contract is
/// three of the laws of objects.
pub fn arrivals_are_raised()
    ensures apply { ApplyLaw }
    ensures close { CloseLaw }
    ensures advance { AdvanceLaw }
{
    objects_keep_laws();
}
