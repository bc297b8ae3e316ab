//! Laws of how often parts may still go on. There is nothing to do at run time.

ghost use Rattle.core_counts.specs.Ahead.{AtFirstLaw, GrowsLaw};
ghost use Rattle.core_counts.specs.Counting.{CountingLaw, RestingCountLaw};

/// The parts of a query that begins may go on or end no more often than there are shards, splits and moves for.
pub fn parts_are_few_at_first()
    ensures { AtFirstLaw }
{}

/// With an event the parts that stand may go on more often by no more than such a bound grows.
pub fn an_event_adds_few()
    ensures { GrowsLaw }
{}

/// What an actor has ended or sent on of its query, with what its parts may still go on, stays within that bound at each
/// step, and it is so where nobody has a command.
pub fn parts_stay_few()
    ensures counting { CountingLaw }
    ensures resting { RestingCountLaw }
{}
