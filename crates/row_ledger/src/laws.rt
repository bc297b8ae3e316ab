//! Laws of right histories. There is nothing to do at run time.

ghost use Rattle.row_ledger.specs.Laws.{KeptIsRight, FrontierAscends, LinesStay, LiveShardsAreApart, SplitShardsHaveOneHeir, EventsChange};

/// What a run keeps is a right history.
pub fn kept_is_right()
    ensures { KeptIsRight }
{}

/// The shards that stand are in the order of their ids, each once.
pub fn frontier_ascends()
    ensures { FrontierAscends }
{}

/// What comes from where among shards that had their ids before an event stays.
pub fn lines_stay()
    ensures { LinesStay }
{}

/// Of the shards that stand none comes from another.
pub fn live_shards_are_apart()
    ensures { LiveShardsAreApart }
{}

/// What stands and comes from a shard that was split comes from exactly one of its children.
pub fn split_shards_have_one_heir()
    ensures { SplitShardsHaveOneHeir }
{}

/// What each kind of event changes: of acknowledged rows, listings and shards.
pub fn events_change()
    ensures { EventsChange }
{}
