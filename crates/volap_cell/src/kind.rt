//! The kinds of step.
/// The kinds of step. A step changes the cells that its kind holds and its actor, and nothing else.
#[derive(Clone, Copy, Debug, PartialEq, Eq)]
pub enum Kind {
    /// A query's part reads a gate: its queue, and its tree as far as the root's set tells.
    GateRead,
    /// A query's part visits the block that it noted last.
    BlockVisit,
    /// A row comes in at a gate, to the root of its tree.
    EnterTree,
    /// A row comes in at a gate, to its queue.
    EnterQueue,
    /// A row goes down from a block to a child.
    Down,
    /// A row is put in its leaf.
    PutInLeaf,
    /// An insert that has put its row leaves the tree.
    LeaveTree,
    /// An actor gives its spare cells back, and takes as many as its insert may need.
    Refill,
    /// An actor takes a part that waits on a desk.
    TakePart,
    /// An actor looks up where a shard's gate is.
    LookUp,
    /// A part goes on to the worker to which its shard has moved.
    Forward,
    /// A part goes on to the children of its shard, which was split.
    Expand,
    /// An actor ends its part, which goes back to its desk.
    FinishPart,
    /// An insert begins.
    BeginInsert,
    /// An event is noted in the history, or a session is counted in or out at its desk.
    Note,
    /// An insert's part is put on its desk.
    Route,
    /// An insert is acknowledged.
    Ack,
    /// A query begins, and its parts are put on its desk.
    BeginQuery,
    /// A query is answered.
    Answer,
    /// A server pushes what its boxes have grown by, and pulls the shards that stand.
    Sync,
    /// A shard is frozen to be split or moved, or that is declined.
    Freeze,
    /// The last insert has left the tree of a frozen shard.
    Drained,
    /// The rows of one block of a frozen shard are collected, or one row of its queue.
    Collect,
    /// A block of a new tree is put in its cell.
    BuildBlock,
    /// A shard is split.
    FinishSplit,
    /// A shard is moved.
    FinishMove,
    /// A split or a move is given up for want of memory; the shard stays frozen.
    Postpone,
    /// A cell that nobody reads any more is free again.
    Reuse,
}
