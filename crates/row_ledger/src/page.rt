//! Pages: what a command shows.
use describing_set::DescSet;
use dim_hierarchy::{ConceptId, Items};
use measure_agg::Agg;

/// A group of blocks of a tree.
#[derive(Drop)]
pub struct NodeLine {
    /// How many groups lie above it.
    pub depth: u32,
    /// Whether its blocks have rows, not entries.
    pub leaf: bool,
    /// How many blocks it has.
    pub blocks: u64,
    /// How many items its blocks have together.
    pub items: u64,
    /// The aggregate of the rows beneath it.
    pub agg: Agg,
    /// The describing set of the rows beneath it.
    pub set: DescSet,
}

/// Groups, the root's first, each followed by those beneath it.
pub type NodeList = Items<NodeLine>;

/// What a shard's tree looks like.
#[derive(Drop)]
pub struct TreePage {
    pub shard: u32,
    /// On how many levels the tree has blocks.
    pub height: u32,
    /// How many rows are in the tree.
    pub rows: u64,
    /// How many rows are in the queue.
    pub queued: u64,
    pub nodes: NodeList,
}

/// A shard that stands, its worker, how many rows its tree and its queue have, and the describing
/// set of them all.
#[derive(Drop)]
pub struct ShardLine {
    pub shard: u32,
    pub worker: u8,
    /// How many rows are in the tree.
    pub rows: u64,
    /// How many rows are in the queue.
    pub queued: u64,
    pub set: DescSet,
}

/// The shards that stand, in the order of their ids.
pub type ShardList = Items<ShardLine>;

/// The aggregate of all rows, and how many shards stand.
#[derive(Drop)]
pub struct AuditLine {
    pub agg: Agg,
    pub shards: u64,
}

/// A concept, and the aggregate of the rows under it.
#[derive(Clone, Copy, Debug, Default, Drop, PartialEq)]
pub struct GroupLine {
    pub id: ConceptId,
    pub agg: Agg,
}

/// Lines in the order of their concepts.
pub type GroupLines = Items<GroupLine>;

/// The concepts of a level that rows are under, and the aggregate of all these rows.
#[derive(Drop)]
pub struct GroupPage {
    pub lines: GroupLines,
    pub all: Agg,
}

/// What a command shows.
#[derive(Drop)]
pub enum Page {
    Shards(ShardList),
    Tree(TreePage),
    Audit(AuditLine),
    Group(GroupPage),
}
