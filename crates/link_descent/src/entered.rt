//! What a step of an insert leaves.
ghost use Rattle.std.specs.Prelude.{◌≡◌, [], ◌∷◌};

use arrayvec::ArrayVec;
use dc_node::Block;

/// A new block with the cell that it fills.
#[derive(Drop)]
pub struct Fresh {
    pub cell: u32,
    pub block: Block,
}

/// An empty leaf: the blank of a list of new blocks.
impl Default for Fresh {
    fn default() -> Fresh {
        Fresh {
            cell: 0,
            block: Block::leaf(0),
        }
    }
}

/// What a step of an insert leaves beside the blocks that it was lent: the new blocks, and the cell
/// of the block at which the row is carried.
#[derive(Drop)]
pub struct Entered {
    pub fresh: ArrayVec<Fresh, 2>,
    pub at: u32,
}

impl Entered {
    /// No new block.
    pub(crate) fn none(at: u32) -> Entered
        ensures fresh { result.fresh.items ≡ [] }
        ensures at { result.at ≡ at }
    {
        Entered {
            fresh: ArrayVec::new(),
            at,
        }
    }

    /// One new block.
    pub(crate) fn one(fresh: Fresh, at: u32) -> Entered
        ensures fresh { result.fresh.items ≡ fresh ∷ [] }
        ensures at { result.at ≡ at }
    {
        let mut entered = Entered::none(at);
        entered.fresh.push(fresh);
        entered
    }
}
