//! The entries of groups of several blocks.
ghost use Rattle.std.specs.Prelude.{◌≡◌, ◌+◌, ◌^◌, ◌<◌, [], ◌∷◌, ◌++◌, List, All, IfSome};
ghost use Rattle.std.specs.Option.{option_copied, option_to_list};
ghost use Rattle.describing_set.specs.Sets.{IsDescSetOf};
ghost use Rattle.dc_node.specs.Block.{IsBodyOf};
ghost use Rattle.dc_node.specs.Summary.{row_count, IsSummary};
ghost use Rattle.dc_node.specs.declared.block.Block.{Block};
ghost use Rattle.link_descent.specs.Divide.{front, together};
ghost use Rattle.link_descent.specs.Descend.{IsGroupEntry};

use crate::tail::Tail;
use dc_node::{Block, Entry, agg_laws};
use describing_set::DescSet;
use dim_hierarchy::Hierarchy;
use measure_agg::Agg;

/// The aggregate and the set of the items of a block behind a head, where they are of the kind of
/// the head's.
fn summary_behind(head: &Block, block: &Block, h: &Hierarchy) -> (Agg, DescSet)
    requires body { IsBodyOf h.now block.now.body }
    requires few { row_count (together (front head.now.body 0) (block.now ∷ [])) < 2 ^ 63 }
    ensures summary { IsSummary h.now (together (front head.now.body 0) (block.now ∷ [])) result.0 result.1 }
    ensures valid { IsDescSetOf h.now result.1 }
{
    if head.is_leaf() != block.is_leaf() {
        return (Agg::EMPTY, DescSet::empty(h));
    }
    block.summary(h)
}

/// Adds a block behind the head, if there is one, to the entry of a group.
fn add_behind(entry: &mut Entry, head: &Block, block: Option<&Block>, h: &Hierarchy)
    requires head { IsBodyOf h.now head.now.body }
    requires block { IfSome (option_copied block) (λ b. IsBodyOf h.now b.body) }
    requires set { IsDescSetOf h.now entry.old.set }
    requires few { entry.old.agg.count + row_count (together (front head.now.body 0) (option_to_list (option_copied block))) < 2 ^ 63 }
    ensures child { entry.new.child ≡ entry.old.child }
    ensures stamp { entry.new.stamp ≡ entry.old.stamp }
    ensures summary { (tail : List Block) → All (λ b. IsBodyOf h.now b.body) tail
        → IsSummary h.now (together head.now.body tail) entry.old.agg entry.old.set
        → IsSummary h.now (together head.now.body (tail ++ option_to_list (option_copied block.entry))) entry.new.agg entry.new.set }
    ensures set { IsDescSetOf h.now entry.new.set }
{
    measure_agg::laws();
    agg_laws();
    let Some(block) = block else {
        return;
    };
    let (agg, set) = summary_behind(head, block, h);
    entry.agg = entry.agg.join(&agg);
    entry.set = entry.set.join(h, &set);
}

/// The entry of a group that starts at a cell with this head, and goes on with the tail to the block
/// of which a stamp is expected.
pub fn group_entry(head: &Block, tail: &Tail, cell: u32, expected: u64, h: &Hierarchy) -> Entry
    requires head { IsBodyOf h.now head.now.body }
    requires tail { All (λ b. IsBodyOf h.now b.body) tail.now }
    requires few { row_count (together head.now.body tail.now) < 2 ^ 63 }
    ensures { IsGroupEntry h.now cell expected head.now tail.now result }
{
    let (agg, set) = head.summary(h);
    let mut entry = Entry {
        child: cell,
        stamp: expected,
        agg,
        set,
    };
    let (first, second) = tail.blocks();
    add_behind(&mut entry, head, first, h);
    add_behind(&mut entry, head, second, h);
    entry
}
