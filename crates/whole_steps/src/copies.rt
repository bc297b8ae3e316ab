//! Copies of pages.
ghost use Rattle.std.specs.Prelude.{◌≡◌, IfOk, Ok};

use row_ledger::{
    AuditLine, GroupLines, GroupPage, NodeLine, NodeList, Page, ShardLine, ShardList, TreePage,
};
use std::alloc::{AllocError, Global};

/// A copy of a line.
fn copy_shard(line: &ShardLine) -> ShardLine
    ensures { result ≡ line.now }
{
    ShardLine {
        shard: line.shard,
        worker: line.worker,
        rows: line.rows,
        queued: line.queued,
        set: line.set.copy(),
    }
}

/// A copy of a line.
fn copy_node(line: &NodeLine) -> NodeLine
    ensures { result ≡ line.now }
{
    NodeLine {
        depth: line.depth,
        leaf: line.leaf,
        blocks: line.blocks,
        items: line.items,
        agg: line.agg,
        set: line.set.copy(),
    }
}

/// A copy of the lines. Takes memory for it.
fn copy_shards(alloc: Global, lines: &ShardList) -> Result<ShardList, AllocError>
    ensures { IfOk result (λ copy. copy ≡ lines.now) }
{
    let mut copy = ShardList::new(alloc);
    for line in lines.as_slice() {
        copy.push(copy_shard(line))?;
    }
    Ok(copy)
}

/// A copy of the lines. Takes memory for it.
fn copy_nodes(alloc: Global, lines: &NodeList) -> Result<NodeList, AllocError>
    ensures { IfOk result (λ copy. copy ≡ lines.now) }
{
    let mut copy = NodeList::new(alloc);
    for line in lines.as_slice() {
        copy.push(copy_node(line))?;
    }
    Ok(copy)
}

/// A copy of a page. Takes memory for it.
pub(crate) fn copy_page(alloc: Global, page: &Page) -> Result<Page, AllocError>
    ensures { IfOk result (λ copy. copy ≡ page.now) }
{
    Ok(match page {
        Page::Shards(lines) => Page::Shards(copy_shards(alloc, lines)?),
        Page::Tree(tree) => Page::Tree(TreePage {
            shard: tree.shard,
            height: tree.height,
            rows: tree.rows,
            queued: tree.queued,
            nodes: copy_nodes(alloc, &tree.nodes)?,
        }),
        Page::Audit(audit) => Page::Audit(AuditLine {
            agg: audit.agg,
            shards: audit.shards,
        }),
        Page::Group(group) => Page::Group(GroupPage {
            lines: GroupLines::from_vec(Vec::from_slice(alloc, group.lines.as_slice())?),
            all: group.all,
        }),
    })
}

/// A page that was made, and a copy of it. Takes memory for it.
pub(crate) fn with_copy(
    alloc: Global,
    page: Result<Page, AllocError>,
) -> Result<(Page, Page), AllocError>
    ensures same { IfOk result (λ both. both.1 ≡ both.0) }
    ensures made { IfOk result (λ both. page ≡ Ok both.0) }
{
    let page = page?;
    let copy = copy_page(alloc, &page)?;
    Ok((page, copy))
}
