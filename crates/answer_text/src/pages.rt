//! The lines of the pages that commands show.
ghost use Rattle.std.specs.Prelude.{◌≡◌, ◌++◌, codes, OnOk, string_bytes};
ghost use Rattle.std.specs.List.{flat_map};
ghost use Rattle.answer_text.specs.Printed.{all_said, audit_said, group_said, line, node_said, page_text, shard_said, tree_said};

use crate::answer::Total;
use describing_set::{DescSet, Part};
use dim_hierarchy::ConceptId;
use measure_agg::Agg;
use row_ledger::{AuditLine, GroupLine, NodeLine, Page, ShardLine, TreePage};
use std::alloc::AllocError;
use std::fmt::{self, Write};

/// The numbers of concepts within their level, joined by `+`.
#[derive(Drop)]
struct Numbers<'a>(&'a [ConceptId]);

impl fmt::Display for Numbers<'_> {
    ghost use Rattle.std.specs.Prelude.{Some, codes};
    ghost use Rattle.answer_text.specs.Printed.{numbers_text};

    ghost output = { λ n. Some (numbers_text n.0.now) };

    fn fmt<W: fmt::Write>(&self, f: &mut fmt::Formatter<W>) -> fmt::Result {
        if let [first, rest @ ..] = self.0 {
            let number = first.number();
            write!(f, "{number}")?;
            for id in rest {
                let number = id.number();
                write!(f, "+{number}")?;
            }
        }
        Ok(())
    }
}

/// One dimension of a set: its level and the numbers of its concepts.
#[derive(Drop)]
struct PartText<'a>(&'a Part);

impl fmt::Display for PartText<'_> {
    ghost use Rattle.std.specs.Prelude.{Some};
    ghost use Rattle.answer_text.specs.Printed.{part_text};

    ghost output = { λ p. Some (part_text p.0.now) };

    fn fmt<W: fmt::Write>(&self, f: &mut fmt::Formatter<W>) -> fmt::Result {
        let level = self.0.level;
        let numbers = Numbers(self.0.ids.as_slice());
        write!(f, "{level}:{numbers}")
    }
}

/// A set: its dimensions, joined by `/`.
#[derive(Drop)]
struct BoxText<'a>(&'a DescSet);

impl fmt::Display for BoxText<'_> {
    ghost use Rattle.std.specs.Prelude.{Some};
    ghost use Rattle.answer_text.specs.Printed.{box_text};

    ghost output = { λ b. Some (box_text b.0.now) };

    fn fmt<W: fmt::Write>(&self, f: &mut fmt::Formatter<W>) -> fmt::Result {
        if let [first, rest @ ..] = self.0.parts.as_slice() {
            let part = PartText(first);
            write!(f, "{part}")?;
            for part in rest {
                let part = PartText(part);
                write!(f, "/{part}")?;
            }
        }
        Ok(())
    }
}

/// The word of a group's kind.
#[derive(Drop)]
struct KindWord {
    leaf: bool,
}

impl fmt::Display for KindWord {
    ghost use Rattle.std.specs.Prelude.{Some};
    ghost use Rattle.answer_text.specs.Printed.{kind_text};

    ghost output = { λ k. Some (kind_text k.leaf) };

    fn fmt<W: fmt::Write>(&self, f: &mut fmt::Formatter<W>) -> fmt::Result {
        if self.leaf {
            write!(f, "leaf")
        } else {
            write!(f, "dir")
        }
    }
}

/// What is said of a group of a tree.
#[derive(Drop)]
struct NodeText<'a>(&'a NodeLine);

impl fmt::Display for NodeText<'_> {
    ghost use Rattle.std.specs.Prelude.{Some};
    ghost use Rattle.answer_text.specs.Printed.{node_said};

    ghost output = { λ n. Some (node_said n.0.now) };

    fn fmt<W: fmt::Write>(&self, f: &mut fmt::Formatter<W>) -> fmt::Result {
        let node = self.0;
        let depth = node.depth;
        let kind = KindWord { leaf: node.leaf };
        let blocks = node.blocks;
        let items = node.items;
        let total = Total(node.agg);
        let set = BoxText(&node.set);
        write!(f, "{depth} {kind} {blocks} {items} {total} {set}")
    }
}

/// What is said of a tree.
#[derive(Drop)]
struct TreeText<'a>(&'a TreePage);

impl fmt::Display for TreeText<'_> {
    ghost use Rattle.std.specs.Prelude.{Some};
    ghost use Rattle.answer_text.specs.Printed.{tree_said};

    ghost output = { λ t. Some (tree_said t.0.now) };

    fn fmt<W: fmt::Write>(&self, f: &mut fmt::Formatter<W>) -> fmt::Result {
        let tree = self.0;
        let shard = tree.shard;
        let height = tree.height;
        let rows = tree.rows;
        let queued = tree.queued;
        write!(f, "{shard} height {height} rows {rows} queued {queued}")
    }
}

/// What is said of a shard.
#[derive(Drop)]
struct ShardText<'a>(&'a ShardLine);

impl fmt::Display for ShardText<'_> {
    ghost use Rattle.std.specs.Prelude.{Some};
    ghost use Rattle.answer_text.specs.Printed.{shard_said};

    ghost output = { λ s. Some (shard_said s.0.now) };

    fn fmt<W: fmt::Write>(&self, f: &mut fmt::Formatter<W>) -> fmt::Result {
        let line = self.0;
        let shard = line.shard;
        let worker = line.worker;
        let rows = line.rows;
        let queued = line.queued;
        let set = BoxText(&line.set);
        write!(
            f,
            "{shard} worker {worker} rows {rows} queued {queued} box {set}"
        )
    }
}

/// What is said of all rows.
#[derive(Drop)]
struct AuditText<'a>(&'a AuditLine);

impl fmt::Display for AuditText<'_> {
    ghost use Rattle.std.specs.Prelude.{Some};
    ghost use Rattle.answer_text.specs.Printed.{audit_said};

    ghost output = { λ a. Some (audit_said a.0.now) };

    fn fmt<W: fmt::Write>(&self, f: &mut fmt::Formatter<W>) -> fmt::Result {
        let total = Total(self.0.agg);
        let shards = self.0.shards;
        write!(f, "{total} shards {shards}")
    }
}

/// What is said of a concept that rows are under.
#[derive(Drop)]
struct GroupText<'a>(&'a GroupLine);

impl fmt::Display for GroupText<'_> {
    ghost use Rattle.std.specs.Prelude.{Some};
    ghost use Rattle.answer_text.specs.Printed.{group_said};

    ghost output = { λ g. Some (group_said g.0.now) };

    fn fmt<W: fmt::Write>(&self, f: &mut fmt::Formatter<W>) -> fmt::Result {
        let level = self.0.id.level();
        let number = self.0.id.number();
        let total = Total(self.0.agg);
        write!(f, "{level}:{number} {total}")
    }
}

/// Adds the line of a group.
fn push_node(text: &mut String, number: u64, node: &NodeLine) -> Result<(), AllocError>
    ensures { OnOk result (string_bytes text.new ≡ string_bytes text.old ++ line number (codes "node") (node_said node.now)) }
{
    let said = NodeText(node);
    writeln!(text, "{number} node {said}")
}

/// Adds the line of a tree.
fn push_head(text: &mut String, number: u64, tree: &TreePage) -> Result<(), AllocError>
    ensures { OnOk result (string_bytes text.new ≡ string_bytes text.old ++ line number (codes "tree") (tree_said tree.now)) }
{
    let said = TreeText(tree);
    writeln!(text, "{number} tree {said}")
}

/// Adds the lines of groups.
fn push_nodes(text: &mut String, number: u64, nodes: &[NodeLine]) -> Result<(), AllocError>
    ensures { OnOk result (string_bytes text.new ≡ string_bytes text.old ++ flat_map (λ node. line number (codes "node") (node_said node)) nodes.now) }
{
    for node in nodes {
        push_node(text, number, node)?;
    }
    Ok(())
}

/// Adds the line of a shard.
fn push_shard(text: &mut String, number: u64, shard: &ShardLine) -> Result<(), AllocError>
    ensures { OnOk result (string_bytes text.new ≡ string_bytes text.old ++ line number (codes "shard") (shard_said shard.now)) }
{
    let said = ShardText(shard);
    writeln!(text, "{number} shard {said}")
}

/// Adds the lines of shards.
fn push_shards(text: &mut String, number: u64, shards: &[ShardLine]) -> Result<(), AllocError>
    ensures { OnOk result (string_bytes text.new ≡ string_bytes text.old ++ flat_map (λ shard. line number (codes "shard") (shard_said shard)) shards.now) }
{
    for shard in shards {
        push_shard(text, number, shard)?;
    }
    Ok(())
}

/// Adds the line of an audit.
fn push_audit(text: &mut String, number: u64, audit: &AuditLine) -> Result<(), AllocError>
    ensures { OnOk result (string_bytes text.new ≡ string_bytes text.old ++ line number (codes "audit") (audit_said audit.now)) }
{
    let said = AuditText(audit);
    writeln!(text, "{number} audit {said}")
}

/// Adds the line of a concept that rows are under.
fn push_group(text: &mut String, number: u64, group: &GroupLine) -> Result<(), AllocError>
    ensures { OnOk result (string_bytes text.new ≡ string_bytes text.old ++ line number (codes "group") (group_said group.now)) }
{
    let said = GroupText(group);
    writeln!(text, "{number} group {said}")
}

/// Adds the lines of concepts that rows are under.
fn push_groups(text: &mut String, number: u64, groups: &[GroupLine]) -> Result<(), AllocError>
    ensures { OnOk result (string_bytes text.new ≡ string_bytes text.old ++ flat_map (λ one. line number (codes "group") (group_said one)) groups.now) }
{
    for group in groups {
        push_group(text, number, group)?;
    }
    Ok(())
}

/// Adds the line of all rows of a page of groups.
fn push_all(text: &mut String, number: u64, all: &Agg) -> Result<(), AllocError>
    ensures { OnOk result (string_bytes text.new ≡ string_bytes text.old ++ line number (codes "group") (all_said all.now)) }
{
    let total = Total(*all);
    writeln!(text, "{number} group all {total}")
}

/// Adds the lines of a page that a command with this number shows: one for each shard; one for a
/// tree, and one for each of its groups; one for all rows; or one for each concept, and one for all rows.
pub fn push_page(text: &mut String, number: u64, page: &Page) -> Result<(), AllocError>
    ensures { OnOk result (string_bytes text.new ≡ string_bytes text.old ++ page_text number page.now) }
{
    match page {
        Page::Shards(shards) => push_shards(text, number, shards.as_slice()),
        Page::Audit(audit) => push_audit(text, number, audit),
        Page::Group(group) => {
            push_groups(text, number, group.lines.as_slice())?;
            push_all(text, number, &group.all)
        }
        Page::Tree(tree) => {
            push_head(text, number, tree)?;
            push_nodes(text, number, tree.nodes.as_slice())
        }
    }
}
