//! A history in words.
use row_ledger::{Call, Event, GroupPage, How, Page};
use std::alloc::{AllocError, Global};
use std::fmt::Write;

/// Adds which call a session makes.
fn push_call(text: &mut String, session: u16, call: &Call) -> Result<(), AllocError> {
    write!(text, "{session} calls ")?;
    match call {
        Call::Barrier => write!(text, "barrier; "),
        Call::Settle => write!(text, "settle; "),
        Call::Shards => write!(text, "shards; "),
        Call::Tree(shard) => write!(text, "tree {shard}; "),
        Call::Audit => write!(text, "audit; "),
        _ => write!(text, "another; "),
    }
}

/// Adds how many rows a page has, by shard where it is a page of these, and what else tells it apart.
fn push_page(text: &mut String, page: &Page) -> Result<(), AllocError> {
    match page {
        Page::Audit(line) => {
            let shards = line.shards;
            write!(
                text,
                "{} of {} in {shards}; ",
                line.agg.count(),
                line.agg.sum()
            )
        }
        Page::Tree(tree) => {
            let groups = tree.nodes.len();
            write!(text, "{} + {} in {groups}; ", tree.rows, tree.queued)
        }
        Page::Shards(lines) => {
            for line in lines.as_slice() {
                let shard = line.shard;
                write!(text, "{shard} has {} + {}; ", line.rows, line.queued)?;
            }
            Ok(())
        }
        Page::Group(group) => push_group(text, group),
    }
}

/// Adds how many rows each concept of a page of a group has, and their sum, and so of all rows.
fn push_group(text: &mut String, group: &GroupPage) -> Result<(), AllocError> {
    for line in group.lines.as_slice() {
        let level = line.id.level();
        let number = line.id.number();
        let agg = line.agg;
        write!(
            text,
            "{level}:{number} has {} of {}; ",
            agg.count(),
            agg.sum()
        )?;
    }
    write!(text, "all {} of {}; ", group.all.count(), group.all.sum())
}

/// Adds an event.
fn push_event(text: &mut String, event: &Event) -> Result<(), AllocError> {
    match event {
        Event::Synced { server, .. } => write!(text, "{server} pulls; "),
        Event::Begun { session, .. } => write!(text, "{session} inserts; "),
        Event::Acked { .. } => write!(text, "done; "),
        Event::Called { session, call } => push_call(text, *session, call),
        Event::Shown { page, .. } => push_page(text, page),
        Event::Ended { how: How::Fine, .. } => write!(text, "fine; "),
        Event::Ended {
            how: How::Declined(_),
            ..
        } => write!(text, "declined; "),
        _ => write!(text, "something else; "),
    }
}

/// The events of a history, the oldest first.
pub(crate) fn told(alloc: Global, events: &[Event]) -> Result<String, AllocError> {
    let mut text = String::new(alloc);
    for event in events {
        push_event(&mut text, event)?;
    }
    Ok(text)
}

/// The pages of a history, the oldest first, and what was named that is not known.
pub(crate) fn shown(alloc: Global, events: &[Event]) -> Result<String, AllocError> {
    let mut text = String::new(alloc);
    for event in events {
        match event {
            Event::Shown { page, .. } => push_page(&mut text, page)?,
            Event::Unknown { dim, .. } => write!(text, "unknown {dim}; ")?,
            _ => {}
        }
    }
    Ok(text)
}
