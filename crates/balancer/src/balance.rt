//! The plan of a balance, action by action.
ghost use Rattle.std.specs.Prelude.{◌≡◌, ◌^◌, ◌<◌, ◌≤◌, [], IfOk, vec_capacity};
ghost use Rattle.shard_plan.specs.Balancing.{plan, after_move};
ghost use Rattle.balancer.specs.Turn.{next_action, split_of, rows_of_all};

use crate::shards::{largest_on, largest_to_move};
use crate::workers::{emptiest, fullest, rows_on};
use shard_plan::{Action, Load};
use std::alloc::{AllocError, Global};

/// The gap between the fullest and the emptiest worker that is left as it is, in rows.
const EVEN_GAP: u64 = 32;

/// The fewest rows of a shard that is split.
const SPLIT_ROWS: u64 = 64;

/// The plan of a balance for at most `n` actions. Takes memory for a copy of the loads and for the actions.
pub fn plan(alloc: Global, loads: &[Load], workers: u8, n: u8) -> Result<Vec<Action>, AllocError>
    requires { rows_of_all loads.now < 2 ^ 63 }
    ensures { IfOk result (λ actions. actions.items ≡ plan loads.now workers n) }
{
    let mut standing = Vec::from_slice(alloc, loads)?;
    let mut actions = Vec::with_capacity(alloc, usize::from(n))?;
    plan_into(standing.as_mut_slice(), &mut actions, workers, n);
    Ok(actions)
}

/// Plans at most `n` actions into an empty list that has room for them. The loads are gone over a few times
/// for each worker and action, and changed on the way. Takes no memory.
pub fn plan_into(standing: &mut [Load], actions: &mut Vec<Action>, workers: u8, n: u8)
    requires rows { rows_of_all standing.old < 2 ^ 63 }
    requires none { actions.old.items ≡ [] }
    requires room { n ≤ vec_capacity actions.old }
    ensures { actions.new.items ≡ plan standing.old workers n }
{
    for _turn in 0..n {
        let Some(action) = next_action(standing, workers) else {
            return;
        };
        let pushed = actions.push(action);
        prove!(pushed.is_ok());
        match action {
            Action::Move { shard, worker } => move_shard(standing, shard, worker),
            Action::Split { .. } => return,
        }
    }
}

/// What is planned first, or nothing where the loads are even enough or no shard can make them so.
fn next_action(loads: &[Load], workers: u8) -> Option<Action>
    requires { rows_of_all loads.now < 2 ^ 63 }
    ensures { result ≡ next_action loads.now workers }
{
    let from = fullest(loads, workers);
    let to = emptiest(loads, workers);
    let gap = rows_on(loads, from).saturating_sub(rows_on(loads, to));
    if gap <= EVEN_GAP {
        None
    } else if let Some(load) = largest_to_move(loads, from, gap) {
        Some(Action::Move {
            shard: load.shard,
            worker: to,
        })
    } else {
        split_of(largest_on(loads, from))
    }
}

/// The split of a shard that is large enough.
fn split_of(found: Option<Load>) -> Option<Action>
    ensures { result ≡ split_of found }
{
    match found {
        Some(load) if load.rows >= SPLIT_ROWS => Some(Action::Split { shard: load.shard }),
        _ => None,
    }
}

/// Counts on with the shard on the worker. Takes no memory.
pub fn move_shard(loads: &mut [Load], shard: u32, worker: u8)
    ensures { loads.new ≡ after_move loads.old shard worker }
{
    for load in loads.iter_mut() {
        if load.shard == shard {
            load.worker = worker;
        }
    }
}
