//! The roles of a script's run, listed.
ghost use Rattle.std.specs.Prelude.{◌≡◌, ◌++◌, ◌<◌, ◌≤◌, ◌^◌, length, IfOk, OnOk};
ghost use Rattle.script_roles.specs.Roles.{hands_at, hands_of, roles_of, sessions_of};

use row_ledger::Use;
use std::alloc::{AllocError, Global};
use volap_cell::{Role, RoleList};

/// Adds a session for each server, by their numbers.
fn add_sessions(roles: &mut RoleList, servers: u8) -> Result<(), AllocError>
    ensures ok { OnOk result (roles.new ≡ roles.old ++ sessions_of servers) }
{
    for server in 0..servers {
        roles.push(Role::Session { server })?;
    }
    Ok(())
}

/// Adds so many hands of one worker.
fn add_hands_at(roles: &mut RoleList, worker: u8, threads: u8) -> Result<(), AllocError>
    ensures ok { OnOk result (roles.new ≡ roles.old ++ hands_at worker threads) }
{
    for _ in 0..threads {
        roles.push(Role::Hand { worker })?;
    }
    Ok(())
}

/// Adds the hands of all workers, those of one behind those of another.
fn add_hands(roles: &mut RoleList, threads: u8, workers: u8) -> Result<(), AllocError>
    ensures ok { OnOk result (roles.new ≡ roles.old ++ hands_of threads workers) }
{
    for worker in 0..workers {
        add_hands_at(roles, worker, threads)?;
    }
    Ok(())
}

/// Each of these numbers is a byte. There is nothing to do at run time.
fn are_bytes(servers: u8, workers: u8, threads: u8)
    ensures servers { servers ≤ 255 }
    ensures workers { workers ≤ 255 }
    ensures threads { threads ≤ 255 }
{}

/// What the actors of a script's run are there for. It takes memory for their list. Each number is a byte, so the
/// actors are few enough to have numbers.
pub fn script_roles(alloc: Global, with: &Use) -> Result<RoleList, AllocError>
    ensures value { IfOk result (λ roles. roles ≡ roles_of with.now) }
    ensures few { IfOk result (λ roles. length roles < 2 ^ 16) }
{
    are_bytes(with.servers, with.workers, with.threads);
    let mut roles = RoleList::new(alloc);
    add_sessions(&mut roles, with.servers)?;
    roles.push(Role::Puller)?;
    roles.push(Role::Admin)?;
    add_hands(&mut roles, with.threads, with.workers)?;
    Ok(roles)
}
