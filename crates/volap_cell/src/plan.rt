//! What a balance plans, and the room for it that is taken before it is needed.
ghost use Rattle.std.specs.Prelude.{◌≡◌, ◌≤◌, None, Some, [], IfOk, is_none, option_and_then, slice_get, vec_capacity};

use crate::job::{Job, Stage};
use shard_plan::Action;
use std::alloc::{AllocError, Global};
use std::marker::Model;

/// As many actions a balance plans at most, since the number that it is called with is a byte.
const MOST_ACTIONS: usize = 255;

/// The actions that a balance has planned; until then room for them, and a box for the job of the first one.
/// Contracts see the actions, once they are planned.
#[derive(Drop)]
pub struct ActionPlan {
    actions: Vec<Action>,
    /// The box, as long as nothing is planned.
    first: Option<Box<Job>>,
}

impl Model for ActionPlan {
    ghost use Rattle.std.specs.Prelude.{◌≡◌, ◌≤◌, true, if◌then◌else◌, Option, None, Some, List, [], is_some, vec_capacity};
    ghost use Rattle.shard_plan.specs.declared.action.Action.{Action};

    ghost Value = { Option (List Action) };

    ghost view = { λ p. if is_some p.first then None else Some p.actions.items };

    ghost invariant = { λ p. is_some p.first ≡ true → (p.actions.items ≡ []) × (255 ≤ vec_capacity p.actions) };
}

impl ActionPlan {
    /// Nothing is planned. Takes memory for as many actions as a balance may plan, and for the box.
    pub fn new(alloc: Global) -> Result<ActionPlan, AllocError>
        ensures { IfOk result (λ plan. plan ≡ None) }
    {
        let actions = Vec::with_capacity(alloc, MOST_ACTIONS)?;
        let job = Job {
            shard: 0,
            worker: 0,
            to: None,
            stage: Stage::Called,
        };
        let first = Some(Box::new(alloc, job)?);
        Ok(ActionPlan { actions, first })
    }

    /// These actions are planned. Takes no memory.
    pub fn from_vec(actions: Vec<Action>) -> ActionPlan
        ensures { result ≡ Some actions.items }
    {
        ActionPlan {
            actions,
            first: None,
        }
    }

    /// The room for the actions of which none is planned yet, and the box for the job of the first one. Takes
    /// no memory.
    pub fn into_room(self) -> (Vec<Action>, Box<Job>)
        requires none { self ≡ None }
        ensures none { result.0.items ≡ [] }
        ensures room { 255 ≤ vec_capacity result.0 }
    {
        let ActionPlan { actions, first } = self;
        let Some(first) = first else { unreachable!() };
        (actions, first)
    }

    /// Whether nothing is planned yet.
    pub fn is_none(&self) -> bool
        ensures { result ≡ is_none self.now }
    {
        self.first.is_some()
    }

    /// The action at this place of those that are planned, if there is one.
    pub fn get(&self, at: u8) -> Option<Action>
        ensures { result ≡ option_and_then (λ actions. slice_get actions at) self.now }
    {
        if self.first.is_some() {
            return None;
        }
        self.actions.get(usize::from(at)).copied()
    }
}
