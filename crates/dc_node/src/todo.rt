//! The blocks that a query has still to visit.
ghost use Rattle.std.specs.Prelude.{◌≡◌, ◌==◌, ◌+◌, ◌<◌, ◌≤◌, ◌∷◌, ◌++◌, [], List, length, MatchOption, IsOk, OnOk};
ghost use Rattle.dc_node.specs.declared.todo.Item as noted;

use std::alloc::{AllocError, Global};
use std::marker::Model;

/// A noted block: its cell, and the stamp at which the walk along right links from it ends.
#[derive(Clone, Copy, Debug, PartialEq, Eq)]
pub struct Item {
    pub cell: u32,
    pub stamp: u64,
}

/// The blocks that a query has noted and not yet visited, the last noted one last.
#[derive(Drop)]
pub struct Todo {
    items: Vec<Item>,
}

impl Model for Todo {
    ghost use Rattle.std.specs.Prelude.{◌-◌, vec_capacity, vec_len};
    ghost use Rattle.dc_node.specs.Todo.{TodoValue};

    ghost Value = { TodoValue };

    ghost view = { λ a. record { items = a.items.items; room = vec_capacity a.items - vec_len a.items } };
}

impl Todo {
    /// Nothing is noted. Takes no memory.
    pub fn new(alloc: Global) -> Todo
        ensures { result.items ≡ [] }
    {
        Todo {
            items: Vec::new(alloc),
        }
    }

    /// Makes room for `n` further items.
    pub fn reserve(&mut self, n: u64) -> Result<(), AllocError>
        ensures items { self.new.items ≡ self.old.items }
        ensures ok { OnOk result (n ≤ self.new.room) }
        ensures room { self.old.room ≤ self.new.room }
        ensures enough { n ≤ self.old.room → IsOk result }
    {
        self.items.reserve(n as usize)?;
        Ok(())
    }

    /// Notes a block, for which there is room. Takes no memory.
    pub fn push(&mut self, item: Item)
        requires { 0 < self.old.room }
        ensures items { self.new.items ≡ self.old.items ++ item ∷ [] }
        ensures room { self.old.room ≤ self.new.room + 1 }
    {
        let pushed = self.items.push(item);
        prove!(pushed.is_ok());
    }

    /// Takes the last noted block out.
    pub fn pop(&mut self) -> Option<Item>
        ensures items { MatchOption result
            ((self.old.items ≡ []) × (self.new.items ≡ []))
            (λ item. self.old.items ≡ self.new.items ++ item ∷ []) }
        ensures room { self.old.room ≤ self.new.room }
    {
        self.items.pop()
    }

    /// The block that `pop` would take out: the one that was noted last.
    pub fn last(&self) -> Option<Item>
        ensures { MatchOption result
            (self.now.items ≡ [])
            (λ item. (front : List noted.Item) × (self.now.items ≡ front ++ item ∷ [])) }
    {
        let at = self.items.len().checked_sub(1)?;
        Some(self.items[at])
    }

    /// How many blocks are noted.
    pub fn len(&self) -> usize
        ensures { result ≡ length self.now.items }
    {
        self.items.len()
    }

    /// Whether no block is noted.
    pub fn is_empty(&self) -> bool
        ensures { result ≡ (length self.now.items == 0) }
    {
        self.items.is_empty()
    }
}
