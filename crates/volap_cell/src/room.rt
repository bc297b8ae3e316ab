//! Room for a note that is taken before it is needed.
ghost use Rattle.std.specs.Prelude.{◌≡◌, [], ◌∷◌};

use dc_node::{Item, Todo};
use std::alloc::{AllocError, Global};
use std::marker::Model;

/// Room in which one block can be noted, for a step that may take no memory. Contracts see nothing of it.
#[derive(Drop)]
pub struct NoteRoom {
    empty: Todo,
}

impl Model for NoteRoom {
    ghost use Rattle.std.specs.Prelude.{◌≡◌, ◌<◌, [], ⊤};

    ghost Value = { ⊤ };

    ghost view = { λ _. tt };

    ghost invariant = { λ r. (r.empty.items ≡ []) × (0 < r.empty.room) };
}

impl NoteRoom {
    /// Takes the room.
    pub fn new(alloc: Global) -> Result<NoteRoom, AllocError> {
        let mut empty = Todo::new(alloc);
        empty.reserve(1)?;
        Ok(NoteRoom { empty })
    }

    /// The list in which this block alone is noted. Takes no memory.
    pub fn note(self, item: Item) -> Todo
        ensures { result.items ≡ item ∷ [] }
    {
        let mut todo = self.empty;
        todo.push(item);
        todo
    }
}
