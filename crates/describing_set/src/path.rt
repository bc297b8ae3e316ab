//! The shards through which a row comes to its place.
ghost use Rattle.std.specs.Prelude.{◌≡◌, [], ◌∷◌, ◌++◌, OnOk, OnErr};

use std::alloc::{AllocError, Global};
use std::marker::Model;

/// Ids of shards, each the child of the one before. Contracts see the list. A path of one id takes no
/// memory, as nearly every row has such a path.
#[derive(Drop)]
pub struct Path {
    alloc: Global,
    ids: PathIds,
}

/// The ids of a path by how many there are.
#[derive(Drop)]
enum PathIds {
    None,
    One([u32; 1]),
    Many(Vec<u32>),
}

impl Model for Path {
    ghost use Rattle.std.specs.Prelude.{ℕ, List};
    ghost use Rattle.describing_set.specs.Path.{ids_of};

    ghost Value = { List ℕ };

    ghost view = { λ p. ids_of p.ids };
}

impl Path {
    /// The empty path. Takes no memory.
    pub fn new(alloc: Global) -> Path
        ensures { result ≡ [] }
    {
        Path {
            alloc,
            ids: PathIds::None,
        }
    }

    /// Adds an id at the end.
    pub fn push(&mut self, id: u32) -> Result<(), AllocError>
        ensures ok { OnOk result (self.new ≡ self.old ++ id ∷ []) }
        ensures err { OnErr result (self.new ≡ self.old) }
    {
        match &mut self.ids {
            PathIds::None => {
                self.ids = PathIds::One([id]);
            }
            PathIds::One(one) => {
                let ids = vec![in self.alloc; one[0], id]?;
                self.ids = PathIds::Many(ids);
            }
            PathIds::Many(ids) => {
                ids.push(id)?;
            }
        }
        Ok(())
    }

    /// The ids in order.
    pub fn as_slice(&self) -> &[u32]
        ensures { result.now ≡ self.now }
    {
        match &self.ids {
            PathIds::None => &[],
            PathIds::One(one) => one,
            PathIds::Many(ids) => ids.as_slice(),
        }
    }
}
