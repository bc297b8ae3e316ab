//! The names of a row, in one buffer.
ghost use Rattle.std.specs.Prelude.{◌≡◌, ◌==◌, ◌<◌, ◌≤◌, ◌+◌, [], ◌∷◌, ◌++◌, OnOk, OnErr, IfOk, length, take, drop, slice_index};

use std::alloc::{AllocError, Global};
use std::marker::Model;

/// Names of up to 255 bytes in order, as those of a row. They stand one behind the other in one
/// buffer, each as a byte with its length and then its bytes. Contracts see the list.
#[derive(Drop)]
pub struct RowNames {
    count: usize,
    bytes: Vec<u8>,
}

impl Model for RowNames {
    ghost use Rattle.std.specs.Prelude.{List, ℕ};
    ghost use Rattle.dim_hierarchy.specs.RowNames.{names_in, AreNames};

    ghost Value = { List (List ℕ) };

    ghost view = { λ n. names_in n.count n.bytes.items };

    ghost invariant = { λ n. AreNames n.count n.bytes.items };
}

impl RowNames {
    ghost use Rattle.std.specs.Prelude.{slice_index_or};

    /// No name. Takes no memory.
    pub fn new(alloc: Global) -> RowNames
        ensures { result ≡ [] }
    {
        RowNames {
            count: 0,
            bytes: Vec::new(alloc),
        }
    }

    /// No name, with room for so many bytes. A name takes its length and one more.
    pub fn with_capacity(alloc: Global, bytes: usize) -> Result<RowNames, AllocError>
        ensures { IfOk result (λ names. names ≡ []) }
    {
        Ok(RowNames {
            count: 0,
            bytes: Vec::with_capacity(alloc, bytes)?,
        })
    }

    /// Adds a name at the end.
    pub fn push(&mut self, name: &[u8]) -> Result<(), AllocError>
        requires { length name.now ≤ 255 }
        ensures ok { OnOk result (self.new ≡ self.old ++ name.now ∷ []) }
        ensures err { OnErr result (self.new ≡ self.old) }
    {
        self.bytes.reserve(1 + name.len())?;
        self.bytes.push(name.len() as u8)?;
        self.bytes.extend_from_slice(name)?;
        self.count += 1;
        Ok(())
    }

    /// How many names there are.
    pub fn len(&self) -> usize
        ensures { result ≡ length self.now }
    {
        self.count
    }

    /// Whether there is no name.
    pub fn is_empty(&self) -> bool
        ensures { result ≡ (length self.now == 0) }
    {
        self.count == 0
    }

    /// The name at a place. Goes past those before it, one by one.
    pub fn get(&self, place: usize) -> &[u8]
        requires { place < length self.now }
        ensures { result.now ≡ slice_index_or self.now place [] }
    {
        let mut rest = self.bytes.as_slice();
        for _before in 0..place {
            rest = others(rest);
        }
        first(rest)
    }
}

/// The first of these names.
fn first(names: &[u8]) -> &[u8]
    requires some { 0 < length names.now }
    requires whole { slice_index names.now 0 < length names.now }
    ensures { result.now ≡ take (slice_index names.now 0) (drop 1 names.now) }
{
    &names[1..1 + usize::from(names[0])]
}

/// The names behind the first.
fn others(names: &[u8]) -> &[u8]
    requires some { 0 < length names.now }
    requires whole { slice_index names.now 0 < length names.now }
    ensures { result.now ≡ drop (1 + slice_index names.now 0) names.now }
{
    &names[1 + usize::from(names[0])..]
}
