//! Filters, by concept and by name.
ghost use Rattle.std.specs.Prelude.{◌≡◌, IfOk};

use crate::concept::ConceptId;
use crate::items::{Items, Names};
use std::alloc::{AllocError, Global};

/// Concepts of one dimension, in any order and with repeats.
pub type IdList = Items<ConceptId>;

/// What a filter asks of one dimension: any concept, or one under a listed concept.
#[derive(Drop)]
pub enum Pick {
    All,
    Ids(IdList),
}

/// One pick for each dimension, in their order.
pub type Filter = Items<Pick>;

/// A pick by names: any concept, or one under a concept of these names.
#[derive(Drop)]
pub enum NamePick {
    All,
    Any(Names),
}

/// One pick by names for each dimension, in their order.
pub type NameFilter = Items<NamePick>;

/// The same filter once more.
pub fn copy_filter(alloc: Global, filter: &Filter) -> Result<Filter, AllocError>
    ensures { IfOk result (λ copy. copy ≡ filter.now) }
{
    let mut copy = Filter::new(alloc);
    for pick in filter.as_slice() {
        copy.push(copy_pick(alloc, pick)?)?;
    }
    Ok(copy)
}

/// The same pick once more.
fn copy_pick(alloc: Global, pick: &Pick) -> Result<Pick, AllocError>
    ensures { IfOk result (λ copy. copy ≡ pick.now) }
{
    match pick {
        Pick::All => Ok(Pick::All),
        Pick::Ids(ids) => Ok(Pick::Ids(IdList::from_vec(Vec::from_slice(alloc, ids.as_slice())?))),
    }
}
